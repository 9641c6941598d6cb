//! Every damage of one byte to a sound image, judged by both readings.
use crate::judging::*;
use crate::making::*;
use crate::worked::*;
use std::process::Abort;
use std::test::Fail;

// How many images were passed and refused.
#[derive(Clone, Copy, Default, PartialEq, Debug)]
struct Tally {
    passed: u32,
    refused: u32,
}

impl Tally {
    fn add(&mut self, bytes: &[u8]) {
        match judge_image(bytes) {
            Ok(_) => self.passed = self.passed.saturating_add(1),
            Err(_) => self.refused = self.refused.saturating_add(1),
        }
    }
}

// Every other value of the byte.
fn change_byte(
    rt: &impl Abort,
    bytes: &mut Vec<u8>,
    at: usize,
    tally: &mut Tally,
) -> Result<(), Fail> {
    let kept = bytes.get(at).copied().ok_or("no such byte")?;
    for step in 1..=255u8 {
        set_byte(bytes, at, kept.wrapping_add(step));
        check_agreement(rt, bytes.as_slice(), &format_args!("byte {at} and {step}"));
        tally.add(bytes.as_slice());
    }
    set_byte(bytes, at, kept);
    Ok(())
}

fn change_each_byte(rt: &impl Abort, bytes: &mut Vec<u8>) -> Result<Tally, Fail> {
    let mut tally = Tally::default();
    // by its number: each byte is changed in place and the whole is judged
    for at in 0..bytes.len() {
        change_byte(rt, bytes, at, &mut tally)?;
    }
    Ok(tally)
}

// A byte more, of every value, and then ever fewer bytes.
fn change_the_length(rt: &impl Abort, bytes: &mut Vec<u8>) -> Result<Tally, Fail> {
    let mut tally = Tally::default();
    for value in 0..=255u8 {
        bytes.push(value)?;
        check_agreement(rt, bytes.as_slice(), &value);
        tally.add(bytes.as_slice());
        let _ = bytes.pop();
    }
    for _ in 0..bytes.len() {
        let _ = bytes.pop();
        check_agreement(rt, bytes.as_slice(), &bytes.len());
        tally.add(bytes.as_slice());
    }
    Ok(tally)
}

#[test]
fn readings_agree_on_changed_printed_bytes(rt: HostRuntime) -> Result<(), Fail> {
    let tally = change_each_byte(&rt, &mut printed_bytes(rt.alloc())?)?;
    assert!(rt; tally.passed > 0);
    assert_eq!(rt; tally.passed.saturating_add(tally.refused), 176 * 255);
    Ok(())
}

#[test]
fn readings_agree_on_changed_clock_face_bytes(rt: HostRuntime) -> Result<(), Fail> {
    let tally = change_each_byte(&rt, &mut clock_face_bytes(rt.alloc())?)?;
    assert!(rt; tally.passed > 0);
    assert_eq!(rt; tally.passed.saturating_add(tally.refused), 160 * 255);
    Ok(())
}

#[test]
fn readings_agree_on_cut_and_extended_bytes(rt: HostRuntime) -> Result<(), Fail> {
    let printed = change_the_length(&rt, &mut printed_bytes(rt.alloc())?)?;
    assert_eq!(rt;
        printed,
        Tally {
            passed: 0,
            refused: 256 + 176,
        }
    );
    let clock_face = change_the_length(&rt, &mut clock_face_bytes(rt.alloc())?)?;
    assert_eq!(rt;
        clock_face,
        Tally {
            passed: 0,
            refused: 256 + 160,
        }
    );
    Ok(())
}
