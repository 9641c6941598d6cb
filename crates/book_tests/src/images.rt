//! Damaged images, each with the fault that it has.
use crate::judging::*;
use crate::making::*;
use crate::reading::*;
use crate::worked::*;
use std::process::Abort;
use std::test::Fail;

// A number written over an image at a byte, and what is then told.
#[derive(Clone, Copy)]
struct Damage {
    at: usize,
    value: u16,
    told: Told,
}

fn case(at: usize, value: u16, number: u8, byte: usize, part: u8, row: usize) -> Damage {
    Damage {
        at,
        value,
        told: Told::new(number, byte, part, row),
    }
}

// Each damage is done to a fresh image.
fn check_damages(rt: &impl Abort, fresh: &Vec<u8>, damages: &[Damage]) -> Result<(), Fail> {
    for d in damages {
        let mut bytes = fresh.clone()?;
        set_number(&mut bytes, d.at, d.value);
        assert_eq!(rt;
            judge_image(bytes.as_slice()),
            Err(d.told),
            "{} at {}",
            d.value,
            d.at
        );
        assert_eq!(rt;
            read_image(bytes.as_slice()),
            Err(d.told),
            "the second reading"
        );
    }
    Ok(())
}

#[test]
fn a_damaged_heading_is_told(rt: HostRuntime) -> Result<(), Fail> {
    let damages = [
        case(0, 13, 2, 0, 1, 0),
        case(0, 15, 2, 0, 1, 0),
        case(0, 270, 2, 0, 1, 0),
        case(2, 0, 2, 2, 1, 0),
        case(2, 257, 2, 2, 1, 0),
        case(4, 0, 3, 4, 1, 0),
        case(4, 257, 3, 4, 1, 0),
        case(6, 3073, 3, 6, 1, 0),
        case(8, 1, 3, 8, 1, 0),
        case(8, 256, 3, 9, 1, 0),
        case(10, 257, 3, 10, 1, 0),
        case(14, 65280, 3, 15, 1, 0),
    ];
    check_damages(&rt, &printed_bytes(rt.alloc())?, &damages)
}

#[test]
fn a_heading_of_other_records_is_told(rt: HostRuntime) -> Result<(), Fail> {
    let damages = [
        // a clock-face image whose first series is a sailing
        case(2, 2, 2, 80, 3, 0),
        // a quay too few, a quay too many
        case(4, 3, 2, 66, 3, 0),
        case(4, 5, 2, 82, 2, 4),
        // a sailing too few, a sailing too many
        case(6, 5, 5, 160, 4, 0),
        case(6, 7, 1, 176, 3, 6),
        case(6, 3072, 1, 176, 3, 6),
    ];
    check_damages(&rt, &printed_bytes(rt.alloc())?, &damages)
}

#[test]
fn a_damaged_quay_is_told(rt: HostRuntime) -> Result<(), Fail> {
    let damages = [
        case(16, 0, 2, 16, 2, 0),
        case(32, 15, 2, 32, 2, 1),
        case(34, 4, 2, 34, 2, 1),
        case(36, 1440, 3, 36, 2, 1),
        case(68, 65535, 3, 68, 2, 3),
        case(38, 0x411f, 3, 38, 2, 1),
        case(38, 0x417f, 3, 38, 2, 1),
        case(46, 0x1f41, 3, 47, 2, 1),
        case(46, 0xff41, 3, 47, 2, 1),
        case(70, 0, 3, 70, 2, 3),
    ];
    check_damages(&rt, &printed_bytes(rt.alloc())?, &damages)
}

#[test]
fn a_damaged_sailing_is_told(rt: HostRuntime) -> Result<(), Fail> {
    let damages = [
        case(80, 18, 2, 80, 3, 0),
        case(112, 18, 2, 112, 3, 2),
        case(114, 5, 2, 114, 3, 2),
        case(114, 3, 2, 114, 3, 2),
        case(120, 4, 3, 120, 3, 2),
        case(120, 65535, 3, 120, 3, 2),
        // from falls
        case(136, 0, 4, 136, 3, 3),
        case(168, 0, 4, 168, 3, 5),
        case(122, 4, 3, 122, 3, 2),
        // equal quays
        case(122, 1, 3, 122, 3, 2),
        case(120, 2, 3, 122, 3, 2),
        case(124, 1440, 3, 124, 3, 2),
        case(126, 1440, 3, 126, 3, 2),
        case(174, 65535, 3, 174, 3, 5),
    ];
    check_damages(&rt, &printed_bytes(rt.alloc())?, &damages)
}

#[test]
fn a_damaged_series_is_told(rt: HostRuntime) -> Result<(), Fail> {
    let damages = [
        case(80, 14, 2, 80, 3, 0),
        case(82, 4, 2, 82, 3, 0),
        case(88, 4, 3, 88, 3, 0),
        case(90, 4, 3, 90, 3, 0),
        case(90, 0, 3, 90, 3, 0),
        case(148, 1, 4, 148, 3, 3),
        case(92, 1440, 3, 92, 3, 0),
        case(94, 0, 3, 94, 3, 0),
        case(94, 1440, 3, 94, 3, 0),
        case(96, 0, 3, 96, 3, 0),
        case(96, 1441, 3, 96, 3, 0),
        case(98, 1440, 3, 98, 3, 0),
    ];
    check_damages(&rt, &clock_face_bytes(rt.alloc())?, &damages)
}

#[test]
fn a_series_that_does_not_fit_is_told(rt: HostRuntime) -> Result<(), Fail> {
    let damages = [
        // past the day: by the first departure, the period and the count
        case(112, 1401, 6, 116, 3, 1),
        case(114, 40, 6, 116, 3, 1),
        case(116, 3, 6, 116, 3, 1),
        case(94, 1439, 6, 96, 3, 0),
        case(96, 1440, 6, 96, 3, 0),
        // past the last run
        case(124, 65534, 6, 136, 3, 2),
        case(136, 4, 6, 136, 3, 2),
    ];
    check_damages(&rt, &clock_face_bytes(rt.alloc())?, &damages)
}

#[test]
fn the_earlier_byte_decides(rt: HostRuntime) -> Result<(), Fail> {
    let mut bytes = clock_face_bytes(rt.alloc())?;
    // wrong from its last field to its first
    let steps = [
        case(98, 1440, 3, 98, 3, 0),
        case(96, 1440, 6, 96, 3, 0),
        case(96, 1441, 3, 96, 3, 0),
        case(94, 0, 3, 94, 3, 0),
        case(92, 1440, 3, 92, 3, 0),
        case(90, 9, 3, 90, 3, 0),
        case(88, 9, 3, 88, 3, 0),
        case(82, 4, 2, 82, 3, 0),
        case(80, 14, 2, 80, 3, 0),
    ];
    for d in steps {
        set_number(&mut bytes, d.at, d.value);
        assert_eq!(rt; judge_image(bytes.as_slice()), Err(d.told), "{}", d.at);
    }
    // a record that is cut off has no length
    bytes.truncate(99);
    assert_eq!(rt; judge_image(bytes.as_slice()), Err(Told::new(1, 80, 3, 0)));
    Ok(())
}

#[test]
fn a_cut_is_told_at_the_record(rt: HostRuntime) -> Result<(), Fail> {
    let mut bytes = printed_bytes(rt.alloc())?;
    let cuts = [
        case(175, 0, 1, 160, 3, 5),
        case(161, 0, 1, 160, 3, 5),
        case(160, 0, 1, 160, 3, 5),
        case(159, 0, 1, 144, 3, 4),
        case(80, 0, 1, 80, 3, 0),
        case(79, 0, 1, 64, 2, 3),
        case(16, 0, 1, 16, 2, 0),
        case(15, 0, 1, 0, 1, 0),
        case(3, 0, 1, 0, 1, 0),
        case(0, 0, 1, 0, 1, 0),
    ];
    for cut in cuts {
        bytes.truncate(cut.at);
        assert_eq!(rt; judge_image(bytes.as_slice()), Err(cut.told), "{}", cut.at);
    }
    Ok(())
}

#[test]
fn a_sound_image_is_of_one_kind(rt: HostRuntime) -> Result<(), Fail> {
    let printed = printed_bytes(rt.alloc())?;
    let clock_face = clock_face_bytes(rt.alloc())?;
    assert_eq!(rt; judge_image(printed.as_slice()), Ok(Form::Printed));
    assert_eq!(rt; judge_image(clock_face.as_slice()), Ok(Form::ClockFace));
    assert_eq!(rt; judge_as(printed.as_slice(), Form::Printed), Ok(()));
    assert_eq!(rt; judge_as(clock_face.as_slice(), Form::ClockFace), Ok(()));
    let other = Told::new(2, 2, 1, 0);
    assert_eq!(rt; judge_as(clock_face.as_slice(), Form::Printed), Err(other));
    assert_eq!(rt; judge_as(printed.as_slice(), Form::ClockFace), Err(other));
    Ok(())
}
