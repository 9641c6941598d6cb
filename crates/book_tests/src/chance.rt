//! Contents and damages drawn by lot, from a fixed seed, and judged by both readings.
use crate::judging::*;
use crate::making::*;
use crate::opening::check_opens;
use crate::reading::*;
use binder::bind::bind;
use image::quay::Quay;
use image::series::Series;
use std::alloc::{AllocError, Global};
use std::process::Abort;
use std::test::Fail;
use timetable::sailing::Sailing;

// A linear congruential generator.
#[derive(Drop)]
struct Lots {
    state: u64,
}

impl Lots {
    // A number below `n`, or 0 where there is none.
    fn below(&mut self, n: usize) -> usize {
        self.state = self
            .state
            .wrapping_mul(6364136223846793005)
            .wrapping_add(1442695040888963407);
        if n == 0 {
            return 0;
        }
        (self.state >> 33) as usize % n
    }

    fn number(&mut self, n: u16) -> u16 {
        u16::try_from(self.below(usize::from(n))).unwrap_or(0)
    }

    fn byte(&mut self) -> u8 {
        u8::try_from(self.below(256)).unwrap_or(0)
    }

    // As in the drill, by another generator: what each draws is stored with its own tests.
    // Mostly a number below `n`, now and then one up to a few above.
    fn stray(&mut self, n: u16) -> u16 {
        if self.below(24) == 0 {
            n.saturating_add(self.number(3))
        } else {
            self.number(n)
        }
    }

    fn letter(&mut self) -> u8 {
        if self.below(200) == 0 {
            self.byte()
        } else {
            u8::try_from(self.below(95).saturating_add(32)).unwrap_or(32)
        }
    }

    fn quay(&mut self) -> Quay {
        let mut name = [32u8; 10];
        for letter in name.iter_mut() {
            *letter = self.letter();
        }
        Quay {
            change: self.stray(1440),
            name,
        }
    }

    fn quays(&mut self, heap: Global) -> Result<Vec<Quay>, AllocError> {
        let mut quays = Vec::new(heap);
        // a draw can run out of memory and moves the lots, so a chain over both is no plainer, here and below
        for _ in 0..self.below(4).saturating_add(2) {
            quays.push(self.quay())?;
        }
        Ok(quays)
    }

    // Another quay than `from`, but now and then any.
    fn goal(&mut self, from: u16, quays: u16) -> u16 {
        let to = self.stray(quays);
        if to == from && self.below(8) != 0 {
            if from == 0 { 1 } else { 0 }
        } else {
            to
        }
    }

    // The quays that entries leave, mostly in order.
    fn starts(&mut self, heap: Global, quays: u16) -> Result<Vec<u16>, AllocError> {
        let mut starts = Vec::new(heap);
        for _ in 0..self.below(7) {
            starts.push(self.stray(quays))?;
        }
        if self.below(8) != 0 {
            starts.sort()?;
        }
        Ok(starts)
    }

    fn sailings(&mut self, heap: Global, quays: u16) -> Result<Vec<Sailing>, AllocError> {
        let mut sailings = Vec::new(heap);
        for from in self.starts(heap, quays)?.iter() {
            let to = self.goal(*from, quays);
            sailings.push(Sailing {
                run: self.number(65535),
                leg: self.number(9),
                from: *from,
                to,
                dep: self.stray(1440),
                arr: self.stray(1440),
            })?;
        }
        Ok(sailings)
    }

    fn all_series(&mut self, heap: Global, quays: u16) -> Result<Vec<Series>, AllocError> {
        let mut all = Vec::new(heap);
        for from in self.starts(heap, quays)?.iter() {
            let to = self.goal(*from, quays);
            all.push(Series {
                run: self.number(65535),
                leg: self.number(9),
                from: *from,
                to,
                first: self.stray(700),
                period: self.stray(90),
                count: self.stray(12),
                length: self.stray(1440),
            })?;
        }
        Ok(all)
    }

    // Another byte somewhere, or a cut.
    fn damage(&mut self, bytes: &mut Vec<u8>) {
        let at = self.below(bytes.len());
        if self.below(4) == 0 {
            bytes.truncate(at);
        } else {
            let value = self.byte();
            set_byte(bytes, at, value);
        }
    }
}

// Binds a content as its image is judged. Tells whether it was bound.
fn check_bound(
    rt: &impl Abort,
    heap: Global,
    quays: &[Quay],
    sailings: &[Sailing],
) -> Result<bool, Fail> {
    let image = printed_image(heap, quays, sailings)?;
    let mut buffer = vec![in heap; 170u8; 400]?;
    match bound(bind(quays, sailings, buffer.as_mut_slice())) {
        Ok(len) => {
            assert_eq!(rt; read_image(image.as_slice()), Ok(Form::Printed));
            assert_eq!(rt; buffer.get(0..len), Some(image.as_slice()));
            check_opens(rt, image.as_slice(), quays, sailings)?;
            Ok(true)
        }
        Err(told) => {
            assert_eq!(rt; read_image(image.as_slice()), Err(told));
            Ok(false)
        }
    }
}

#[test]
fn drawn_contents_are_bound_as_they_are_judged(rt: HostRuntime) -> Result<(), Fail> {
    let mut lots = Lots { state: 20_261 };
    let mut passed = 0u32;
    for round in 0..600u32 {
        let quays = lots.quays(rt.alloc())?;
        let sailings = lots.sailings(rt.alloc(), count(quays.len()))?;
        if check_bound(&rt, rt.alloc(), quays.as_slice(), sailings.as_slice())? {
            passed = passed.saturating_add(1);
        }
        let mut image = printed_image(rt.alloc(), quays.as_slice(), sailings.as_slice())?;
        lots.damage(&mut image);
        check_agreement(&rt, image.as_slice(), &round);
    }
    assert!(rt; passed > 100 && passed < 500, "{}", passed);
    Ok(())
}

#[test]
fn drawn_series_are_judged_alike(rt: HostRuntime) -> Result<(), Fail> {
    let mut lots = Lots { state: 77 };
    let mut passed = 0u32;
    for round in 0..600u32 {
        let quays = lots.quays(rt.alloc())?;
        let all = lots.all_series(rt.alloc(), count(quays.len()))?;
        let mut image = clock_face_image(rt.alloc(), quays.as_slice(), all.as_slice())?;
        check_agreement(&rt, image.as_slice(), &round);
        if judge_image(image.as_slice()).is_ok() {
            passed = passed.saturating_add(1);
        }
        lots.damage(&mut image);
        check_agreement(&rt, image.as_slice(), &round);
    }
    assert!(rt; passed > 100 && passed < 500, "{}", passed);
    Ok(())
}
