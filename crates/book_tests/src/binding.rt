//! The binder: what it writes, what it leaves, and what it refuses.
use crate::judging::*;
use crate::making::*;
use crate::opening::check_opens;
use crate::reading::*;
use crate::worked::*;
use binder::bind::bind;
use image::quay::Quay;
use std::alloc::{AllocError, Global};
use std::process::Abort;
use std::test::Fail;
use timetable::sailing::Sailing;

const SHORT: Result<usize, Told> = Err(Told {
    number: 21,
    byte: 0,
    part: 0,
    row: 0,
});

// A buffer whose bytes are all 170.
fn buffer(heap: Global, len: usize) -> Result<Vec<u8>, AllocError> {
    Ok(vec![in heap; 170u8; len]?)
}

fn check_untouched(rt: &impl Abort, bytes: &[u8]) {
    for byte in bytes {
        assert_eq!(rt; *byte, 170);
    }
}

// The content is refused so, the buffer is left, and the check of its image says the same.
fn check_refused(
    rt: &impl Abort,
    heap: Global,
    quays: &[Quay],
    sailings: &[Sailing],
    fault: Told,
) -> Result<(), Fail> {
    let mut bytes = buffer(heap, 400)?;
    assert_eq!(rt;
        bound(bind(quays, sailings, bytes.as_mut_slice())),
        Err(fault)
    );
    check_untouched(rt, bytes.as_slice());
    assert_eq!(rt;
        judge_image(printed_image(heap, quays, sailings)?.as_slice()),
        Err(fault)
    );
    Ok(())
}

fn check_wrong_quay(
    rt: &impl Abort,
    heap: Global,
    row: usize,
    quay: Quay,
    byte: usize,
) -> Result<(), Fail> {
    let mut quays = QUAYS;
    if let Some(place) = quays.get_mut(row) {
        *place = quay;
    }
    check_refused(rt, heap, &quays, &SAILINGS, Told::new(3, byte, 2, row))
}

fn check_wrong_sailing(
    rt: &impl Abort,
    heap: Global,
    row: usize,
    sailing: Sailing,
    number: u8,
    byte: usize,
) -> Result<(), Fail> {
    let mut sailings = SAILINGS;
    if let Some(place) = sailings.get_mut(row) {
        *place = sailing;
    }
    check_refused(rt, heap, &QUAYS, &sailings, Told::new(number, byte, 3, row))
}

#[test]
fn the_worked_book_is_bound_to_the_byte(rt: HostRuntime) -> Result<(), Fail> {
    let mut bytes = buffer(rt.alloc(), 176)?;
    assert_eq!(rt;
        bound(bind(&QUAYS, &SAILINGS, bytes.as_mut_slice())),
        Ok(176)
    );
    assert_eq!(rt; bytes.as_slice(), printed_bytes(rt.alloc())?.as_slice());
    assert_eq!(rt; judge_image(bytes.as_slice()), Ok(Form::Printed));
    check_opens(&rt, bytes.as_slice(), &QUAYS, &SAILINGS)
}

#[test]
fn a_short_buffer_is_left(rt: HostRuntime) -> Result<(), Fail> {
    for len in [0usize, 1, 16, 175] {
        let mut bytes = buffer(rt.alloc(), len)?;
        assert_eq!(rt;
            bound(bind(&QUAYS, &SAILINGS, bytes.as_mut_slice())),
            SHORT,
            "{}",
            len
        );
        assert_eq!(rt; bytes.len(), len);
        check_untouched(&rt, bytes.as_slice());
    }
    Ok(())
}

#[test]
fn a_long_buffer_keeps_its_rest(rt: HostRuntime) -> Result<(), Fail> {
    let mut bytes = buffer(rt.alloc(), 300)?;
    assert_eq!(rt;
        bound(bind(&QUAYS, &SAILINGS, bytes.as_mut_slice())),
        Ok(176)
    );
    let whole = printed_bytes(rt.alloc())?;
    assert_eq!(rt; bytes.get(0..176), Some(whole.as_slice()));
    assert_eq!(rt; bytes.len(), 300);
    check_untouched(&rt, bytes.get(176..300).ok_or("the rest")?);
    Ok(())
}

#[test]
fn wrong_sizes_are_refused(rt: HostRuntime) -> Result<(), Fail> {
    let many = Told::new(3, 6, 1, 0);
    check_refused(&rt, rt.alloc(), &[], &SAILINGS, Told::new(3, 4, 1, 0))?;
    check_refused(
        &rt,
        rt.alloc(),
        plain_quays(rt.alloc(), 257)?.as_slice(),
        &[],
        Told::new(3, 4, 1, 0),
    )?;
    let wrong = Sailing {
        run: 0,
        leg: 0,
        from: 9,
        to: 9,
        dep: 9999,
        arr: 9999,
    };
    let sailings = vec![in rt.alloc(); wrong; 3073]?;
    check_refused(&rt, rt.alloc(), &QUAYS, sailings.as_slice(), many)?;
    // the size is told before a quay
    check_refused(
        &rt,
        rt.alloc(),
        &[Quay {
            change: 1440,
            name: [0; 10],
        }],
        sailings.as_slice(),
        many,
    )
}

#[test]
fn a_wrong_quay_is_refused(rt: HostRuntime) -> Result<(), Fail> {
    for (row, change, name, byte) in [
        (0usize, 1440u16, *b"Abbey     ", 20usize),
        (3, 65535, [0; 10], 68),
        (1, 1439, *b"\x1fridge End", 38),
        (2, 0, *b"Bridge En\x7f", 63),
        (3, 0, *b"Do\x00k      ", 72),
    ] {
        check_wrong_quay(&rt, rt.alloc(), row, Quay { change, name }, byte)?;
    }
    Ok(())
}

#[test]
fn a_wrong_sailing_is_refused(rt: HostRuntime) -> Result<(), Fail> {
    let s = Sailing {
        run: 65535,
        leg: 65535,
        from: 1,
        to: 2,
        dep: 1439,
        arr: 1439,
    };
    for (row, sailing, number, byte) in [
        (3usize, Sailing { from: 4, ..s }, 3u8, 136usize),
        (
            3,
            Sailing {
                from: 0,
                to: 0,
                ..s
            },
            4,
            136,
        ),
        (3, Sailing { to: 4, ..s }, 3, 138),
        (3, Sailing { to: 1, ..s }, 3, 138),
        (
            3,
            Sailing {
                dep: 1440,
                arr: 1440,
                ..s
            },
            3,
            140,
        ),
        (3, Sailing { arr: 1440, ..s }, 3, 142),
        (
            0,
            Sailing {
                from: 3,
                to: 3,
                ..s
            },
            3,
            90,
        ),
    ] {
        check_wrong_sailing(&rt, rt.alloc(), row, sailing, number, byte)?;
    }
    Ok(())
}

#[test]
fn the_buffer_is_judged_last(rt: HostRuntime) -> Result<(), Fail> {
    let quays = plain_quays(rt.alloc(), 257)?;
    assert_eq!(rt;
        bound(bind(quays.as_slice(), &[], &mut [])),
        Err(Told::new(3, 4, 1, 0))
    );
    let late = [Sailing {
        run: 0,
        leg: 0,
        from: 0,
        to: 1,
        dep: 0,
        arr: 1440,
    }];
    assert_eq!(rt;
        bound(bind(&QUAYS, &late, &mut [])),
        Err(Told::new(3, 94, 3, 0))
    );
    assert_eq!(rt; bound(bind(&QUAYS, &[], &mut [])), SHORT);
    Ok(())
}

// Quays with names that differ, every other one of ten letters.
fn large_quays(heap: Global) -> Result<Vec<Quay>, AllocError> {
    let mut quays = Vec::new(heap);
    for n in 0..=255u8 {
        let last = if n % 2 == 0 { 32 } else { 126 };
        let name = [65 + n / 16, 65 + n % 16, 32, 33, 32, 32, 32, 32, 32, last];
        quays.push(Quay {
            change: u16::from(n).saturating_mul(5),
            name,
        })?;
    }
    Ok(quays)
}

fn large_sailings(heap: Global) -> Result<Vec<Sailing>, AllocError> {
    let mut sailings = Vec::new(heap);
    for n in 0..3072u16 {
        let from = n / 12;
        let to = if from == 255 {
            0
        } else {
            from.saturating_add(1)
        };
        sailings.push(Sailing {
            run: 65535 - n,
            leg: n,
            from,
            to,
            dep: n % 1440,
            arr: n.saturating_mul(7) % 1440,
        })?;
    }
    Ok(sailings)
}

#[test]
fn the_largest_book_is_bound_and_opened(rt: HostRuntime) -> Result<(), Fail> {
    let quays = large_quays(rt.alloc())?;
    let sailings = large_sailings(rt.alloc())?;
    let mut short = buffer(rt.alloc(), 53_263)?;
    assert_eq!(rt;
        bound(bind(quays.as_slice(), sailings.as_slice(), short.as_mut_slice())),
        SHORT
    );
    check_untouched(&rt, short.as_slice());
    let mut bytes = buffer(rt.alloc(), 53_264)?;
    assert_eq!(rt;
        bound(bind(quays.as_slice(), sailings.as_slice(), bytes.as_mut_slice())),
        Ok(53_264)
    );
    check_opens(&rt, bytes.as_slice(), quays.as_slice(), sailings.as_slice())?;
    assert!(rt; bytes == printed_image(rt.alloc(), quays.as_slice(), sailings.as_slice())?);
    Ok(())
}
