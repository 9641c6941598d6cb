//! The smallest and the largest images.
use crate::judging::*;
use crate::making::*;
use crate::reading::*;
use image::quay::Quay;
use image::series::Series;
use std::alloc::{AllocError, Global};
use std::test::Fail;
use timetable::sailing::Sailing;

// As many members as the day has minutes.
const WHOLE_DAY: Series = Series {
    run: 0,
    leg: 0,
    from: 0,
    to: 1,
    first: 0,
    period: 1,
    count: 1440,
    length: 9,
};

fn heading_fault(number: u8, byte: usize) -> Result<Form, Told> {
    Err(Told::new(number, byte, 1, 0))
}

fn judge_series(heap: Global, all: &[Series]) -> Result<Result<Form, Told>, AllocError> {
    let quays = plain_quays(heap, 2)?;
    let image = clock_face_image(heap, quays.as_slice(), all)?;
    Ok(judge_image(image.as_slice()))
}

#[test]
fn no_bytes_are_cut_off(rt: HostRuntime) {
    assert_eq!(rt; judge_image(&[]), heading_fault(1, 0));
    assert_eq!(rt; judge_as(&[], Form::Printed), Err(Told::new(1, 0, 1, 0)));
    assert_eq!(rt; judge_as(&[], Form::ClockFace), Err(Told::new(1, 0, 1, 0)));
}

#[test]
fn one_quay_is_enough(rt: HostRuntime) -> Result<(), Fail> {
    let quays = plain_quays(rt.alloc(), 1)?;
    let mut printed = printed_image(rt.alloc(), quays.as_slice(), &[])?;
    let mut clock_face = clock_face_image(rt.alloc(), quays.as_slice(), &[])?;
    assert_eq!(rt; printed.len(), 32);
    assert_eq!(rt; judge_image(printed.as_slice()), Ok(Form::Printed));
    assert_eq!(rt; judge_image(clock_face.as_slice()), Ok(Form::ClockFace));
    printed.push(0)?;
    clock_face.push(14)?;
    let follows = Told::new(5, 32, 4, 0);
    assert_eq!(rt; judge_image(printed.as_slice()), Err(follows));
    assert_eq!(rt; judge_image(clock_face.as_slice()), Err(follows));
    Ok(())
}

#[test]
fn quays_are_at_most_256(rt: HostRuntime) -> Result<(), Fail> {
    let mut quays = plain_quays(rt.alloc(), 256)?;
    assert_eq!(rt;
        judge_image(printed_image(rt.alloc(), quays.as_slice(), &[])?.as_slice()),
        Ok(Form::Printed)
    );
    assert_eq!(rt;
        judge_image(clock_face_image(rt.alloc(), quays.as_slice(), &[])?.as_slice()),
        Ok(Form::ClockFace)
    );
    quays.push(Quay {
        change: 3,
        name: *b"One more  ",
    })?;
    assert_eq!(rt;
        judge_image(printed_image(rt.alloc(), quays.as_slice(), &[])?.as_slice()),
        heading_fault(3, 4)
    );
    assert_eq!(rt;
        judge_image(clock_face_image(rt.alloc(), quays.as_slice(), &[])?.as_slice()),
        heading_fault(3, 4)
    );
    Ok(())
}

#[test]
fn sailings_are_at_most_3072(rt: HostRuntime) -> Result<(), Fail> {
    let sailing = Sailing {
        run: 65535,
        leg: 65535,
        from: 0,
        to: 1,
        dep: 1439,
        arr: 1439,
    };
    let quays = plain_quays(rt.alloc(), 2)?;
    let mut sailings = vec![in rt.alloc(); sailing; 3072]?;
    assert_eq!(rt;
        judge_image(printed_image(rt.alloc(), quays.as_slice(), sailings.as_slice())?.as_slice()),
        Ok(Form::Printed)
    );
    sailings.push(sailing)?;
    assert_eq!(rt;
        judge_image(printed_image(rt.alloc(), quays.as_slice(), sailings.as_slice())?.as_slice()),
        heading_fault(3, 6)
    );
    Ok(())
}

#[test]
fn series_are_at_most_512(rt: HostRuntime) -> Result<(), Fail> {
    // 6 members each: exactly 3,072 places
    let six = Series {
        count: 6,
        ..WHOLE_DAY
    };
    let mut all = vec![in rt.alloc(); six; 512]?;
    assert_eq!(rt;
        judge_series(rt.alloc(), all.as_slice())?,
        Ok(Form::ClockFace)
    );
    all.push(Series {
        count: 1,
        ..WHOLE_DAY
    })?;
    assert_eq!(rt;
        judge_series(rt.alloc(), all.as_slice())?,
        heading_fault(3, 6)
    );
    Ok(())
}

#[test]
fn places_are_at_most_3072(rt: HostRuntime) -> Result<(), Fail> {
    let full = [
        WHOLE_DAY,
        WHOLE_DAY,
        Series {
            count: 192,
            ..WHOLE_DAY
        },
    ];
    assert_eq!(rt; judge_series(rt.alloc(), &full)?, Ok(Form::ClockFace));
    // the third series stands at byte 88
    let over = [
        WHOLE_DAY,
        WHOLE_DAY,
        Series {
            count: 193,
            ..WHOLE_DAY
        },
    ];
    assert_eq!(rt;
        judge_series(rt.alloc(), &over)?,
        Err(Told::new(6, 104, 3, 2))
    );
    let next = [
        WHOLE_DAY,
        WHOLE_DAY,
        Series {
            count: 192,
            ..WHOLE_DAY
        },
        Series {
            count: 1,
            ..WHOLE_DAY
        },
    ];
    assert_eq!(rt;
        judge_series(rt.alloc(), &next)?,
        Err(Told::new(6, 124, 3, 3))
    );
    Ok(())
}

#[test]
fn a_series_stays_in_the_day(rt: HostRuntime) -> Result<(), Fail> {
    let leaves = Err(Told::new(6, 64, 3, 0));
    let late = Series {
        first: 1400,
        count: 2,
        ..WHOLE_DAY
    };
    for (series, judged) in [
        (Series { period: 39, ..late }, Ok(Form::ClockFace)),
        (Series { period: 40, ..late }, leaves),
        (WHOLE_DAY, Ok(Form::ClockFace)),
        (
            Series {
                first: 1,
                ..WHOLE_DAY
            },
            leaves,
        ),
        (
            Series {
                period: 1439,
                count: 2,
                ..WHOLE_DAY
            },
            Ok(Form::ClockFace),
        ),
        (
            Series {
                period: 1439,
                count: 1440,
                ..WHOLE_DAY
            },
            leaves,
        ),
    ] {
        assert_eq!(rt; judge_series(rt.alloc(), &[series])?, judged);
    }
    Ok(())
}

#[test]
fn a_series_stays_in_the_runs(rt: HostRuntime) -> Result<(), Fail> {
    let passes = Err(Told::new(6, 64, 3, 0));
    for (run, count, judged) in [
        (65535u16, 1u16, Ok(Form::ClockFace)),
        (65535, 2, passes),
        (64096, 1440, Ok(Form::ClockFace)),
        (64097, 1440, passes),
    ] {
        let series = Series {
            run,
            count,
            ..WHOLE_DAY
        };
        assert_eq!(rt; judge_series(rt.alloc(), &[series])?, judged, "{}", run);
    }
    Ok(())
}
