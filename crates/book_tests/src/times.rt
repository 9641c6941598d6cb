//! The minutes of sailings, the classes and the refusals' numbers.
use crate::judging::numbered;
use timetable::classes::class_minutes;
use timetable::refusal::Refusal;
use timetable::sailing::Sailing;

const DAY: u64 = 1440;

fn sailing(dep: u16, arr: u16) -> Sailing {
    Sailing {
        run: 7,
        leg: 2,
        from: 0,
        to: 1,
        dep,
        arr,
    }
}

// The first departure not before `minute`, by a walk from day to day.
fn walked(dep: u16, minute: u32) -> u64 {
    let mut leaves = u64::from(dep);
    for _ in 0..3_000_000u32 {
        if leaves >= u64::from(minute) {
            return leaves;
        }
        leaves = leaves.saturating_add(DAY);
    }
    0
}

// The minutes from `dep` to `arr`, by a walk from minute to minute round the day.
fn sailed(dep: u16, arr: u16) -> u32 {
    let mut minute = dep;
    for aboard in 0..1440u32 {
        if minute == arr {
            return aboard;
        }
        minute = if minute >= 1439 {
            0
        } else {
            minute.saturating_add(1)
        };
    }
    1440
}

#[test]
fn lengths_are_walked(rt: HostRuntime) {
    for dep in [0u16, 1, 2, 479, 480, 719, 720, 721, 1438, 1439] {
        for arr in 0..1440u16 {
            assert_eq!(rt; sailing(dep, arr).length(), sailed(dep, arr), "{dep} {arr}");
        }
    }
}

#[test]
fn departures_are_walked(rt: HostRuntime) {
    for dep in [0u16, 1, 480, 1438, 1439] {
        for minute in [
            0u32, 1, 479, 480, 481, 1438, 1439, 1440, 1441, 1919, 1920, 1921, 2878, 2879, 2880,
            2881, 65535, 65536,
        ] {
            assert_eq!(rt;
                sailing(dep, 9).next_departure(minute),
                walked(dep, minute),
                "{dep} {minute}"
            );
        }
    }
}

#[test]
fn the_last_minute_of_32_bits_is_answered(rt: HostRuntime) {
    for dep in [0u16, 1, 254, 255, 256, 1439] {
        assert_eq!(rt;
            sailing(dep, 9).next_departure(u32::MAX),
            walked(dep, u32::MAX),
            "{}",
            dep
        );
    }
    // that minute is 255 of its day
    assert_eq!(rt;
        sailing(255, 9).next_departure(u32::MAX),
        u64::from(u32::MAX)
    );
    assert_eq!(rt; sailing(254, 9).next_departure(u32::MAX), 4_294_968_734);
}

#[test]
fn every_minute_of_two_days_is_answered(rt: HostRuntime) {
    for dep in [0u16, 700, 1439] {
        for minute in 0..2882u32 {
            assert_eq!(rt;
                sailing(dep, 9).next_departure(minute),
                walked(dep, minute),
                "{dep} {minute}"
            );
        }
    }
}

#[test]
fn a_barge_sails_on_in_its_run(rt: HostRuntime) {
    let before = Sailing {
        run: 7,
        leg: 2,
        from: 0,
        to: 1,
        dep: 480,
        arr: 500,
    };
    let on = Sailing {
        run: 7,
        leg: 3,
        from: 1,
        to: 2,
        dep: 505,
        arr: 540,
    };
    assert!(rt; on.continues(before));
    assert!(rt; !before.continues(on));
    assert!(rt; !on.continues(on));
    assert!(rt; !Sailing { run: 8, ..on }.continues(before));
    assert!(rt; !Sailing { leg: 2, ..on }.continues(before));
    assert!(rt; !Sailing { leg: 4, ..on }.continues(before));
    assert!(rt; !Sailing { from: 0, ..on }.continues(before));
}

#[test]
fn no_leg_follows_the_last(rt: HostRuntime) {
    let last = Sailing {
        run: 7,
        leg: 65535,
        from: 0,
        to: 1,
        dep: 480,
        arr: 500,
    };
    let on = Sailing {
        run: 7,
        leg: 0,
        from: 1,
        to: 2,
        dep: 505,
        arr: 540,
    };
    assert!(rt; !on.continues(last));
    assert!(rt; Sailing { leg: 65535, ..on }.continues(Sailing { leg: 65534, ..last }));
    // the minutes do not matter
    assert!(rt;
        Sailing {
            leg: 9,
            dep: 0,
            arr: 0,
            ..on
        }
        .continues(Sailing { leg: 8, ..last })
    );
}

#[test]
fn classes_have_their_minutes(rt: HostRuntime) {
    for (class, minutes) in [
        (0u16, 0u16),
        (1, 5),
        (2, 10),
        (3, 15),
        (4, 20),
        (5, 25),
        (6, 30),
        (7, 45),
    ] {
        assert_eq!(rt; numbered(class_minutes(class)), Ok(minutes), "{}", class);
    }
    for class in [8u16, 9, 255, 256, 263, 32768, 65535] {
        assert_eq!(rt; numbered(class_minutes(class)), Err(14), "{}", class);
    }
}

#[test]
fn refusals_of_images_numbers_and_memory_are_numbered(rt: HostRuntime) {
    for (refusal, number) in [
        (Refusal::CutOff, 1u8),
        (Refusal::NotDue, 2),
        (Refusal::OutOfLimits, 3),
        (Refusal::FromFalls, 4),
        (Refusal::BytesFollow, 5),
        (Refusal::SeriesLeaves, 6),
        (Refusal::NoQuay, 11),
        (Refusal::LateMinute, 12),
        (Refusal::NoPlace, 13),
        (Refusal::NoClass, 14),
        (Refusal::ShortBuffer, 21),
        (Refusal::SmallLine, 22),
        (Refusal::HeapFull, 23),
        (Refusal::NoRank, 24),
        (Refusal::NoItem, 25),
    ] {
        assert_eq!(rt; refusal.number(), number, "{}", number);
    }
}

#[test]
fn refusals_of_notices_plans_and_lines_are_numbered(rt: HostRuntime) {
    for (refusal, number) in [
        (Refusal::RunWithheld, 31u8),
        (Refusal::RunNotWithheld, 32),
        (Refusal::RunsFull, 33),
        (Refusal::QuayShut, 34),
        (Refusal::QuayNotShut, 35),
        (Refusal::QuaysFull, 36),
        (Refusal::NoSailing, 41),
        (Refusal::WrongMinutes, 42),
        (Refusal::WrongQuay, 43),
        (Refusal::TooEarly, 44),
        (Refusal::EndsElsewhere, 45),
        (Refusal::NoLetter, 51),
        (Refusal::NoNumber, 52),
        (Refusal::Surplus, 53),
        (Refusal::LongLine, 54),
    ] {
        assert_eq!(rt; refusal.number(), number, "{}", number);
    }
}
