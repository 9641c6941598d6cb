use cases::book::worked_sailings;
use routing_tests::quays::FourQuays;
use std::process::Abort;
use timetable::query::{Leg, Query};
use timetable::refusal::Refusal;
use timetable::sailing::Sailing;
use vet::verdict::Verdict;
use vet::vet::vet;

// A short form for the sailings below. Shared by the test crates, it would be a public function with a contract and an edit, and no plainer.
fn sailing(run: u16, leg: u16, from: u16, to: u16, dep: u16, arr: u16) -> Sailing {
    Sailing {
        run,
        leg,
        from,
        to,
        dep,
        arr,
    }
}

// A short form for the cases below. Shared by the test crates, it would be a public function with a contract and an edit, and no plainer.
fn query(from: u16, to: u16, minute: u16, class: u16) -> Query {
    Query {
        from,
        to,
        minute,
        class,
    }
}

fn leg(place: u16, leaves: u32, arrives: u32) -> Leg {
    Leg {
        place,
        leaves,
        arrives,
    }
}

// The sailings of the worked book, and one that is outside its limits, so that its place is blank.
fn worked() -> [Sailing; 7] {
    let [a, b, c, d, e, f] = worked_sailings();
    [a, b, c, d, e, f, sailing(4, 0, 0, 1, 1440, 10)]
}

type Said = Result<Verdict, Refusal>;

fn holds(arrival: u32) -> Said {
    Ok(Verdict::Holds { arrival })
}

fn fails(leg: usize, refusal: Refusal) -> Said {
    Ok(Verdict::Fails { leg, refusal })
}

// Vets each plan of n legs over these sailings, with this change time at quay 1.
fn vets<const N: usize>(
    rt: &impl Abort,
    sailings: &[Sailing],
    change: u16,
    cases: &[(Query, [Leg; N], Said)],
) {
    let book = FourQuays {
        changes: (5, change, 10, 5),
        sailings,
    };
    for (k, (query, plan, expected)) in cases.iter().enumerate() {
        assert_eq!(rt; vet(&book, *query, plan), *expected, "{}", k);
    }
}

#[test]
fn empty_plans(rt: HostRuntime) {
    vets(
        &rt,
        &worked(),
        30,
        &[
            (query(0, 2, 470, 0), [], fails(0, Refusal::EndsElsewhere)),
            (query(1, 1, 600, 0), [], holds(600)),
            (query(3, 3, 1439, 7), [], holds(1439)),
            (query(4, 0, 0, 0), [], Err(Refusal::NoQuay)),
            (query(0, 4, 1440, 8), [], Err(Refusal::NoQuay)),
            (query(65535, 65535, 0, 0), [], Err(Refusal::NoQuay)),
            (query(0, 0, 1440, 8), [], Err(Refusal::LateMinute)),
            (query(0, 0, 65535, 0), [], Err(Refusal::LateMinute)),
            (query(0, 0, 1439, 8), [], Err(Refusal::NoClass)),
            (query(0, 0, 0, 65535), [], Err(Refusal::NoClass)),
        ],
    );
}

#[test]
fn single_legs(rt: HostRuntime) {
    vets(
        &rt,
        &worked(),
        30,
        &[
            (query(0, 1, 480, 0), [leg(0, 480, 500)], holds(500)),
            (query(0, 1, 481, 0), [leg(0, 1920, 1940)], holds(1940)),
            (query(2, 3, 1400, 7), [leg(5, 1430, 1450)], holds(1450)),
            (query(2, 3, 1431, 0), [leg(5, 2870, 2890)], holds(2890)),
            // no sailing there: blank, or no such place
            (
                query(0, 1, 0, 0),
                [leg(6, 1440, 1450)],
                fails(0, Refusal::NoSailing),
            ),
            (
                query(0, 1, 0, 0),
                [leg(7, 480, 500)],
                fails(0, Refusal::NoSailing),
            ),
            (
                query(0, 1, 0, 0),
                [leg(65535, 481, 9)],
                fails(0, Refusal::NoSailing),
            ),
            // the minutes do not fit, whatever else is wrong
            (
                query(0, 1, 0, 0),
                [leg(0, 481, 501)],
                fails(0, Refusal::WrongMinutes),
            ),
            (
                query(0, 1, 0, 0),
                [leg(0, 480, 501)],
                fails(0, Refusal::WrongMinutes),
            ),
            (
                query(0, 1, 0, 0),
                [leg(0, 480, 480)],
                fails(0, Refusal::WrongMinutes),
            ),
            (
                query(0, 1, 0, 0),
                [leg(0, 0, 20)],
                fails(0, Refusal::WrongMinutes),
            ),
            (
                query(2, 3, 0, 0),
                [leg(5, 1430, 10)],
                fails(0, Refusal::WrongMinutes),
            ),
            (
                query(0, 2, 600, 0),
                [leg(2, 506, 540)],
                fails(0, Refusal::WrongMinutes),
            ),
            // another quay, whatever the minute
            (
                query(0, 2, 0, 0),
                [leg(2, 505, 540)],
                fails(0, Refusal::WrongQuay),
            ),
            (
                query(0, 2, 600, 0),
                [leg(2, 505, 540)],
                fails(0, Refusal::WrongQuay),
            ),
            // before the query's minute
            (
                query(0, 1, 481, 0),
                [leg(0, 480, 500)],
                fails(0, Refusal::TooEarly),
            ),
            (
                query(2, 3, 1431, 0),
                [leg(5, 1430, 1450)],
                fails(0, Refusal::TooEarly),
            ),
            // right, but it ends elsewhere
            (
                query(0, 2, 470, 0),
                [leg(0, 480, 500)],
                fails(1, Refusal::EndsElsewhere),
            ),
            (
                query(0, 0, 470, 0),
                [leg(0, 480, 500)],
                fails(1, Refusal::EndsElsewhere),
            ),
            // a refused query comes first
            (query(0, 4, 0, 0), [leg(9, 1, 1)], Err(Refusal::NoQuay)),
            (
                query(0, 1, 1440, 0),
                [leg(9, 1, 1)],
                Err(Refusal::LateMinute),
            ),
            (query(0, 1, 0, 8), [leg(9, 1, 1)], Err(Refusal::NoClass)),
        ],
    );
}

#[test]
fn two_legs(rt: HostRuntime) {
    let early = [leg(1, 470, 490), leg(3, 515, 530)];
    vets(
        &rt,
        &worked(),
        30,
        &[
            (query(0, 2, 470, 0), early, fails(1, Refusal::TooEarly)),
            (
                query(0, 2, 470, 0),
                [leg(1, 470, 490), leg(4, 510, 540)],
                fails(1, Refusal::TooEarly),
            ),
            (
                query(0, 2, 470, 0),
                [leg(1, 470, 490), leg(3, 1955, 1970)],
                holds(1970),
            ),
            // a barge that sails on keeps its load, whatever the class
            (
                query(0, 2, 470, 0),
                [leg(0, 480, 500), leg(2, 505, 540)],
                holds(540),
            ),
            (
                query(0, 2, 470, 7),
                [leg(0, 480, 500), leg(2, 505, 540)],
                holds(540),
            ),
            // a barge of another run does not sail on
            (
                query(0, 2, 470, 0),
                [leg(1, 470, 490), leg(2, 505, 540)],
                fails(1, Refusal::TooEarly),
            ),
            (
                query(0, 2, 470, 0),
                [leg(0, 480, 500), leg(0, 1920, 1940)],
                fails(1, Refusal::WrongQuay),
            ),
            (
                query(0, 2, 470, 0),
                [leg(0, 480, 500), leg(2, 505, 541)],
                fails(1, Refusal::WrongMinutes),
            ),
            (
                query(0, 2, 470, 0),
                [leg(0, 480, 500), leg(6, 505, 540)],
                fails(1, Refusal::NoSailing),
            ),
            // the first wrong leg, not the worst
            (
                query(0, 2, 481, 0),
                [leg(0, 480, 500), leg(9, 0, 0)],
                fails(0, Refusal::TooEarly),
            ),
            (
                query(0, 3, 470, 0),
                [leg(0, 480, 500), leg(2, 505, 540)],
                fails(2, Refusal::EndsElsewhere),
            ),
        ],
    );
    vets(
        &rt,
        &worked(),
        25,
        &[(query(0, 2, 470, 0), early, holds(530))],
    );
    vets(
        &rt,
        &worked(),
        26,
        &[(query(0, 2, 470, 0), early, fails(1, Refusal::TooEarly))],
    );
    vets(
        &rt,
        &worked(),
        20,
        &[(query(0, 2, 470, 1), early, holds(530))],
    );
    vets(
        &rt,
        &worked(),
        20,
        &[(query(0, 2, 470, 2), early, fails(1, Refusal::TooEarly))],
    );
}

// A barge that sails there, back and there again, and the same place on two days.
#[test]
fn turning_back(rt: HostRuntime) {
    let sailings = [
        sailing(1, 0, 0, 1, 100, 110),
        sailing(1, 2, 0, 1, 120, 130),
        sailing(1, 1, 1, 0, 110, 120),
    ];
    vets(
        &rt,
        &sailings,
        30,
        &[
            (
                query(0, 1, 100, 7),
                [leg(0, 100, 110), leg(2, 110, 120), leg(1, 120, 130)],
                holds(130),
            ),
            (
                query(0, 1, 100, 0),
                [leg(0, 100, 110), leg(2, 110, 120), leg(0, 1540, 1550)],
                holds(1550),
            ),
            (
                query(0, 1, 100, 0),
                [leg(0, 100, 110), leg(2, 1550, 1560), leg(1, 1560, 1570)],
                holds(1570),
            ),
            (
                query(0, 1, 100, 0),
                [leg(0, 100, 110), leg(2, 1550, 1560), leg(1, 120, 130)],
                fails(2, Refusal::TooEarly),
            ),
        ],
    );
}

// Minutes at the end of 32 bits, where a sum of 32 bits would begin again at 0.
#[test]
fn latest_minutes(rt: HostRuntime) {
    let sailings = [
        sailing(1, 0, 0, 1, 240, 255),
        sailing(1, 1, 1, 2, 40, 60),
        sailing(2, 0, 1, 2, 40, 60),
        sailing(3, 0, 0, 1, 250, 260),
    ];
    let last = leg(0, 4294967280, 4294967295);
    vets(
        &rt,
        &sailings,
        30,
        &[
            (query(0, 1, 0, 0), [last], holds(4294967295)),
            (
                query(0, 1, 0, 0),
                [leg(3, 4294967290, 4)],
                fails(0, Refusal::WrongMinutes),
            ),
            (
                query(0, 1, 0, 0),
                [leg(3, 4294967290, 4294967295)],
                fails(0, Refusal::WrongMinutes),
            ),
            (
                query(0, 1, 0, 0),
                [leg(0, 4294967295, 4294967295)],
                fails(0, Refusal::WrongMinutes),
            ),
        ],
    );
    vets(
        &rt,
        &sailings,
        30,
        &[
            (
                query(0, 2, 0, 0),
                [last, leg(1, 40, 60)],
                fails(1, Refusal::TooEarly),
            ),
            (
                query(0, 2, 0, 0),
                [last, leg(2, 40, 60)],
                fails(1, Refusal::TooEarly),
            ),
        ],
    );
}
