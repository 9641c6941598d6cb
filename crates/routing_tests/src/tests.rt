use crate::quays::FourQuays;
use cases::book::worked_sailings;
use queue::line::Line;
use queue::table::Table;
use routing::found::Found;
use routing::label::Label;
use routing::room::Room;
use routing::route::route;
use timetable::query::{Leg, Query};
use timetable::refusal::Refusal;
use timetable::sailing::Sailing;

// A short form for the sailings below. Shared by the test crates, it would be a public function with a contract and an edit, and no plainer.
fn sailing(run: u16, leg: u16, from: u16, to: u16, dep: u16, arr: u16) -> Sailing {
    Sailing {
        run,
        leg,
        from,
        to,
        dep,
        arr,
    }
}

// A short form for the cases below. Shared by the test crates, it would be a public function with a contract and an edit, and no plainer.
fn query(from: u16, to: u16, minute: u16, class: u16) -> Query {
    Query {
        from,
        to,
        minute,
        class,
    }
}

const NO_LEG: Leg = Leg {
    place: 99,
    leaves: 0,
    arrives: 0,
};

// What a route tells, with a refusal by its number.
type Told = Result<Option<Found>, u8>;

fn told(answer: Result<Option<Found>, Refusal>) -> Told {
    answer.map_err(|refusal| refusal.number())
}

fn journey(arrival: u32, legs: u16) -> Told {
    Ok(Some(Found { arrival, legs }))
}

// The route through the worked book, with this change time at quay 1.
fn routed(change: u16, asked: Query) -> Told {
    let sailings = worked_sailings();
    let book = FourQuays {
        changes: (5, change, 10, 5),
        sailings: &sailings,
    };
    let mut line = Table::new(6);
    let mut labels = [Label::blank(); 6];
    let mut legs = [NO_LEG; 6];
    let mut room = Room {
        line: &mut line,
        labels: &mut labels,
        legs: &mut legs,
    };
    told(route(&book, &mut room, asked))
}

// The route with this many items in the line, and short buffers.
fn lent(items: u16, labels: &mut [Label], legs: &mut [Leg], asked: Query) -> Told {
    let sailings = worked_sailings();
    let book = FourQuays {
        changes: (5, 30, 10, 5),
        sailings: &sailings,
    };
    let mut line = Table::new(items);
    let mut room = Room {
        line: &mut line,
        labels,
        legs,
    };
    told(route(&book, &mut room, asked))
}

#[test]
fn worked_book(rt: HostRuntime) {
    assert_eq!(rt; routed(30, query(0, 2, 470, 0)), journey(540, 2));
    assert_eq!(rt; routed(30, query(0, 2, 481, 0)), journey(1980, 2));
    assert_eq!(rt; routed(30, query(0, 3, 470, 0)), journey(1450, 3));
    assert_eq!(rt; routed(30, query(2, 2, 600, 0)), journey(600, 0));
    assert_eq!(rt; routed(30, query(3, 0, 0, 0)), Ok(None));
}

#[test]
fn change_times(rt: HostRuntime) {
    assert_eq!(rt; routed(25, query(0, 2, 470, 0)), journey(530, 2));
    assert_eq!(rt; routed(26, query(0, 2, 470, 0)), journey(540, 2));
    assert_eq!(rt; routed(25, query(0, 2, 470, 1)), journey(540, 2));
}

#[test]
fn refusals(rt: HostRuntime) {
    assert_eq!(rt; routed(30, query(4, 2, 470, 0)), Err(11));
    assert_eq!(rt; routed(30, query(0, 4, 1440, 8)), Err(11));
    assert_eq!(rt; routed(30, query(0, 2, 1440, 8)), Err(12));
    assert_eq!(rt; routed(30, query(0, 2, 1439, 8)), Err(14));
}

#[test]
fn short_memory(rt: HostRuntime) {
    let asked = query(0, 2, 470, 0);
    let mut labels = [Label::blank(); 6];
    let mut few_labels = [Label::blank(); 5];
    let mut legs = [NO_LEG; 6];
    let mut few_legs = [NO_LEG; 5];
    assert_eq!(rt; lent(5, &mut few_labels, &mut legs, asked), Err(21));
    assert_eq!(rt; lent(5, &mut labels, &mut few_legs, asked), Err(21));
    assert_eq!(rt; lent(5, &mut labels, &mut legs, asked), Err(22));
    assert_eq!(rt; lent(6, &mut labels, &mut legs, asked), journey(540, 2));
}

#[test]
fn legs_are_written(rt: HostRuntime) {
    let mut labels = [Label::blank(); 6];
    let mut legs = [NO_LEG; 6];
    assert_eq!(rt;
        lent(6, &mut labels, &mut legs, query(0, 2, 470, 0)),
        journey(540, 2)
    );
    assert_eq!(rt;
        legs[0],
        Leg {
            place: 0,
            leaves: 480,
            arrives: 500
        }
    );
    assert_eq!(rt;
        legs[1],
        Leg {
            place: 2,
            leaves: 505,
            arrives: 540
        }
    );
    assert_eq!(rt; legs[2].place, 99);
}

// Items that wait from before, and labels of another route, change nothing.
#[test]
fn line_not_empty(rt: HostRuntime) {
    let sailings = worked_sailings();
    let book = FourQuays {
        changes: (5, 30, 10, 5),
        sailings: &sailings,
    };
    let mut line = Table::new(9);
    let mut labels = [Label::blank(); 6];
    let mut legs = [NO_LEG; 6];
    let _ = line.set(3, 1);
    let _ = line.set(8, 0);
    let mut room = Room {
        line: &mut line,
        labels: &mut labels,
        legs: &mut legs,
    };
    assert_eq!(rt;
        told(route(&book, &mut room, query(0, 2, 470, 0))),
        journey(540, 2)
    );
    assert_eq!(rt;
        told(route(&book, &mut room, query(0, 3, 470, 0))),
        journey(1450, 3)
    );
}

fn arrival(found: Option<Found>) -> Option<u32> {
    found.map(|found| found.arrival)
}

// At quay 1 a change takes ten hours, so it is best to go on to quay 3 and back, and stay aboard at quay 1.
#[test]
fn turn_back(rt: HostRuntime) {
    let sailings = [
        sailing(1, 0, 0, 1, 480, 500),
        sailing(1, 1, 1, 3, 505, 520),
        sailing(2, 1, 1, 2, 545, 560),
        sailing(2, 0, 3, 1, 530, 540),
    ];
    let book = FourQuays {
        changes: (5, 600, 10, 5),
        sailings: &sailings,
    };
    let mut line = Table::new(4);
    let mut labels = [Label::blank(); 4];
    let mut legs = [NO_LEG; 4];
    let mut room = Room {
        line: &mut line,
        labels: &mut labels,
        legs: &mut legs,
    };
    assert_eq!(rt;
        told(route(&book, &mut room, query(0, 2, 470, 0))),
        journey(560, 4)
    );
    assert_eq!(rt;
        told(route(&book, &mut room, query(0, 2, 470, 2))).map(arrival),
        Ok(Some(2000))
    );
}
