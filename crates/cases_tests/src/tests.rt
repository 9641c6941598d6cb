use board::board::Board;
use cases::book::{worked_changes, worked_sailings};
use cases::case::Case;
use cases::marks::worked_marks;
use cases::table::worked_cases;
use queue::table::Table;
use routing::found::Found;
use routing::label::Label;
use routing::room::Room;
use routing_tests::quays::FourQuays;
use tables::marks::Marks;
use thinning::thin::thin;
use timetable::query::Leg;
use timetable::refusal::Refusal;

const NO_LEG: Leg = Leg {
    place: 99,
    leaves: 0,
    arrives: 0,
};

// What a board tells of a case, over a book that is thinned first or not.
fn told(case: Case, thinned: bool) -> Result<Option<Found>, Refusal> {
    let sailings = worked_sailings();
    let [a, b, c, d] = worked_changes(case.change);
    let mut board = Board::new(FourQuays {
        changes: (a, b, c, d),
        sailings: &sailings,
    });
    if let Some(quay) = case.shut {
        board.shut(quay)?;
    }
    if thinned {
        let _ = board.thin();
    }
    let mut line = Table::new(6);
    let mut labels = [Label::blank(); 6];
    let mut legs = [NO_LEG; 6];
    let mut room = Room {
        line: &mut line,
        labels: &mut labels,
        legs: &mut legs,
    };
    board.route(&mut room, case.query)
}

// The arrival of a case, with as many legs as its plan has.
fn expected(case: Case) -> Option<Found> {
    let legs = u16::try_from(case.plan.len()).ok()?;
    case.arrival.map(|arrival| Found { arrival, legs })
}

#[test]
fn routes_tell_the_worked_answers(rt: HostRuntime) {
    for case in worked_cases() {
        // where nothing arrives, no leg is told and none is planned
        assert!(rt; case.arrival.is_some() || case.plan.is_empty());
        assert_eq!(rt; told(case, false), Ok(expected(case)));
        assert_eq!(rt; told(case, true), Ok(expected(case)));
    }
}

#[test]
fn a_thin_sets_the_worked_marks(rt: HostRuntime) {
    let sailings = worked_sailings();
    let [a, b, c, d] = worked_changes(30);
    let book = FourQuays {
        changes: (a, b, c, d),
        sailings: &sailings,
    };
    let mut marks = Marks::new();
    assert_eq!(rt; thin(&book, &mut marks), 1);
    for (place, marked) in (0..).zip(worked_marks()) {
        assert_eq!(rt; marks.holds(place), marked);
    }
}
