use crate::forty::FortyQuays;
use board::board::Board;
use board::calls::Answer;
use board::replay::{apply, replay, replay_into};
use cases::book::worked_sailings;
use queue::table::Table;
use routing::found::Found;
use routing::label::Label;
use routing::room::Room;
use routing_tests::quays::FourQuays;
use std::test::Fail;
use timetable::book::Book;
use timetable::call::Call;
use timetable::query::{Leg, Query};
use timetable::refusal::Refusal;
use timetable::sailing::Sailing;

const NO_LEG: Leg = Leg {
    place: 99,
    leaves: 0,
    arrives: 0,
};

const ACCEPTED: Answer = Answer::Notice(Ok(()));

const NO_WAY: Answer = Answer::Told(Ok(None));

// A short form for the cases below. Shared by the test crates, it would be a public function with a contract and an edit, and no plainer.
fn query(from: u16, to: u16, minute: u16, class: u16) -> Query {
    Query {
        from,
        to,
        minute,
        class,
    }
}

fn route(from: u16, to: u16, minute: u16) -> Call {
    Call::Route(query(from, to, minute, 0))
}

// The answer of a journey with this arrival and so many legs.
fn arrives(arrival: u32, legs: u16) -> Answer {
    Answer::Told(Ok(Some(Found { arrival, legs })))
}

fn no_notice(refusal: Refusal) -> Answer {
    Answer::Notice(Err(refusal))
}

fn no_route(refusal: Refusal) -> Answer {
    Answer::Told(Err(refusal))
}

// The worked book over its sailings.
fn book(sailings: &[Sailing]) -> FourQuays<'_> {
    FourQuays {
        changes: (5, 30, 10, 5),
        sailings,
    }
}

// What the last of the calls is answered, on a new board over the worked book.
fn last(calls: &[Call]) -> Option<Answer> {
    let sailings = worked_sailings();
    let mut board = Board::new(book(&sailings));
    let mut line = Table::new(6);
    let mut labels = [Label::blank(); 6];
    let mut legs = [NO_LEG; 6];
    let mut room = Room {
        line: &mut line,
        labels: &mut labels,
        legs: &mut legs,
    };
    calls
        .iter()
        .map(|call| apply(&mut board, &mut room, *call))
        .last()
}

#[test]
fn notices_change_routes(rt: HostRuntime) {
    let (withhold, release) = (Call::Withhold(7), Call::Release(7));
    let (shut, open) = (Call::Shut(1), Call::Open(1));
    let asked = route(0, 2, 470);
    assert_eq!(rt; last(&[asked]), Some(arrives(540, 2)));
    assert_eq!(rt; last(&[withhold, asked]), Some(arrives(1970, 2)));
    assert_eq!(rt; last(&[withhold, release, asked]), Some(arrives(540, 2)));
    assert_eq!(rt; last(&[shut, asked]), Some(NO_WAY));
    assert_eq!(rt; last(&[shut, route(1, 1, 470)]), Some(arrives(470, 0)));
    assert_eq!(rt;
        last(&[withhold, shut, open, asked]),
        Some(arrives(1970, 2))
    );
    assert_eq!(rt; last(&[shut, open, asked]), Some(arrives(540, 2)));
}

// Place 4 is marked since place 3 is better. Without place 3 it is wanted again.
#[test]
fn marks_end_with_a_notice(rt: HostRuntime) {
    let asked = route(1, 2, 506);
    let without = Call::Withhold(8);
    assert_eq!(rt; last(&[Call::Thin]), Some(Answer::Count(1)));
    assert_eq!(rt; last(&[Call::Thin, Call::Thin]), Some(Answer::Count(1)));
    assert_eq!(rt; last(&[without, Call::Thin]), Some(Answer::Count(0)));
    assert_eq!(rt; last(&[Call::Thin, asked]), Some(arrives(530, 1)));
    assert_eq!(rt;
        last(&[Call::Thin, route(0, 2, 470)]),
        Some(arrives(540, 2))
    );
    assert_eq!(rt; last(&[Call::Thin, without, asked]), Some(arrives(540, 1)));
    assert_eq!(rt; last(&[without, asked]), Some(arrives(540, 1)));
}

#[test]
fn refused_notices(rt: HostRuntime) {
    let (withhold, shut) = (Call::Withhold(7), Call::Shut(1));
    let refused = |calls: &[Call], refusal| last(calls) == Some(no_notice(refusal));
    assert!(rt; refused(&[withhold, withhold], Refusal::RunWithheld));
    assert!(rt; refused(&[Call::Release(7)], Refusal::RunNotWithheld));
    assert!(rt; refused(&[shut, shut], Refusal::QuayShut));
    assert!(rt; refused(&[Call::Open(1)], Refusal::QuayNotShut));
    assert!(rt; refused(&[Call::Shut(4)], Refusal::NoQuay));
    assert!(rt; refused(&[Call::Open(4)], Refusal::NoQuay));
    assert_eq!(rt;
        last(&[withhold, withhold, Call::Release(8), route(0, 2, 470)]),
        Some(arrives(1970, 2))
    );
}

#[test]
fn refused_queries(rt: HostRuntime) {
    let refused = |from, to, minute, refusal| {
        last(&[Call::Route(query(from, to, minute, 8))]) == Some(no_route(refusal))
    };
    assert!(rt; refused(4, 2, 1440, Refusal::NoQuay));
    assert!(rt; refused(0, 4, 1440, Refusal::NoQuay));
    assert!(rt; refused(0, 2, 1440, Refusal::LateMinute));
    assert!(rt; refused(0, 2, 1439, Refusal::NoClass));
}

// The route of 0 to 2 with this much room.
fn lent(items: u16, labels: &mut [Label], legs: &mut [Leg]) -> Answer {
    let sailings = worked_sailings();
    let board = Board::new(book(&sailings));
    let mut line = Table::new(items);
    let mut room = Room {
        line: &mut line,
        labels,
        legs,
    };
    Answer::Told(board.route(&mut room, query(0, 2, 470, 0)))
}

#[test]
fn short_memory(rt: HostRuntime) {
    let mut labels = [Label::blank(); 6];
    let mut few_labels = [Label::blank(); 5];
    let mut legs = [NO_LEG; 6];
    let mut few_legs = [NO_LEG; 5];
    assert_eq!(rt;
        lent(5, &mut few_labels, &mut legs),
        no_route(Refusal::ShortBuffer)
    );
    assert_eq!(rt;
        lent(5, &mut labels, &mut few_legs),
        no_route(Refusal::ShortBuffer)
    );
    assert_eq!(rt;
        lent(5, &mut labels, &mut legs),
        no_route(Refusal::SmallLine)
    );
    assert_eq!(rt; legs[0].place, 99);
    assert_eq!(rt; lent(6, &mut labels, &mut legs), arrives(540, 2));
    assert_eq!(rt; (legs[0].place, legs[1].place, legs[2].place), (0, 2, 99));
}

// What a withhold is answered after this many others.
fn withheld_after(count: u16) -> Result<(), Refusal> {
    let sailings = worked_sailings();
    let mut board = Board::new(book(&sailings));
    for run in 0..count {
        let _ = board.withhold(run);
    }
    board.withhold(count)
}

// What a shut is answered after this many others, on forty quays.
fn shut_after(count: u16) -> Result<(), Refusal> {
    let mut board = Board::new(FortyQuays {});
    for quay in 0..count {
        let _ = board.shut(quay);
    }
    board.shut(count)
}

#[test]
fn full_tables(rt: HostRuntime) {
    assert_eq!(rt; withheld_after(63), Ok(()));
    assert_eq!(rt; withheld_after(64), Err(Refusal::RunsFull));
    assert_eq!(rt; shut_after(31), Ok(()));
    assert_eq!(rt; shut_after(32), Err(Refusal::QuaysFull));
    assert_eq!(rt; shut_after(40), Err(Refusal::NoQuay));
}

// The run at place 4 of the book in force after a thin, which marks it, if a sailing stands there.
fn run_in_force(withheld: u16) -> Option<u16> {
    let sailings = worked_sailings();
    let mut board = Board::new(book(&sailings));
    let _ = board.withhold(withheld);
    let _ = board.thin();
    board.in_force().sailing_at(4).map(|s| s.run)
}

#[test]
fn marked_sailings_stand_in_force(rt: HostRuntime) {
    assert_eq!(rt; run_in_force(5), Some(6));
    assert_eq!(rt; run_in_force(6), None);
}

// Three calls, of which the last has no room for its answer.
#[test]
fn calls_in_a_string(rt: HostRuntime) {
    let sailings = worked_sailings();
    let calls = [Call::Withhold(7), route(0, 2, 470), Call::Thin];
    let mut answers = [Answer::Count(9); 2];
    let mut line = Table::new(6);
    let mut labels = [Label::blank(); 6];
    let mut legs = [NO_LEG; 6];
    let mut room = Room {
        line: &mut line,
        labels: &mut labels,
        legs: &mut legs,
    };
    assert_eq!(rt;
        replay_into(book(&sailings), &mut room, &calls, &mut answers),
        2
    );
    assert_eq!(rt; answers[0], ACCEPTED);
    assert_eq!(rt; answers[1], arrives(1970, 2));
}

// The same calls with memory for all answers.
#[test]
fn calls_with_all_answers(rt: HostRuntime) -> Result<(), Fail> {
    let sailings = worked_sailings();
    let calls = [Call::Withhold(7), route(0, 2, 470), Call::Thin];
    let mut line = Table::new(6);
    let mut labels = [Label::blank(); 6];
    let mut legs = [NO_LEG; 6];
    let mut room = Room {
        line: &mut line,
        labels: &mut labels,
        legs: &mut legs,
    };
    let answers = replay(rt.alloc(), book(&sailings), &mut room, &calls)?;
    assert_eq!(rt;
        answers.as_slice(),
        [ACCEPTED, arrives(1970, 2), Answer::Count(1)].as_slice()
    );
    Ok(())
}
