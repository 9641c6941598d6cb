//! Strings of calls on a board.
ghost use Rattle.std.specs.Prelude.{◌≡◌, ◌≤◌, min, length, take, drop, IfOk, OnErr};
ghost use Rattle.routing.specs.Route.{lent_in, SameRoom};
ghost use Rattle.board.specs.History.{event};
ghost use Rattle.board.specs.Kept.{Carries};
ghost use Rattle.board.specs.Boards.{state_of};
ghost use Rattle.board.specs.Effects.{Does};
ghost use Rattle.board.specs.Replays.{Replayed};

use crate::board::Board;
use crate::calls::Answer;
use queue::line::Line;
use routing::room::Room;
use std::alloc::{AllocError, Global};
use timetable::book::Book;
use timetable::call::Call;

// One call on a board.
pub fn apply<B: Book, L: Line>(board: &mut Board<B>, room: &mut Room<'_, L>, call: Call) -> Answer
    ensures does { Does (state_of B.meaning board.old) call result (lent_in L.keys room.old) (lent_in L.keys room.new) (state_of B.meaning board.new) }
    ensures same { SameRoom room.old room.new }
    ensures law { Carries (state_of B.meaning board.old) (event call result (lent_in L.keys room.old) (lent_in L.keys room.new)) (state_of B.meaning board.new) }
{
    match call {
        Call::Withhold(run) => Answer::Notice(board.withhold(run)),
        Call::Release(run) => Answer::Notice(board.release(run)),
        Call::Shut(quay) => Answer::Notice(board.shut(quay)),
        Call::Open(quay) => Answer::Notice(board.open(quay)),
        Call::Thin => Answer::Count(board.thin()),
        Call::Route(query) => Answer::Told(board.route(room, query)),
    }
}

// Makes the calls in order on a new board over the opened book, as many as there are rows for their answers, and tells how many.
pub fn replay_into<B: Book + Drop, L: Line>(
    opened: B,
    room: &mut Room<'_, L>,
    calls: &[Call],
    answers: &mut [Answer],
) -> usize
    ensures count { result ≡ min (length calls.now) (length answers.old) }
    ensures law { Replayed (B.meaning opened) (take result calls.now) (take result answers.new) (lent_in L.keys room.old) (lent_in L.keys room.new) }
    ensures rest { drop result answers.new ≡ drop result answers.old }
    ensures same { SameRoom room.old room.new }
{
    let mut board = Board::new(opened);
    let count = calls.len().min(answers.len());
    // the row by its number: of rows that an adapter of `iter_mut` lends, a proof knows nothing afterwards
    for (i, call) in calls[..count].iter().enumerate() {
        answers[i] = apply(&mut board, room, *call);
    }
    count
}

// The same with all answers in memory of its own. Where there is not enough for them, no call is made.
pub fn replay<B: Book + Drop, L: Line>(
    heap: Global,
    opened: B,
    room: &mut Room<'_, L>,
    calls: &[Call],
) -> Result<Vec<Answer>, AllocError>
    ensures law { IfOk result (λ v. Replayed (B.meaning opened) calls.now v.items (lent_in L.keys room.old) (lent_in L.keys room.new)) }
    ensures same { SameRoom room.old room.new }
    ensures lack { OnErr result (lent_in L.keys room.new ≡ lent_in L.keys room.old) }
{
    let mut answers = vec![in heap; Answer::Count(0); calls.len()]?;
    replay_into(opened, room, calls, answers.as_mut_slice());
    Ok(answers)
}
