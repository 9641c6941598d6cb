//! A string of calls on a board, replayed as a whole and made one at a time.
use crate::outcome::Outcome;
use crate::plain::{Plain, Rows};
use crate::tally::Tally;
use crate::vetting::*;
use anyhow::bail;
use board::board::Board;
use board::calls::Answer;
use board::replay::{apply, replay};
use books::printed::Printed;
use queue::table::Table;
use routing::label::Label;
use routing::room::Room;
use std::alloc::{AllocError, Global};
use timetable::call::Call;
use timetable::query::Leg;

// What routes are lent.
#[derive(Drop)]
struct Lent {
    line: Table,
    labels: Vec<Label>,
    legs: Vec<Leg>,
}

impl Lent {
    fn new(heap: Global, rows: Rows) -> Result<Lent, AllocError> {
        Ok(Lent {
            line: Table::new(rows.items),
            labels: vec![in heap; Label::blank(); rows.labels]?,
            legs: vec![in heap; blank_leg(0); rows.legs]?,
        })
    }

    fn room(&mut self) -> Room<'_, Table> {
        Room {
            line: &mut self.line,
            labels: self.labels.as_mut_slice(),
            legs: self.legs.as_mut_slice(),
        }
    }
}

pub(crate) fn replay_all(
    heap: Global,
    book: Printed,
    rows: Rows,
    calls: &[Call],
) -> Result<Vec<Answer>, AllocError> {
    let mut lent = Lent::new(heap, rows)?;
    replay(heap, book, &mut lent.room(), calls)
}

// Whether call `i` left the rows of legs as its answer tells.
fn legs_are_right(plain: &Plain, call: Call, answer: Answer, legs: &[Leg], i: usize) -> bool {
    let (Call::Route(query), Answer::Told(Ok(Some(found)))) = (call, answer) else {
        return all_blank(legs, i);
    };
    legs.split_at_checked(usize::from(found.legs)).is_some_and(|(told, rest)| {
        is_journey(plain, query, told, found.arrival) && all_blank(rest, i)
    })
}

// Refuses an answer of call `i` that differs from the computed or the replayed one, or from its legs.
fn compare(
    i: usize,
    answer: Answer,
    computed: Outcome,
    replayed: Answer,
    legs_right: bool,
) -> anyhow::Result<()> {
    let told = Outcome::from(answer);
    let fault = if told != computed {
        "another answer"
    } else if replayed != answer {
        "another answer in the replay"
    } else if !legs_right {
        "wrong rows of legs"
    } else {
        return Ok(());
    };
    bail!("call {i}: told {told:?}, computed {computed:?}: {fault}")
}

// A board with what its routes are lent, beside the plain sets.
#[derive(Drop)]
pub(crate) struct Stepper<'a> {
    board: Board<Printed<'a>>,
    lent: Lent,
    plain: Plain<'a>,
}

impl<'a> Stepper<'a> {
    pub(crate) fn new(
        heap: Global,
        book: Printed<'a>,
        plain: Plain<'a>,
        rows: Rows,
    ) -> Result<Stepper<'a>, AllocError> {
        Ok(Stepper {
            board: Board::new(book),
            lent: Lent::new(heap, rows)?,
            plain,
        })
    }

    // Makes call `i` on the board and on the plain sets, and compares. Tells the answer.
    fn step(&mut self, i: usize, call: Call, replayed: Answer) -> anyhow::Result<Answer> {
        self.lent.legs.fill(blank_leg(i));
        let answer = apply(&mut self.board, &mut self.lent.room(), call);
        let computed = self.plain.answer(call)?;
        let legs_right = legs_are_right(&self.plain, call, answer, self.lent.legs.as_slice(), i);
        compare(i, answer, computed, replayed, legs_right)?;
        Ok(answer)
    }

    // Makes the calls one at a time, and compares each answer with the replayed and the computed one.
    pub(crate) fn step_through(
        &mut self,
        calls: &[Call],
        answers: &[Answer],
        tally: &mut Tally,
    ) -> anyhow::Result<()> {
        if answers.len() < calls.len() {
            bail!("call {}: no answer in the replay", answers.len());
        }
        for (i, (call, replayed)) in calls.iter().zip(answers).enumerate() {
            tally.count(self.step(i, *call, *replayed)?);
        }
        tally.count_board();
        Ok(())
    }
}
