//! Replays strings of calls, drawn by lot, on boards over drawn books, and compares every answer with a second computation.
#![tactic(auto)]

mod asking;
mod draft;
mod force;
mod lots;
mod outcome;
mod plain;
mod plan;
mod stepping;
mod tally;
mod times;
mod vetting;

use crate::asking::draw_calls;
use crate::draft::*;
use crate::lots::Lots;
use crate::plain::Plain;
use crate::plan::*;
use crate::stepping::*;
use crate::tally::Tally;
use anyhow::anyhow;
use books::printed::Printed;
use std::alloc::Global;
use std::process::ExitCode;

const SEED: u64 = 1872;

// Draws a book and calls on it, replays them, and makes them again one at a time.
fn drill_board(
    heap: Global,
    lots: &mut Lots,
    number: u16,
    tally: &mut Tally,
) -> anyhow::Result<()> {
    let scale = scale_for(lots, number);
    let draft = draw_book(heap, lots, scale)?;
    let image = bind_book(heap, &draft)?;
    let book = Printed::open(image.as_slice());
    let calls = draw_calls(heap, lots, scale, mix_for(number), CALLS)?;
    let rows = rows_for(number, usize::from(scale.sailings));
    let answers = replay_all(heap, book, rows, calls.as_slice())?;
    let plain = Plain::new(heap, &draft, rows);
    let mut stepper = Stepper::new(heap, book, plain, rows)?;
    stepper.step_through(calls.as_slice(), answers.as_slice(), tally)
}

fn run(rt: &HostRuntime) -> anyhow::Result<()> {
    let mut lots = Lots::new(SEED);
    let mut tally = Tally::new();
    for number in 0..BOARDS {
        drill_board(rt.alloc(), &mut lots, number, &mut tally).map_err(|error| anyhow!(
            "board {number}, {error}"
        ))?;
    }
    tally.print(rt)?;
    Ok(())
}

// Each program has a main of its own, since what it tells of an error begins with its name.
fn main(rt: HostRuntime) -> ExitCode {
    match run(&rt) {
        Ok(()) => ExitCode::SUCCESS,
        Err(error) => {
            // where this cannot be written either, the status alone tells
            let _ = println!(rt; "{error}");
            ExitCode::FAILURE
        }
    }
}
