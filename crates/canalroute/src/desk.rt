//! The desk where commands are taken and answered.
use crate::answers::*;
use board::board::Board;
use board::replay::apply;
use queue::line::Line;
use queue::table::Table;
use routing::label::Label;
use routing::room::Room;
use std::io::{BufRead, BufReader};
use timetable::book::Book;
use timetable::limits::MOST_PLACES;
use timetable::query::Leg;
use typed::read::read_command;

// Answers each line before the next is read, until the input ends.
pub(crate) fn serve<B: Book + Drop>(rt: &HostRuntime, book: B) -> anyhow::Result<()> {
    let blank_leg = Leg {
        place: 0,
        leaves: 0,
        arrives: 0,
    };
    let mut labels = vec![in rt.alloc(); Label::blank(); MOST_PLACES as usize]?;
    let mut legs = vec![in rt.alloc(); blank_leg; MOST_PLACES as usize]?;
    let mut waiting = Table::new(MOST_PLACES);
    let mut room = Room {
        line: &mut waiting,
        labels: labels.as_mut_slice(),
        legs: legs.as_mut_slice(),
    };
    let mut board = Board::new(book);
    let lines = BufReader::new(rt.alloc(), rt.stdin())?.split(rt.alloc(), b'\n');
    for line in lines {
        match read_command(line?.as_slice()) {
            Ok(call) => {
                let answer = apply(&mut board, &mut room, call);
                print_answer(rt, board.in_force(), room.legs, answer)?;
            }
            Err(refusal) => print_text(rt, refusal_text(refusal))?,
        }
    }
    Ok(())
}
