//! A book of more quays than can be shut at one time.
ghost use Rattle.board_tests.specs.Forty.{forty, forty_lawful};

use timetable::book::Book;
use timetable::refusal::Refusal;
use timetable::sailing::Sailing;
use timetable::span::Span;

// Forty quays without change times, and no sailings.
#[derive(Drop)]
pub struct FortyQuays {}

const QUAYS: u16 = 40;

impl Book for FortyQuays {
    ghost meaning = { λ _. forty };

    ghost lawful = { λ _. forty_lawful };

    fn quays(&self) -> u16 {
        QUAYS
    }

    fn places(&self) -> u16 {
        0
    }

    fn change(&self, quay: u16) -> Result<u16, Refusal> {
        if quay < QUAYS {
            Ok(0)
        } else {
            Err(Refusal::NoQuay)
        }
    }

    fn place(&self, _place: u16) -> Result<Option<Sailing>, Refusal> {
        Err(Refusal::NoPlace)
    }

    fn span(&self, quay: u16) -> Result<Span, Refusal> {
        if quay < QUAYS {
            Ok(Span { start: 0, end: 0 })
        } else {
            Err(Refusal::NoQuay)
        }
    }
}
