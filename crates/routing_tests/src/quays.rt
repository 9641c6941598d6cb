//! A book of four quays over lent sailings.
ghost use Rattle.std.specs.Prelude.{◌≡◌};
ghost use Rattle.routing_tests.specs.Books.{content_of, meant};
ghost use Rattle.routing_tests.specs.Fair.{meant_lawful};

use timetable::book::Book;
use timetable::limits::{MINUTES_OF_DAY, MOST_PLACES};
use timetable::refusal::Refusal;
use timetable::sailing::Sailing;
use timetable::span::Span;

// Four quays with their change times, which count within the day. Each quay spans all places.
#[derive(Drop)]
pub struct FourQuays<'a> {
    pub changes: (u16, u16, u16, u16),
    pub sailings: &'a [Sailing],
}

// The sailing, where it is within its limits.
fn content(s: Sailing) -> Option<Sailing>
    ensures { result ≡ content_of s }
{
    if s.from >= 4 || s.to >= 4 {
        return None;
    }
    if s.to == s.from {
        return None;
    }
    if s.dep >= MINUTES_OF_DAY || s.arr >= MINUTES_OF_DAY {
        return None;
    }
    Some(s)
}

impl Book for FourQuays<'_> {
    ghost meaning = { λ b. meant b.changes b.sailings.now };

    ghost lawful = { λ b. meant_lawful b.changes b.sailings.now };

    fn quays(&self) -> u16 {
        4
    }

    fn places(&self) -> u16 {
        self.sailings.len().min(MOST_PLACES as usize) as u16
    }

    fn change(&self, quay: u16) -> Result<u16, Refusal> {
        match quay {
            0 => Ok(self.changes.0 % MINUTES_OF_DAY),
            1 => Ok(self.changes.1 % MINUTES_OF_DAY),
            2 => Ok(self.changes.2 % MINUTES_OF_DAY),
            3 => Ok(self.changes.3 % MINUTES_OF_DAY),
            _ => Err(Refusal::NoQuay),
        }
    }

    fn place(&self, place: u16) -> Result<Option<Sailing>, Refusal> {
        if place >= self.places() {
            return Err(Refusal::NoPlace);
        }
        Ok(content(self.sailings[place as usize]))
    }

    fn span(&self, quay: u16) -> Result<Span, Refusal> {
        if quay >= 4 {
            return Err(Refusal::NoQuay);
        }
        Ok(Span {
            start: 0,
            end: self.places(),
        })
    }
}
