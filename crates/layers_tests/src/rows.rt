//! A book over lent rows, for tests.
ghost use Rattle.std.specs.Prelude.{◌≡◌, true};
ghost use Rattle.layers_tests.specs.Written.{written, short, right, all_right, fair};
ghost use Rattle.layers_tests.specs.Fair.{fair_lawful};

use timetable::book::Book;
use timetable::limits::{MINUTES_OF_DAY, MOST_PLACES, MOST_QUAYS};
use timetable::refusal::Refusal;
use timetable::sailing::Sailing;
use timetable::span::Span;

#[derive(Drop)]
pub(crate) struct Rows<'a> {
    changes: &'a [u16],
    places: &'a [Option<Sailing>],
    ghost sound: { fair changes.now places.now ≡ true },
}

static ONE: [u16; 1] = [0];

static NONE: [Option<Sailing>; 0] = [];

impl<'a> Rows<'a> {
    // The book over these rows, or, where they are outside their limits, one of one quay and no places.
    pub(crate) fn open(changes: &'a [u16], places: &'a [Option<Sailing>]) -> Rows<'a> {
        if is_fair(changes, places) {
            return Rows { changes, places };
        }
        Rows {
            changes: &ONE,
            places: &NONE,
        }
    }
}

fn below_day(changes: &[u16]) -> bool
    ensures { result ≡ short changes.now }
{
    changes.iter().all(|c| *c < MINUTES_OF_DAY)
}

fn in_limits(s: Sailing, quays: usize) -> bool
    ensures { result ≡ right quays s }
{
    (s.from as usize) < quays
        && (s.to as usize) < quays
        && s.to != s.from
        && s.dep < MINUTES_OF_DAY
        && s.arr < MINUTES_OF_DAY
}

fn all_in_limits(places: &[Option<Sailing>], quays: usize) -> bool
    ensures { result ≡ all_right quays places.now }
{
    places.iter().all(|x| x.is_none_or(|s| in_limits(s, quays)))
}

fn is_fair(changes: &[u16], places: &[Option<Sailing>]) -> bool
    ensures { result ≡ fair changes.now places.now }
{
    !changes.is_empty()
        && changes.len() <= MOST_QUAYS as usize
        && places.len() <= MOST_PLACES as usize
        && below_day(changes)
        && all_in_limits(places, changes.len())
}

impl Book for Rows<'_> {
    ghost meaning = { λ b. written b.changes.now b.places.now };

    ghost lawful = { λ b. fair_lawful b.changes.now b.places.now b.sound };

    fn quays(&self) -> u16 {
        self.changes.len() as u16
    }

    fn places(&self) -> u16 {
        self.places.len() as u16
    }

    fn change(&self, quay: u16) -> Result<u16, Refusal> {
        self.changes
            .get(quay as usize)
            .copied()
            .ok_or(Refusal::NoQuay)
    }

    fn place(&self, place: u16) -> Result<Option<Sailing>, Refusal> {
        self.places
            .get(place as usize)
            .copied()
            .ok_or(Refusal::NoPlace)
    }

    fn span(&self, quay: u16) -> Result<Span, Refusal> {
        if quay as usize >= self.changes.len() {
            return Err(Refusal::NoQuay);
        }
        Ok(Span {
            start: 0,
            end: self.places.len() as u16,
        })
    }
}
