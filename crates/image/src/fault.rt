ghost use Rattle.std.specs.Prelude.{◌≡◌};
ghost use Rattle.image.specs.Parts.{part_number};
ghost use Rattle.image.specs.Checks.{most_entries, entry_wide};

use timetable::limits::MOST_PLACES;
use timetable::refusal::Refusal;

// The two kinds of image.
#[derive(Clone, Copy, PartialEq, Debug)]
pub enum Kind {
    Printed,
    ClockFace,
}

impl Kind {
    // How many entries a book of the kind may have,
    pub(crate) fn most_entries(self) -> u16
        ensures { result ≡ most_entries self }
    {
        match self {
            Kind::Printed => MOST_PLACES,
            Kind::ClockFace => 512,
        }
    }

    // and how wide the record of each is.
    pub(crate) fn entry_wide(self) -> u16
        ensures { result ≡ entry_wide self }
    {
        match self {
            Kind::Printed => 16,
            Kind::ClockFace => 20,
        }
    }
}

// The parts of an image, in their order and with their numbers. What follows the last record is the end.
#[derive(Clone, Copy, PartialEq, Debug)]
pub enum Part {
    Heading = 1,
    Quays = 2,
    Entries = 3,
    End = 4,
}

impl Part {
    pub fn number(self) -> u8
        ensures { result ≡ part_number self }
    {
        self as u8
    }
}

// What is wrong with an image, and where: the byte, and the row of its part, each counted from 0.
#[derive(Clone, Copy, PartialEq, Debug)]
pub struct Fault {
    pub refusal: Refusal,
    pub byte: usize,
    pub part: Part,
    pub row: usize,
}

impl From<Fault> for Refusal {
    ghost from_gives = { λ f r. r ≡ f.refusal };

    fn from(fault: Fault) -> Refusal {
        fault.refusal
    }
}
