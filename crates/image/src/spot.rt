//! Where the records of an image begin, and the faults that are told there.
ghost use Rattle.std.specs.Prelude.{◌≡◌, ◌+◌};
ghost use Rattle.image.specs.Checks.{unless, fault};

use crate::fault::*;
use timetable::refusal::Refusal;

// A record of an image by its part and its row, and the byte where it begins.
#[derive(Clone, Copy)]
pub struct Spot {
    pub part: Part,
    pub row: u16,
    pub at: u32,
}

impl Spot {
    // Raises a fault at a field of the record that is not as it should be, so many bytes on.
    pub fn require(self, right: bool, refusal: Refusal, field: u16) -> Result<(), Fault>
        ensures { result ≡ unless right (fault refusal self.part self.row (self.at + field)) }
    {
        if right {
            Ok(())
        } else {
            Err(Fault {
                refusal,
                byte: self.at as usize + field as usize,
                part: self.part,
                row: self.row as usize,
            })
        }
    }
}
