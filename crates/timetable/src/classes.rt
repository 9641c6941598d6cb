//! The minutes that a class of cargo adds to each change.
ghost use Rattle.std.specs.Prelude.{◌≡◌};
ghost use Rattle.timetable.specs.Classes.{minutes_for};

use crate::refusal::Refusal;

static MINUTES: [u16; 8] = [0, 5, 10, 15, 20, 25, 30, 45];

pub fn class_minutes(class: u16) -> Result<u16, Refusal>
    ensures { result ≡ minutes_for class }
{
    MINUTES.get(class as usize).copied().ok_or(Refusal::NoClass)
}
