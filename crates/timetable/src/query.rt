ghost use Rattle.std.specs.Prelude.{◌≡◌};
ghost use Rattle.timetable.specs.Queries.{query_cause, unless, Judges};

use crate::limits::{LAST_CLASS, LAST_MINUTE};
use crate::refusal::Refusal;

// What is asked of a route: from where, to where, from which minute of the day, with which class of cargo.
// Each is a number as it is typed, so that one that there is not is refused in its turn and not cut off before.
#[derive(Clone, Copy, PartialEq, Debug)]
pub struct Query {
    pub from: u16,
    pub to: u16,
    pub minute: u16,
    pub class: u16,
}

// One leg of a journey: the place of its sailing, and the minutes at which it leaves and arrives, counted from the midnight before the query.
#[derive(Clone, Copy, PartialEq, Debug)]
pub struct Leg {
    pub place: u16,
    pub leaves: u32,
    pub arrives: u32,
}

impl Query {
    // Whether it can be asked of a book with this many quays. Of several faults the one with the lowest number is told.
    #[tactic(auto, using(crate::proofs::Queried::judges))]
    pub fn check(self, quays: u16) -> Result<(), Refusal>
        ensures value { result ≡ unless (query_cause self quays) tt }
        ensures lowest { Judges self quays result }
    {
        if self.from >= quays || self.to >= quays {
            return Err(Refusal::NoQuay);
        }
        if self.minute > LAST_MINUTE {
            return Err(Refusal::LateMinute);
        }
        if self.class > LAST_CLASS {
            return Err(Refusal::NoClass);
        }
        Ok(())
    }
}
