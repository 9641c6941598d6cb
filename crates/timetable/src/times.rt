//! The minutes of a sailing.
ghost use Rattle.std.specs.Prelude.{◌≡◌, Decides};
ghost use Rattle.timetable.specs.Times.{length_of, Cycle, next, Next, Departures, continues, Continues};

use crate::limits::MINUTES_OF_DAY;
use crate::sailing::Sailing;

const DAY: u64 = MINUTES_OF_DAY as u64;

// The three tests of a barge that sails on.
#[tactic(auto, unfolding(crate::specs::Times::continues))]
fn sails_on(s: Sailing, before: Sailing) -> bool
    ensures { result ≡ continues s before }
{
    s.run == before.run && s.leg as u32 == before.leg as u32 + 1 && s.from == before.to
}

impl Sailing {
    // The minutes from departure to arrival: less than a day.
    #[tactic(auto, using(crate::proofs::Laws::length_cycle), unfolding(crate::specs::Times::length_of))]
    pub fn length(self) -> u32
        ensures value { result ≡ length_of self }
        ensures cycle { Cycle self result }
    {
        (self.arr as u32 + (1440 - self.dep as u32 % 1440)) % 1440
    }

    // The first minute, not before the one asked for, at which it leaves on some day. 64 bits hold it for every minute of 32.
    #[tactic(auto, using(crate::proofs::Laws::next_is, crate::proofs::Laws::departures), unfolding(crate::specs::Times::next))]
    pub fn next_departure(self, minute: u32) -> u64
        ensures value { result ≡ next self minute }
        ensures least { Next self minute result }
        ensures laws { Departures self }
    {
        let dep = self.dep as u64;
        dep + DAY * (((minute as u64).saturating_sub(dep) + (DAY - 1)) / DAY)
    }

    // Whether the barge that sailed `before` sails on as this sailing, so that its load can stay aboard.
    #[tactic(auto, using(crate::proofs::Laws::continues_means))]
    pub fn continues(self, before: Sailing) -> bool
        ensures value { result ≡ continues self before }
        ensures means { Decides result (Continues self before) }
    {
        sails_on(self, before)
    }
}
