//! One leg of a plan: can it be taken from where the load stands?
ghost use Rattle.std.specs.Prelude.{◌≡◌, ◌+◌, ◌&&◌, Some, ◌==◌};
ghost use Rattle.timetable.specs.Times.{next, length_of};
ghost use Rattle.vet.specs.Standings.{due_after, stand_of};
ghost use Rattle.vet.specs.Vetting.{boarded, judged};

use crate::standing::Standing;
use timetable::book::Book;
use timetable::query::Leg;
use timetable::refusal::Refusal;
use timetable::sailing::Sailing;

// Whether the sailing leaves and arrives at the minutes of the leg, on some day. 64 bits hold each sum.
fn keeps_minutes(s: Sailing, leg: Leg) -> bool
    ensures { result ≡ (next s leg.leaves == leg.leaves && leg.arrives == leg.leaves + length_of s) }
{
    s.next_departure(leg.leaves) == u64::from(leg.leaves)
        && u64::from(leg.arrives) == u64::from(leg.leaves) + u64::from(s.length())
}

impl Standing {
    // The minute from which the load may leave with s.
    fn due(self, s: Sailing) -> u64
        ensures { result ≡ due_after self.minute self.came s }
    {
        match self.came {
            Some(came) if !s.continues(came.sailing) => {
                u64::from(self.minute) + u64::from(came.change)
            }
            _ => u64::from(self.minute),
        }
    }

    // The sailing with which the leg is taken, or what is wrong with it: of several things, that with the lowest number.
    fn board(self, leg: Leg, s: Sailing) -> Result<Sailing, Refusal>
        ensures { result ≡ boarded (stand_of self) leg (Some s) }
    {
        if !keeps_minutes(s, leg) {
            return Err(Refusal::WrongMinutes);
        }
        if s.from != self.quay {
            return Err(Refusal::WrongQuay);
        }
        if u64::from(leg.leaves) < self.due(s) {
            return Err(Refusal::TooEarly);
        }
        Ok(s)
    }

    pub(crate) fn judge<B: Book>(self, book: &B, leg: Leg) -> Result<Sailing, Refusal>
        ensures { result ≡ judged (B.meaning book.now) (stand_of self) leg }
    {
        let s = book.sailing_at(leg.place).ok_or(Refusal::NoSailing)?;
        self.board(leg, s)
    }
}
