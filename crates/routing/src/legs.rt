//! The legs of a journey, read off the labels.
ghost use Rattle.std.specs.Prelude.{◌≡◌, ℕ, ◌≤◌, length, drop};
ghost use Rattle.routing.specs.Walk.{Known, WrittenFor};

use crate::label::Label;
use crate::ride::Ride;
use timetable::query::Leg;

// Writes the legs that lead to the place `last`, from the last to the first.
pub(crate) fn write_legs(labels: &[Label], legs: &mut [Leg], last: u16, ride: Ride)
    requires known { Known labels.now last ride }
    requires room { ride.depth ≤ length legs.old }
    ensures written { WrittenFor labels.now last ride legs.new }
    ensures rest { drop ride.depth legs.new ≡ drop ride.depth legs.old }
{
    let mut at = last;
    let mut cur = ride;
    // goes back along `via`: no index is counted
    'back: loop {
        legs[cur.depth as usize - 1] = Leg {
            place: at,
            leaves: cur.leaves,
            arrives: cur.arrives,
        };
        let Some(before) = cur.via else {
            return;
        };
        let Label::Settled(prior) = labels[before as usize] else {
            unreachable!()
        };
        at = before;
        cur = prior;
    }
}
