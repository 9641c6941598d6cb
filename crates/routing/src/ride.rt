//! Rides: the sailing of a place, taken on some day, as the last leg so far.
ghost use Rattle.std.specs.Prelude.{◌≡◌, ◌<◌};
ghost use Rattle.timetable.specs.Times.{next};
ghost use Rattle.routing.specs.Origins.{quay_of, due_of, ride_from, Small};

use crate::minutes::{minutes_of, next_leave};
use timetable::sailing::Sailing;

// A sailing taken on some day: when it leaves and arrives, the place of the ride before it, and which leg of the journey it is.
#[derive(Clone, Copy)]
pub struct Ride {
    pub sailing: Sailing,
    pub leaves: u32,
    pub arrives: u32,
    pub via: Option<u16>,
    pub depth: u16,
}

// Where a sailing is boarded from: at a quay and minute to start with, or after the ride that settled a place, with the minutes to change there.
#[derive(Clone, Copy)]
pub enum Origin {
    Start { quay: u16, minute: u32 },
    Via { place: u16, ride: Ride, change: u32 },
}

pub(crate) fn quay_of(origin: Origin) -> u16
    ensures { result ≡ quay_of origin }
{
    match origin {
        Origin::Start { quay, .. } => quay,
        Origin::Via { ride, .. } => ride.sailing.to,
    }
}

// When s can be boarded from the origin: at once where the barge sails on, else after the change.
// Each case asks for its departure by itself, so that what is the same for all sailings is computed once.
fn leaves_from(origin: Origin, s: Sailing) -> u32
    requires { Small origin s }
    ensures { result ≡ next s (due_of origin s) }
{
    match origin {
        Origin::Start { minute, .. } => next_leave(s, minute),
        Origin::Via { ride, change, .. } => {
            if s.continues(ride.sailing) {
                next_leave(s, ride.arrives)
            } else {
                next_leave(s, ride.arrives + change)
            }
        }
    }
}

// The ride with s from the origin.
pub(crate) fn ride_from(origin: Origin, s: Sailing) -> Ride
    requires { Small origin s }
    ensures { result ≡ ride_from origin s }
{
    let leaves = leaves_from(origin, s);
    let arrives = leaves + minutes_of(s);
    let (via, depth) = match origin {
        Origin::Start { .. } => (None, 1),
        Origin::Via { place, ride, .. } => (Some(place), ride.depth + 1),
    };
    Ride {
        sailing: s,
        leaves,
        arrives,
        via,
        depth,
    }
}
