//! Whether told legs are what they should be.
use crate::plain::Plain;
use crate::times::*;
use timetable::query::{Leg, Query};
use timetable::sailing::Sailing;

// The leg that marks a row of call `i` as not written.
pub(crate) fn blank_leg(i: usize) -> Leg {
    Leg {
        place: u16::MAX,
        leaves: u32::try_from(i).unwrap_or(0),
        arrives: 7,
    }
}

pub(crate) fn all_blank(legs: &[Leg], i: usize) -> bool {
    legs.iter().all(|leg| *leg == blank_leg(i))
}

// How often the legs take a place.
fn times_taken(legs: &[Leg], place: u16) -> usize {
    legs.iter().filter(|leg| leg.place == place).count()
}

// Whether a leg is this sailing on some day, and leaves at `ready` or later.
fn is_ride(leg: Leg, s: Sailing, ready: u32) -> bool {
    ready <= leg.leaves
        && leg.leaves % 1440 == u32::from(s.dep)
        && leg.arrives == leg.leaves.saturating_add(length(s))
}

// Whether the legs are a journey for the query that arrives then, and take no place twice.
pub(crate) fn is_journey(plain: &Plain, query: Query, legs: &[Leg], arrives: u32) -> bool {
    let mut quay = query.from;
    let mut minute = u32::from(query.minute);
    let mut last: Option<Sailing> = None;
    for leg in legs {
        let Some(s) = plain.open_to_routes(leg.place) else {
            return false;
        };
        let ready = last.map_or(minute, |before| {
            plain.changes.ready(before, minute, s, query.class)
        });
        if s.from != quay || !is_ride(*leg, s, ready) || times_taken(legs, leg.place) != 1 {
            return false;
        }
        quay = s.to;
        minute = leg.arrives;
        last = Some(s);
    }
    quay == query.to && minute == arrives
}
