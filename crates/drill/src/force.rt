//! The book in force, and what is worked out of it.
use crate::times::*;
use image::quay::Quay;
use std::alloc::{AllocError, Global};
use std::collections::BTreeSet;
use timetable::query::Query;
use timetable::sailing::Sailing;

static CLASS_MINUTES: [u32; 8] = [0, 5, 10, 15, 20, 25, 30, 45];

// The quays of a book with their change times.
#[derive(Clone, Copy)]
pub(crate) struct Changes<'a> {
    pub(crate) quays: &'a [Quay],
}

impl Changes<'_> {
    fn change(&self, quay: u16) -> u32 {
        self.quays
            .get(usize::from(quay))
            .map_or(0, |q| u32::from(q.change))
    }

    // The margin at a quay for barges that may sail on there.
    fn margin(&self, quay: u16, sails_on: bool) -> u32 {
        if sails_on {
            self.change(quay).saturating_add(45)
        } else {
            0
        }
    }

    // The first minute at which a load that arrived by `before` may leave by `s`.
    pub(crate) fn ready(&self, before: Sailing, arrives: u32, s: Sailing, class: u16) -> u32 {
        if continues(s, before) {
            return arrives;
        }
        let added = CLASS_MINUTES.get(usize::from(class)).copied().unwrap_or(0);
        arrives
            .saturating_add(self.change(s.from))
            .saturating_add(added)
    }
}

// A sailing and its place.
#[derive(Clone, Copy)]
pub(crate) struct Placed {
    pub(crate) place: u16,
    pub(crate) sailing: Sailing,
}

// A sailing, and the earliest arrival by it that is known.
#[derive(Clone, Copy)]
struct Ride {
    sailing: Sailing,
    arrives: Option<u32>,
}

// The sailings in force, in the order of their places.
#[derive(Drop)]
pub(crate) struct Force<'a> {
    pub(crate) changes: Changes<'a>,
    pub(crate) rows: Vec<Placed>,
}

impl Force<'_> {
    fn margin_before(&self, q: Sailing) -> u32 {
        let sails_on = self.rows.iter().any(|other| continues(q, other.sailing));
        self.changes.margin(q.from, sails_on)
    }

    fn margin_after(&self, q: Sailing) -> u32 {
        let sails_on = self.rows.iter().any(|other| continues(other.sailing, q));
        self.changes.margin(q.to, sails_on)
    }

    fn beats(&self, winner: Placed, loser: Placed) -> bool {
        let p = winner.sailing;
        let q = loser.sailing;
        if winner.place == loser.place || p.from != q.from || p.to != q.to {
            return false;
        }
        let dep = u32::from(q.dep);
        let start = dep.saturating_add(self.margin_before(q));
        let end = arrival(p, start).saturating_add(self.margin_after(q));
        end <= dep.saturating_add(length(q))
    }

    fn is_dominated(&self, q: Placed) -> bool {
        self.rows.iter().any(|p| self.beats(*p, q) && !(self.beats(q, *p) && q.place < p.place))
    }

    // The places of the dominated sailings.
    pub(crate) fn dominated(&self, heap: Global) -> Result<BTreeSet<u16>, AllocError> {
        self.rows
            .iter()
            .filter(|q| self.is_dominated(**q))
            .map(|q| q.place)
            .collect(heap)
    }

    // Betters the arrivals by the sailings that can follow one that arrives then. Tells whether one changed.
    fn better(&self, rides: &mut [Ride], before: Sailing, arrives: u32, class: u16) -> bool {
        let mut changed = false;
        for next in rides.iter_mut() {
            let s = next.sailing;
            if s.from == before.to {
                let then = arrival(s, self.changes.ready(before, arrives, s, class));
                if next.arrives.is_none_or(|known| then < known) {
                    next.arrives = Some(then);
                    changed = true;
                }
            }
        }
        changed
    }

    // The earliest arrival by each sailing: from those that leave the start quay, bettered until nothing changes.
    fn rides(&self, heap: Global, query: Query) -> Result<Vec<Ride>, AllocError> {
        let mut rides: Vec<Ride> = self
            .rows
            .iter()
            .map(|row| {
                let sailing = row.sailing;
                let then = arrival(sailing, u32::from(query.minute));
                let arrives = (sailing.from == query.from).then_some(then);
                Ride { sailing, arrives }
            })
            .collect(heap)?;
        for _ in 0..=rides.len() {
            let mut changed = false;
            // by number, since each ride may better every other
            for i in 0..rides.len() {
                if let Some(
                    Ride {
                        sailing,
                        arrives: Some(then),
                    },
                ) = rides.get(i).copied()
                {
                    changed |= self.better(rides.as_mut_slice(), sailing, then, query.class);
                }
            }
            if !changed {
                break;
            }
        }
        Ok(rides)
    }

    // The earliest arrival for the query, if there is a way.
    pub(crate) fn earliest(&self, heap: Global, query: Query) -> Result<Option<u32>, AllocError> {
        if query.from == query.to {
            return Ok(Some(u32::from(query.minute)));
        }
        let rides = self.rides(heap, query)?;
        Ok(
            rides
                .iter()
                .filter(|ride| ride.sailing.to == query.to)
                .filter_map(|ride| ride.arrives)
                .min(),
        )
    }
}
