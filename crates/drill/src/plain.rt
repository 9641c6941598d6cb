//! What each call should answer, worked out from the rules alone: neither the board nor the check of a query is asked.
use crate::draft::Draft;
use crate::force::{Changes, Force, Placed};
use crate::outcome::Outcome;
use std::alloc::{AllocError, Global};
use std::collections::BTreeSet;
use timetable::call::Call;
use timetable::query::Query;
use timetable::refusal::Refusal;
use timetable::sailing::Sailing;

// How many rows are lent to each route.
#[derive(Clone, Copy)]
pub(crate) struct Rows {
    pub(crate) labels: usize,
    pub(crate) legs: usize,
    pub(crate) items: u16,
}

// The opened book, what is withheld, shut and marked, and what routes are lent.
#[derive(Drop)]
pub(crate) struct Plain<'a> {
    heap: Global,
    pub(crate) changes: Changes<'a>,
    sailings: &'a [Sailing],
    rows: Rows,
    withheld: BTreeSet<u16>,
    shut: BTreeSet<u16>,
    marked: BTreeSet<u16>,
}

impl<'a> Plain<'a> {
    pub(crate) fn new(heap: Global, draft: &'a Draft, rows: Rows) -> Plain<'a> {
        Plain {
            heap,
            changes: Changes {
                quays: draft.quays.as_slice(),
            },
            sailings: draft.sailings.as_slice(),
            rows,
            withheld: BTreeSet::new(heap),
            shut: BTreeSet::new(heap),
            marked: BTreeSet::new(heap),
        }
    }

    // What the call should answer. The sets are then as after it.
    pub(crate) fn answer(&mut self, call: Call) -> Result<Outcome, AllocError> {
        if let Err(refusal) = self.judge(call) {
            return Ok(match call {
                Call::Route(_) => Outcome::Route(Err(refusal)),
                _ => Outcome::Notice(Err(refusal)),
            });
        }
        match call {
            Call::Thin => {
                self.marked = self.force()?.dominated(self.heap)?;
                Ok(Outcome::Thinned(u16::try_from(self.marked.len()).unwrap_or(u16::MAX)))
            }
            Call::Route(query) => Ok(Outcome::Route(Ok(self.force()?.earliest(self.heap, query)?))),
            _ => {
                self.note(call)?;
                Ok(Outcome::Notice(Ok(())))
            }
        }
    }

    // Why a call is refused, if it is.
    fn judge(&self, call: Call) -> Result<(), Refusal> {
        match call {
            Call::Withhold(run) if self.withheld.contains(&run) => Err(Refusal::RunWithheld),
            Call::Withhold(_) if self.withheld.len() >= 64 => Err(Refusal::RunsFull),
            Call::Release(run) if !self.withheld.contains(&run) => Err(Refusal::RunNotWithheld),
            Call::Shut(quay) | Call::Open(quay) if !self.has_quay(quay) => Err(Refusal::NoQuay),
            Call::Shut(quay) if self.shut.contains(&quay) => Err(Refusal::QuayShut),
            Call::Shut(_) if self.shut.len() >= 32 => Err(Refusal::QuaysFull),
            Call::Open(quay) if !self.shut.contains(&quay) => Err(Refusal::QuayNotShut),
            Call::Route(query) => self.judge_query(query),
            _ => Ok(()),
        }
    }

    fn has_quay(&self, quay: u16) -> bool {
        usize::from(quay) < self.changes.quays.len()
    }

    fn judge_query(&self, query: Query) -> Result<(), Refusal> {
        let places = self.sailings.len();
        if !self.has_quay(query.from) || !self.has_quay(query.to) {
            Err(Refusal::NoQuay)
        } else if query.minute > 1439 {
            Err(Refusal::LateMinute)
        } else if query.class > 7 {
            Err(Refusal::NoClass)
        } else if self.rows.labels < places || self.rows.legs < places {
            Err(Refusal::ShortBuffer)
        } else if usize::from(self.rows.items) < places {
            Err(Refusal::SmallLine)
        } else {
            Ok(())
        }
    }

    // Takes in a notice that is accepted.
    fn note(&mut self, call: Call) -> Result<(), AllocError> {
        match call {
            Call::Withhold(run) => {
                self.withheld.insert(run)?;
            }
            Call::Release(run) => {
                self.withheld.remove(&run);
            }
            Call::Shut(quay) => {
                self.shut.insert(quay)?;
            }
            Call::Open(quay) => {
                self.shut.remove(&quay);
            }
            Call::Thin | Call::Route(_) => {}
        }
        self.marked.clear();
        Ok(())
    }

    fn is_in_force(&self, s: Sailing) -> bool {
        !self.withheld.contains(&s.run)
            && !self.shut.contains(&s.from)
            && !self.shut.contains(&s.to)
    }

    fn force(&self) -> Result<Force<'a>, AllocError> {
        let rows = (0..)
            .zip(self.sailings)
            .filter(|(_, s)| self.is_in_force(**s))
            .map(|(place, s)| Placed { place, sailing: *s })
            .collect(self.heap)?;
        Ok(Force {
            changes: self.changes,
            rows,
        })
    }

    // The sailing at a place, if routes may take it.
    pub(crate) fn open_to_routes(&self, place: u16) -> Option<Sailing> {
        self.sailings
            .get(usize::from(place))
            .copied()
            .filter(|s| self.is_in_force(*s) && !self.marked.contains(&place))
    }
}
