//! Cases of departure lists and of the heap of departures, in a crate of their own, so that departures is not proved twice.
#![tactic(auto)]

#[cfg(test)]
mod heaps;
#[cfg(test)]
mod lists;
