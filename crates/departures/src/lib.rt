//! The departure list of a quay, over any book: its sailings by their next departures.
#![tactic(auto)]

mod asked;
mod drain;
mod gather;
pub mod laws;
pub mod list;
