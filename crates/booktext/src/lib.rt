//! Timetables as plain text: what one line says.
#![tactic(auto)]

pub mod entry;
mod fields;
pub mod line;
mod quays;
mod sailings;
