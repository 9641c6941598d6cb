//! What a journey is, over any timetable.
#![tactic(auto)]

pub mod laws;
