//! How numbers and times of the day stand in text.
#![tactic(auto)]

mod digits;
pub mod field;
pub mod number;
pub mod time;
pub mod unsigned;
