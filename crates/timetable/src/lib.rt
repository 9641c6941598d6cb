//! Sailings and their minutes, the refusals and their numbers, and what a book of sailings means.
#![tactic(auto)]

pub mod book;
pub mod call;
pub mod classes;
pub mod hiding;
pub mod limits;
pub mod query;
pub mod refusal;
pub mod sailing;
pub mod span;
pub mod times;
