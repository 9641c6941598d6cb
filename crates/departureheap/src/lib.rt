//! Rows of a departure list, and a heap of them over a lent store.
#![tactic(auto)]

pub mod departure;
pub mod departure_heap;
