//! Waiting items in a heap: the heap of them, and the waiting line that takes its first item from it.
#![tactic(auto)]

pub mod entry;
pub mod heaped;
pub mod line;
pub mod waiting;
