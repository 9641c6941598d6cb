//! The board of notices over any book, and the promise over every string of calls on it.
#![tactic(auto)]

pub mod board;
pub mod calls;
pub mod decided;
pub mod plain;
pub mod replay;
