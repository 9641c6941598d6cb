//! Priority queues of items by their keys: what a waiting line is, and the plain table.
#![tactic(auto)]

pub mod keys;
pub mod laws;
pub mod line;
pub mod plain;
pub mod table;
