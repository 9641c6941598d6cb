//! The worked cases, proved over the definitions: the book, the answers to the questions put to it, and what a thin marks.
#![tactic(auto)]

pub mod book;
pub mod case;
pub mod marks;
pub mod table;
