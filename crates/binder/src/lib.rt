//! The binder: quays and sailings into the image of a printed book.
#![tactic(auto)]

pub mod bind;
mod content;
mod records;
pub mod unbound;
