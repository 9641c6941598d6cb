//! Which sailings of a book are dominated, the marking of them, and why no arrival is lost by it.
#![tactic(auto)]

pub mod laws;
mod standing;
pub mod thin;
mod weighing;
