//! Examples of routes, in a crate of their own, so that routing is not proved twice.
#![tactic(auto)]

pub mod quays;
#[cfg(test)]
mod tests;
