//! Examples of boards, in a crate of their own, so that the board is not proved twice.
#![tactic(auto)]

pub mod forty;
#[cfg(test)]
mod tests;
mod uses;
