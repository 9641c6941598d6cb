//! Vetting: is a plan a journey, and if not, which leg is the first that is wrong?
#![tactic(auto)]

mod judge;
mod stand;
mod standing;
pub mod verdict;
pub mod vet;
