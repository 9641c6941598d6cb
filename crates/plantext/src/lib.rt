//! The lines of a plan: first its query, then each leg.
#![tactic(auto)]

pub mod read;
