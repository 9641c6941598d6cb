//! Tables of fixed size: no notice can fail for want of memory.
#![tactic(auto)]

pub mod marks;
pub mod numbers;
