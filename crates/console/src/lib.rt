//! The call of the gate console, which is a C program: the earliest departure from a quay, out of the bytes of an image.
#![tactic(auto)]

pub mod call;
mod earliest;
