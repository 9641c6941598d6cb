//! Lines as they are typed and answered: what a typed line asks for, and the bytes of an answer.
#![tactic(auto)]

pub mod fields;
mod pen;
pub mod read;
pub mod text;
pub mod write;
