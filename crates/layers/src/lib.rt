//! Layers over any book, each again a book: sailings of withheld runs, those that touch a shut quay, and marked ones are blank.
#![tactic(auto)]

pub mod layer;
pub mod shutting;
pub mod thinned;
pub mod withholding;
