//! Images of books: their layout, and the check that passes exactly the images that the layout allows.
#![tactic(auto)]

pub mod check;
mod clock_face;
pub mod content;
pub mod fault;
mod heading;
mod printed;
pub mod quay;
pub mod record;
pub mod series;
pub mod spot;
