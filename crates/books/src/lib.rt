//! Books over the bytes of an image, which stay where they are.
#![tactic(auto)]

pub mod clock_face;
pub mod clock_face_book;
pub mod opened;
pub mod printed;
pub mod printed_book;
mod reading;
