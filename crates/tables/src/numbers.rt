//! A table of at most N numbers, in the order in which they were accepted.
ghost use Rattle.std.specs.Prelude.{◌≤◌, length};

use arrayvec::ArrayVec;

pub mod methods;

#[derive(Drop)]
pub struct Numbers<const N: usize> {
    at: ArrayVec<u16, N>,
    ghost few: { length at.items ≤ N },
}
