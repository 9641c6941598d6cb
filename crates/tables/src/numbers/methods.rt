//! What can be done with a table of numbers.
ghost use Rattle.std.specs.Prelude.{◌≡◌, List, [], ◌∷◌, ◌++◌, length, if◌then◌else◌, is_ok, nat_lt, IfErr};
ghost use Rattle.arrayvec.specs.CapacityError.{error_element};
ghost use Rattle.tables.specs.Lists.{has, without};
ghost use Rattle.tables.specs.Kept.{kept};

use super::Numbers;
use arrayvec::{ArrayVec, CapacityError};

impl<const N: usize> Numbers<N> {
    pub fn new() -> Self
        ensures { kept result ≡ [] }
    {
        Numbers {
            at: ArrayVec::new(),
        }
    }

    // A table is most often empty, and then nothing is compared.
    pub fn holds(&self, x: u16) -> bool
        ensures { result ≡ has x (kept self.now) }
    {
        !self.at.is_empty() && self.at.contains(&x)
    }

    // Adds x at the end, or hands it back where there is no room.
    pub fn push(&mut self, x: u16) -> Result<(), CapacityError<u16>>
        ensures room { is_ok result ≡ nat_lt (length (kept self.old)) N }
        ensures after { kept self.new ≡ (if is_ok result then kept self.old ++ (x ∷ []) else kept self.old) }
        ensures handed_back { IfErr result (λ e. error_element e ≡ x) }
    {
        self.at.try_push(x)
    }

    // Takes every x out, and keeps the others in their order.
    pub fn remove(&mut self, x: u16)
        ensures { kept self.new ≡ without x (kept self.old) }
    {
        self.at.retain(|y| *y != x);
    }
}
