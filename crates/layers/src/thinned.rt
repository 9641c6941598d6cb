//! A book in which the marked sailings are blank.
ghost use Rattle.std.specs.Prelude.{◌≡◌, ℕ, false, replicate, slice_index_or};
ghost use Rattle.timetable.specs.Hiding.{hide};
ghost use Rattle.thinning.specs.Dominance.{mark_of, dominated_in};
ghost use Rattle.thinning.specs.Thinning.{marked, Keeps};

use crate::layer::{Layer, Rule};
use tables::marks::Marks;
use timetable::book::Book;
use timetable::sailing::Sailing;

impl Rule for Marks {
    ghost is_none = { λ r. r.at ≡ replicate 3072 false };

    ghost picks = { λ r. marked r.at };

    fn none() -> Self {
        Marks::new()
    }

    fn hides(&self, place: u16, _s: Sailing) -> bool {
        self.holds(place)
    }
}

pub type Thinned<B> = Layer<B, Marks>;

impl<B: Book> Layer<B, Marks> {
    // Marks the dominated sailings of the book below, and tells how many they are.
    pub fn thin(&mut self) -> u16
        ensures exact { (p : ℕ) → slice_index_or self.new.rule.at p false ≡ mark_of (B.Book.meaning self.old.below) p }
        ensures count { result ≡ dominated_in (B.Book.meaning self.old.below) }
        ensures keeps { Keeps (B.Book.meaning self.old.below) (hide (marked self.new.rule.at) (B.Book.meaning self.old.below)) }
        ensures below { self.new.below ≡ self.old.below }
    {
        thinning::thin::thin(&self.below, &mut self.rule)
    }
}
