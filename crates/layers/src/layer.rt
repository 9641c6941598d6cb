//! A book in which the sailings that a rule hides are blank.
ghost use Rattle.std.specs.Prelude.{◌≡◌, ℕ, Bool};
ghost use Rattle.timetable.specs.Timetables.{Timetable, Lawful};
ghost use Rattle.timetable.specs.Hiding.{hide};
ghost use Rattle.timetable.proofs.HidingLemmas.{hide_lawful};
ghost use Rattle.timetable.specs.declared.sailing.Sailing.{Sailing};

use timetable::book::Book;
use timetable::refusal::Refusal;
use timetable::sailing::Sailing;
use timetable::span::Span;

// Which sailings are blank, by their place and by what they are.
pub trait Rule {
    ghost picks: { Self → ℕ → Sailing → Bool };

    ghost is_none: { Self → Type 0 };

    // The rule of a layer before any notice.
    fn none() -> Self
        ensures { is_none result };

    fn hides(&self, place: u16, s: Sailing) -> bool
        ensures { result ≡ picks self.now place s };
}

#[derive(Drop)]
pub struct Layer<B, R> {
    pub below: B,
    pub rule: R,
}

impl<B: Book, R: Rule> Layer<B, R> {
    pub fn new(below: B) -> Self
        ensures below { result.below ≡ below }
        ensures none { R.Rule.is_none result.rule }
    {
        Layer {
            below,
            rule: R::none(),
        }
    }
}

impl<B: Book, R: Rule> Book for Layer<B, R> {
    ghost meaning = { λ w. hide (R.Rule.picks w.rule) (B.Book.meaning w.below) };

    ghost lawful = { λ w. hide_lawful (R.Rule.picks w.rule) (B.Book.meaning w.below) (B.Book.lawful w.below) };

    fn quays(&self) -> u16 {
        self.below.quays()
    }

    fn places(&self) -> u16 {
        self.below.places()
    }

    fn change(&self, quay: u16) -> Result<u16, Refusal> {
        self.below.change(quay)
    }

    fn place(&self, place: u16) -> Result<Option<Sailing>, Refusal> {
        let there = self.below.place(place)?;
        Ok(there.filter(|s| !self.rule.hides(place, *s)))
    }

    fn span(&self, quay: u16) -> Result<Span, Refusal> {
        self.below.span(quay)
    }
}
