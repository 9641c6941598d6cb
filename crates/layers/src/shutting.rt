//! A book in which the sailings that touch a shut quay are blank.
ghost use Rattle.std.specs.Prelude.{◌≡◌, List, [], ◌∷◌, ◌++◌, length, is_ok, if◌then◌else◌, nat_lt};
ghost use Rattle.tables.specs.Lists.{has, without};
ghost use Rattle.tables.specs.Kept.{kept};
ghost use Rattle.layers.specs.Notices.{shut_answer, open_answer, touches_shut};

use crate::layer::{Layer, Rule};
use tables::numbers::Numbers;
use timetable::book::Book;
use timetable::refusal::Refusal;
use timetable::sailing::Sailing;

const MOST_QUAYS: usize = 32;

// The quays that are shut.
#[derive(Drop)]
pub struct Quays {
    quays: Numbers<MOST_QUAYS>,
}

impl Rule for Quays {
    ghost is_none = { λ r. kept r.quays ≡ [] };

    ghost picks = { λ r. touches_shut (kept r.quays) };

    fn none() -> Self {
        Quays {
            quays: Numbers::new(),
        }
    }

    fn hides(&self, _place: u16, s: Sailing) -> bool {
        self.quays.holds(s.from) || self.quays.holds(s.to)
    }
}

pub type Shutting<B> = Layer<B, Quays>;

impl<B: Book> Layer<B, Quays> {
    // Takes the sailings that touch a quay out of force.
    pub fn shut(&mut self, quay: u16) -> Result<(), Refusal>
        ensures answer { result ≡ shut_answer (nat_lt quay (length (B.Book.meaning self.old.below).changes)) (has quay (kept self.old.rule.quays)) (length (kept self.old.rule.quays)) }
        ensures after { kept self.new.rule.quays ≡ (if is_ok result then kept self.old.rule.quays ++ (quay ∷ []) else kept self.old.rule.quays) }
        ensures below { self.new.below ≡ self.old.below }
    {
        if quay >= self.below.quays() {
            return Err(Refusal::NoQuay);
        }
        if self.is_shut(quay) {
            return Err(Refusal::QuayShut);
        }
        self.rule.quays.push(quay).map_err(|_| Refusal::QuaysFull)
    }

    // Puts them into force again.
    pub fn open(&mut self, quay: u16) -> Result<(), Refusal>
        ensures answer { result ≡ open_answer (nat_lt quay (length (B.Book.meaning self.old.below).changes)) (has quay (kept self.old.rule.quays)) }
        ensures after { kept self.new.rule.quays ≡ (if is_ok result then without quay (kept self.old.rule.quays) else kept self.old.rule.quays) }
        ensures below { self.new.below ≡ self.old.below }
    {
        if quay >= self.below.quays() {
            return Err(Refusal::NoQuay);
        }
        if !self.is_shut(quay) {
            return Err(Refusal::QuayNotShut);
        }
        self.rule.quays.remove(quay);
        Ok(())
    }

    pub fn is_shut(&self, quay: u16) -> bool
        ensures { result ≡ has quay (kept self.now.rule.quays) }
    {
        self.rule.quays.holds(quay)
    }
}
