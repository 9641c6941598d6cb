//! A book in which the sailings of withheld runs are blank.
ghost use Rattle.std.specs.Prelude.{◌≡◌, List, [], ◌∷◌, ◌++◌, length, is_ok, if◌then◌else◌};
ghost use Rattle.tables.specs.Lists.{has, without};
ghost use Rattle.tables.specs.Kept.{kept};
ghost use Rattle.layers.specs.Notices.{withhold_answer, release_answer, of_withheld};

use crate::layer::{Layer, Rule};
use tables::numbers::Numbers;
use timetable::book::Book;
use timetable::refusal::Refusal;
use timetable::sailing::Sailing;

const MOST_RUNS: usize = 64;

// The runs that are withheld.
#[derive(Drop)]
pub struct Runs {
    runs: Numbers<MOST_RUNS>,
}

impl Rule for Runs {
    ghost is_none = { λ r. kept r.runs ≡ [] };

    ghost picks = { λ r. of_withheld (kept r.runs) };

    fn none() -> Self {
        Runs {
            runs: Numbers::new(),
        }
    }

    fn hides(&self, _place: u16, s: Sailing) -> bool {
        self.runs.holds(s.run)
    }
}

pub type Withholding<B> = Layer<B, Runs>;

impl<B: Book> Layer<B, Runs> {
    // The notices for runs and those for quays are a few lines each with refusals of their own, and those for quays ask for the quay, too: one for both is no plainer.
    // Takes the sailings of a run out of force.
    pub fn withhold(&mut self, run: u16) -> Result<(), Refusal>
        ensures answer { result ≡ withhold_answer (has run (kept self.old.rule.runs)) (length (kept self.old.rule.runs)) }
        ensures after { kept self.new.rule.runs ≡ (if is_ok result then kept self.old.rule.runs ++ (run ∷ []) else kept self.old.rule.runs) }
        ensures below { self.new.below ≡ self.old.below }
    {
        if self.is_withheld(run) {
            return Err(Refusal::RunWithheld);
        }
        self.rule.runs.push(run).map_err(|_| Refusal::RunsFull)
    }

    // Puts them into force again.
    pub fn release(&mut self, run: u16) -> Result<(), Refusal>
        ensures answer { result ≡ release_answer (has run (kept self.old.rule.runs)) }
        ensures after { kept self.new.rule.runs ≡ (if is_ok result then without run (kept self.old.rule.runs) else kept self.old.rule.runs) }
        ensures below { self.new.below ≡ self.old.below }
    {
        if !self.is_withheld(run) {
            return Err(Refusal::RunNotWithheld);
        }
        self.rule.runs.remove(run);
        Ok(())
    }

    pub fn is_withheld(&self, run: u16) -> bool
        ensures { result ≡ has run (kept self.now.rule.runs) }
    {
        self.rule.runs.holds(run)
    }
}
