//! A timetable as it is read.
ghost use Rattle.std.specs.Prelude.{◌≡◌, true, is_ok, map, vec_len, IfOk};
ghost use Rattle.bindbook.specs.Drafts.{Adds};
ghost use Rattle.bindbook.specs.Excess.{fits_in};

use crate::blame::blamed_line;
use crate::excess::Excess;
use crate::lined::Lined;
use binder::unbound::Unbound;
use booktext::entry::Entry;
use image::quay::Quay;
use std::alloc::{AllocError, Global};
use timetable::limits::{MOST_PLACES, MOST_QUAYS};
use timetable::sailing::Sailing;

// What was told, without the lines.
pub(crate) fn all_told<T: Copy>(rows: &[Lined<T>], heap: Global) -> Result<Vec<T>, AllocError>
    ensures { IfOk result (λ v. v.items ≡ map (λ x. x.told) rows.now) }
{
    rows.iter().map(|lined| lined.told).collect(heap)
}

// The quays and the sailings of a timetable, each with the number of its line.
#[derive(Drop)]
pub(crate) struct Draft {
    pub(crate) quays: Vec<Lined<Quay>>,
    pub(crate) sailings: Vec<Lined<Sailing>>,
}

impl Draft {
    pub(crate) fn new(heap: Global) -> Draft
        ensures { (vec_len result.quays ≡ 0) × (vec_len result.sailings ≡ 0) }
    {
        Draft {
            quays: Vec::new(heap),
            sailings: Vec::new(heap),
        }
    }

    // Keeps what a line says, with the line's number.
    pub(crate) fn add(&mut self, line: u64, entry: Entry) -> Result<(), AllocError>
        ensures { is_ok result ≡ true → Adds self.old line entry self.new }
    {
        match entry {
            Entry::Quay(told) => self.quays.push(Lined { line, told })?,
            Entry::Sailing(told) => self.sailings.push(Lined { line, told })?,
        }
        Ok(())
    }

    // Whether there are no more of the two than a book holds. Of more no book can come.
    pub(crate) fn fits(&self) -> Result<(), Excess>
        ensures { result ≡ fits_in (vec_len self.now.quays) (vec_len self.now.sailings) }
    {
        if self.quays.len() > usize::from(MOST_QUAYS) {
            return Err(Excess::Quays);
        }
        if self.sailings.len() > usize::from(MOST_PLACES) {
            return Err(Excess::Sailings);
        }
        Ok(())
    }

    // The line that a refusal is about, if there is one.
    pub(crate) fn line_of(&self, unbound: Unbound) -> Option<u64> {
        match unbound {
            Unbound::Faulty(fault) => {
                blamed_line(fault, self.quays.as_slice(), self.sailings.as_slice())
            }
            Unbound::ShortImage => None,
        }
    }
}
