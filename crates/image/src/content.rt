//! The checks of a quay and of a sailing by what they hold: the same for an image and for a book that is to be bound.
ghost use Rattle.std.specs.Prelude.{◌≡◌, ◌&&◌, nat_le};
ghost use Rattle.image.specs.Records.{quay_start, entry_at};
ghost use Rattle.image.specs.Checks.{up_to, sizes_within, most_entries, ends_are, times_are};
ghost use Rattle.image.specs.Content.{letter, quay_of, sailing_of};

use crate::fault::*;
use crate::quay::Quay;
use crate::spot::Spot;
use timetable::limits::{LAST_MINUTE, MOST_QUAYS};
use timetable::refusal::Refusal;
use timetable::sailing::Sailing;

const FIRST_LETTER: u8 = 32;

const LAST_LETTER: u8 = 126;

// How many quays and entries a book of a kind may have.
pub fn check_sizes(kind: Kind, quays: usize, entries: usize) -> Result<(), Fault>
    ensures { result ≡ sizes_within (most_entries kind) quays entries }
{
    let spot = Spot {
        part: Part::Heading,
        row: 0,
        at: 0,
    };
    spot.require(
        quays >= 1 && quays <= MOST_QUAYS as usize,
        Refusal::OutOfLimits,
        4,
    )?;
    spot.require(
        entries <= kind.most_entries() as usize,
        Refusal::OutOfLimits,
        6,
    )
}

// Whether a byte may stand in a name.
fn is_letter(b: u8) -> bool
    ensures { result ≡ (nat_le 32 b && nat_le b 126) }
{
    (FIRST_LETTER..=LAST_LETTER).contains(&b)
}

// The walk over the ten bytes of a name ends at the first that is wrong.
fn check_letters(quay: Quay, row: u16) -> Result<(), Fault>
    ensures { result ≡ up_to (letter quay row) 10 }
{
    let spot = Spot {
        part: Part::Quays,
        row,
        at: 16 * (1 + row as u32) + 6,
    };
    for (i, letter) in quay.name.iter().enumerate() {
        spot.require(is_letter(*letter), Refusal::OutOfLimits, i as u16)?;
    }
    Ok(())
}

pub fn check_quay(quay: Quay, row: u16) -> Result<(), Fault>
    ensures { result ≡ quay_of quay row }
{
    let spot = Spot {
        part: Part::Quays,
        row,
        at: 16 * (1 + row as u32),
    };
    spot.require(quay.change <= LAST_MINUTE, Refusal::OutOfLimits, 4)?;
    check_letters(quay, row)
}

// The quays of an entry: both of the book, apart, and none to leave below that of the entry before.
pub(crate) fn check_ends(
    from: u16,
    to: u16,
    before: u16,
    quays: u16,
    spot: Spot,
) -> Result<(), Fault>
    ensures { result ≡ ends_are from to before quays spot.part spot.row spot.at }
{
    spot.require(from < quays, Refusal::OutOfLimits, 8)?;
    spot.require(before <= from, Refusal::FromFalls, 8)?;
    spot.require(to < quays && to != from, Refusal::OutOfLimits, 10)
}

fn check_times(s: Sailing, spot: Spot) -> Result<(), Fault>
    ensures { result ≡ times_are s spot.part spot.row spot.at }
{
    spot.require(s.dep <= LAST_MINUTE, Refusal::OutOfLimits, 12)?;
    spot.require(s.arr <= LAST_MINUTE, Refusal::OutOfLimits, 14)
}

// A sailing of a printed book with so many quays, after one that leaves the quay `before`.
pub fn check_sailing(s: Sailing, before: u16, quays: u16, row: u16) -> Result<(), Fault>
    ensures { result ≡ sailing_of s before quays row (entry_at 16 quays row) }
{
    let spot = Spot {
        part: Part::Entries,
        row,
        at: 16 * (1 + quays as u32) + 16 * row as u32,
    };
    check_ends(s.from, s.to, before, quays, spot)?;
    check_times(s, spot)
}
