//! What stands in the records of an image, and in which.
ghost use Rattle.std.specs.Prelude.{◌≡◌, ◌+◌, ◌<◌, ◌≤◌, [], length, take, drop, if◌then◌else◌, nat_lt, ◌==◌, Ok, Err};
ghost use Rattle.std.specs.List.{suffix_len};
ghost use Rattle.std.specs.Result.{result_map_both};
ghost use Rattle.timetable.specs.Answers.{asked};
ghost use Rattle.timetable.specs.declared.refusal.Refusal.TheVariants.{NoQuay};
ghost use Rattle.image.specs.Records.{number_at, quays_in, entries_in, quay_start, entry_at};
ghost use Rattle.image.specs.Meanings.{changes_of};
ghost use Rattle.image.specs.Names.{trimmed, names_in};

use image::record::Record;
use timetable::refusal::Refusal;

// The image of one nameless quay with no places, by the number of its kind.
macro_rules! blank {
    ($kind:literal) => {
        [
            14, 0, $kind, 0, 1, 0, 0, 0, 0, 0, 0, 0, 0, 0, 0, 0, 14, 0, 3, 0, 0, 0, 32, 32, 32, 32,
            32, 32, 32, 32, 32, 32,
        ]
    };
}

pub(crate) use blank;

// A public function asks nothing of its callers, so `image` can't lend its own.
pub(crate) fn number_at(bytes: &[u8], at: usize) -> u16
    requires { at + 1 < length bytes.now }
    ensures { result ≡ number_at bytes.now at }
{
    u16::from_le_bytes([bytes[at], bytes[at + 1]])
}

// How many spaces end a name.
fn spaces_after(name: &[u8]) -> usize
    ensures { result ≡ suffix_len (λ b. b == 32) name.now }
{
    name.iter().rev().take_while(|b| **b == 32).count()
}

// The name of ten bytes at a place, without its trailing spaces.
fn name_at<'a>(bytes: &'a [u8], at: usize) -> &'a [u8]
    requires { at + 10 ≤ length bytes.now }
    ensures { result.now ≡ trimmed (take 10 (drop at bytes.now)) }
{
    let name = &bytes[at..at + 10];
    let letters = name.len() - spaces_after(name);
    &name[..letters]
}

// The bytes of an image whose entries are so wide: just its heading, its quays and its entries.
#[derive(Clone, Copy)]
pub(crate) struct Image<'a, const WIDE: usize> {
    pub(crate) bytes: &'a [u8],
    ghost long: { length bytes.now ≡ entry_at WIDE (quays_in bytes.now) (entries_in bytes.now) },
    ghost few: { quays_in bytes.now ≤ 256 },
}

impl<'a, const WIDE: usize> Image<'a, WIDE> {
    pub(crate) fn quays(&self) -> u16
        ensures { result ≡ quays_in self.now.bytes.now }
    {
        number_at(self.bytes, 4)
    }

    pub(crate) fn entries(&self) -> u16
        ensures { result ≡ entries_in self.now.bytes.now }
    {
        number_at(self.bytes, 6)
    }

    // The row of a quay, if there is one.
    pub(crate) fn quay(&self, quay: u16) -> Result<usize, Refusal>
        ensures { result ≡ (if nat_lt quay (quays_in self.now.bytes.now) then Ok quay else Err NoQuay) }
    {
        if quay >= self.quays() {
            return Err(Refusal::NoQuay);
        }
        Ok(quay as usize)
    }

    pub(crate) fn change(&self, quay: u16) -> Result<u16, Refusal>
        ensures { result ≡ asked (changes_of self.now.bytes.now) quay 0 NoQuay }
    {
        let row = self.quay(quay)?;
        Ok(number_at(self.bytes, 16 * (1 + row) + 4))
    }

    // The name of a quay: a part of the image.
    pub(crate) fn name(&self, quay: u16) -> Result<&'a [u8], Refusal>
        ensures { result_map_both (λ x. x.now) (λ e. e) result ≡ asked (names_in self.now.bytes.now) quay [] NoQuay }
    {
        let row = self.quay(quay)?;
        Ok(name_at(self.bytes, 16 * (1 + row) + 6))
    }

    // The record of an entry.
    pub(crate) fn record(&self, row: usize) -> Record<'a, WIDE>
        requires { row < entries_in self.now.bytes.now }
        ensures bytes { result.bytes.now ≡ self.now.bytes.now }
        ensures at { result.at ≡ entry_at WIDE (quays_in self.now.bytes.now) row }
    {
        Record {
            bytes: self.bytes,
            at: 16 * (1 + self.quays() as usize) + WIDE * row,
        }
    }
}
