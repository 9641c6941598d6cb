//! Clock-face books: a record for each series of sailings, which are worked out when they are asked for.
ghost use Rattle.std.specs.Prelude.{◌≡◌, ℕ, ◌+◌, ◌-◌, ◌*◌, ◌<◌, ◌≤◌, List, [], map, length, is_ok, if◌then◌else◌, Some, None, Ok, nat_lt, slice_index_or};
ghost use Rattle.std.specs.Result.{result_map_both};
ghost use Rattle.timetable.specs.Answers.{asked};
ghost use Rattle.timetable.specs.declared.refusal.Refusal.TheVariants.{NoQuay};
ghost use Rattle.image.specs.Checks.{clock_check};
ghost use Rattle.image.specs.Records.{number_at, quays_in, entries_in, entry_at, quay_at, series_at};
ghost use Rattle.image.specs.Meanings.{below, member, clock_sailings, clock_face};
ghost use Rattle.image.specs.Names.{names_in, Trims};
ghost use Rattle.image.specs.Openings.{OpensClock, blank_image};
ghost use Rattle.image.proofs.Clocks.{clock_lawful};

use crate::clock_face::ClockFace;
use crate::reading::*;
use image::check::check_clock_face;
use image::series::Series;
use timetable::book::Book;
use timetable::refusal::Refusal;
use timetable::sailing::Sailing;
use timetable::span::Span;

static BLANK: [u8; 32] = blank!(2);

// Member k of a series.
fn member_of(s: Series, k: u16) -> Sailing
    requires { (s.run + k ≤ 65535) × (s.first + k * s.period ≤ 1439) }
    ensures { result ≡ member s k }
{
    let dep = s.first as u32 + k as u32 * s.period as u32;
    Sailing {
        run: s.run + k,
        leg: s.leg,
        from: s.from,
        to: s.to,
        dep: dep as u16,
        arr: ((dep + s.length as u32) % 1440) as u16,
    }
}

// How many members of a series leave a quay below this one.
fn counted(s: Series, quay: u32) -> u16
    ensures { result ≡ (if nat_lt s.from quay then s.count else 0) }
{
    if (s.from as u32) < quay { s.count } else { 0 }
}

impl<'a> ClockFace<'a> {
    // Opens an image. Bytes that are no clock-face image open as one nameless quay with no places.
    pub fn open(bytes: &'a [u8]) -> ClockFace<'a>
        ensures { OpensClock bytes.now (clock_face result.bytes.now) (names_in result.bytes.now) }
    {
        ClockFace::over(bytes)
    }

    fn over(bytes: &'a [u8]) -> ClockFace<'a>
        ensures { result.bytes.now ≡ (if is_ok (clock_check bytes.now) then bytes.now else blank_image 2) }
    {
        let Ok(()) = check_clock_face(bytes) else {
            return ClockFace { bytes: &BLANK };
        };
        ClockFace { bytes }
    }

    fn image(&self) -> Image<'a, 20>
        ensures { result.bytes.now ≡ self.now.bytes.now }
    {
        Image { bytes: self.bytes }
    }

    // The name of a quay, a part of the image without trailing spaces.
    pub fn name(&self, quay: u16) -> Result<&'a [u8], Refusal>
        ensures value { result_map_both (λ x. x.now) (λ e. e) result ≡ asked (names_in self.now.bytes.now) quay [] NoQuay }
        ensures trims { (n : List ℕ) → result_map_both (λ x. x.now) (λ e. e) result ≡ Ok n → Trims (quay_at self.now.bytes.now quay).name n }
    {
        self.image().name(quay)
    }

    // The series of a row.
    fn series(&self, row: usize) -> Series
        requires { row < entries_in self.now.bytes.now }
        ensures { result ≡ series_at self.now.bytes.now (entry_at 20 (quays_in self.now.bytes.now) row) }
    {
        self.image().record(row).series()
    }

    // How many members the series of a row has: all that a walk over the series has to read.
    fn members(&self, row: usize) -> u16
        requires { row < entries_in self.now.bytes.now }
        ensures { result ≡ number_at self.now.bytes.now (entry_at 20 (quays_in self.now.bytes.now) row + 16) }
    {
        number_at(self.bytes, self.image().record(row).at + 16)
    }

    // How many sailings leave a quay below this one. Over row numbers, since the series lie in bytes.
    fn leaving_below(&self, quay: u32) -> u16
        ensures { result ≡ below quay (clock_sailings self.now.bytes.now) }
    {
        let mut sum = 0u16;
        for row in 0..self.image().entries() as usize {
            sum += counted(self.series(row), quay);
        }
        sum
    }

    // The sailing at a place, if there is one: a member of the first series that reaches so far.
    // Over row numbers, since the series lie in bytes.
    fn member_at(&self, place: u16) -> Option<Sailing>
        ensures { result ≡ slice_index_or (map Some (clock_sailings self.now.bytes.now)) place None }
    {
        let mut left = place;
        for row in 0..self.image().entries() as usize {
            let count = self.members(row);
            if left < count {
                return Some(member_of(self.series(row), left));
            }
            left -= count;
        }
        None
    }
}

impl<'a> Book for ClockFace<'a> {
    ghost meaning = { λ b. clock_face b.bytes.now };

    ghost lawful = { λ b. clock_lawful b.bytes.now b.sound };

    fn quays(&self) -> u16 {
        self.image().quays()
    }

    // Every sailing leaves one of the quays.
    fn places(&self) -> u16 {
        self.leaving_below(self.image().quays() as u32)
    }

    fn change(&self, quay: u16) -> Result<u16, Refusal> {
        self.image().change(quay)
    }

    fn place(&self, place: u16) -> Result<Option<Sailing>, Refusal> {
        let sailing = self.member_at(place).ok_or(Refusal::NoPlace)?;
        Ok(Some(sailing))
    }

    fn span(&self, quay: u16) -> Result<Span, Refusal> {
        let row = self.image().quay(quay)? as u32;
        Ok(Span {
            start: self.leaving_below(row),
            end: self.leaving_below(row + 1),
        })
    }
}
