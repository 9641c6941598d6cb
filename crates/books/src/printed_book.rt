//! Printed books: a record for each sailing, by the quay that it leaves.
ghost use Rattle.std.specs.Prelude.{◌≡◌, ℕ, ◌+◌, ◌<◌, ◌≤◌, List, [], length, is_ok, if◌then◌else◌, Ok};
ghost use Rattle.std.specs.Result.{result_map_both};
ghost use Rattle.timetable.specs.Answers.{asked};
ghost use Rattle.timetable.specs.declared.refusal.Refusal.TheVariants.{NoQuay};
ghost use Rattle.image.specs.Checks.{printed_check};
ghost use Rattle.image.specs.Records.{number_at, quays_in, entries_in, entry_at, quay_at, sailings_of};
ghost use Rattle.image.specs.Meanings.{below, printed};
ghost use Rattle.image.specs.Names.{names_in, Trims};
ghost use Rattle.image.specs.Openings.{OpensPrinted, blank_image};
ghost use Rattle.image.proofs.Prints.{printed_lawful};

use crate::printed::Printed;
use crate::reading::*;
use image::check::check_printed;
use timetable::book::Book;
use timetable::refusal::Refusal;
use timetable::sailing::Sailing;
use timetable::span::Span;

static BLANK: [u8; 32] = blank!(1);

impl<'a> Printed<'a> {
    // Opens an image. Bytes that are no printed image open as one nameless quay with no places.
    pub fn open(bytes: &'a [u8]) -> Printed<'a>
        ensures { OpensPrinted bytes.now (printed result.bytes.now) (names_in result.bytes.now) }
    {
        Printed::over(bytes)
    }

    fn over(bytes: &'a [u8]) -> Printed<'a>
        ensures { result.bytes.now ≡ (if is_ok (printed_check bytes.now) then bytes.now else blank_image 1) }
    {
        let Ok(()) = check_printed(bytes) else {
            return Printed { bytes: &BLANK };
        };
        Printed { bytes }
    }

    fn image(&self) -> Image<'a, 16>
        ensures { result.bytes.now ≡ self.now.bytes.now }
    {
        Image { bytes: self.bytes }
    }

    // The name of a quay, a part of the image without trailing spaces.
    pub fn name(&self, quay: u16) -> Result<&'a [u8], Refusal>
        ensures value { result_map_both (λ x. x.now) (λ e. e) result ≡ asked (names_in self.now.bytes.now) quay [] NoQuay }
        ensures trims { (n : List ℕ) → result_map_both (λ x. x.now) (λ e. e) result ≡ Ok n → Trims (quay_at self.now.bytes.now quay).name n }
    {
        self.image().name(quay)
    }

    // The quay that the sailing at a place leaves.
    fn from_at(&self, place: u16) -> u16
        requires { place < entries_in self.now.bytes.now }
        ensures { result ≡ number_at self.now.bytes.now (entry_at 16 (quays_in self.now.bytes.now) place + 8) }
    {
        number_at(self.bytes, self.image().record(place as usize).at + 8)
    }

    // How many sailings leave a quay below this one: found by halving, since they stand by quay.
    // They lie in bytes, and so in no slice that std could part.
    fn leaving_below(&self, quay: u32) -> u16
        ensures { result ≡ below quay (sailings_of self.now.bytes.now) }
    {
        let mut lo = 0u16;
        let mut hi = self.image().entries();
        while lo < hi {
            let mid = lo + (hi - lo) / 2;
            if (self.from_at(mid) as u32) < quay {
                lo = mid + 1;
            } else {
                hi = mid;
            }
        }
        lo
    }
}

impl<'a> Book for Printed<'a> {
    ghost meaning = { λ b. printed b.bytes.now };

    ghost lawful = { λ b. printed_lawful b.bytes.now b.sound };

    fn quays(&self) -> u16 {
        self.image().quays()
    }

    fn places(&self) -> u16 {
        self.image().entries()
    }

    fn change(&self, quay: u16) -> Result<u16, Refusal> {
        self.image().change(quay)
    }

    fn place(&self, place: u16) -> Result<Option<Sailing>, Refusal> {
        let image = self.image();
        if place >= image.entries() {
            return Err(Refusal::NoPlace);
        }
        Ok(Some(image.record(place as usize).sailing()))
    }

    fn span(&self, quay: u16) -> Result<Span, Refusal> {
        let row = self.image().quay(quay)? as u32;
        Ok(Span {
            start: self.leaving_below(row),
            end: self.leaving_below(row + 1),
        })
    }
}
