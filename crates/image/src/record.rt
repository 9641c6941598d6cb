//! Records of an image: the bytes of one, and what stands in them.
ghost use Rattle.std.specs.Prelude.{◌≡◌, ◌+◌, ◌-◌, ◌<◌, ◌≤◌, length, Ok};
ghost use Rattle.std.specs.Result.{result_map_both};
ghost use Rattle.image.specs.Kinds.{record_number};
ghost use Rattle.image.specs.Records.{number_at, quay_read, sailing_at, series_at};
ghost use Rattle.image.specs.Checks.{frame, from_before, kind_number};

use crate::fault::{Fault, Kind};
use crate::quay::Quay;
use crate::series::Series;
use crate::spot::Spot;
use timetable::refusal::Refusal;
use timetable::sailing::Sailing;

// The kinds of records, with their numbers. The first two are headings.
#[derive(Clone, Copy, PartialEq)]
pub(crate) enum RecordKind {
    Printed = 1,
    ClockFace = 2,
    Quay = 3,
    Sailing = 4,
    Series = 5,
}

// The kind of the heading of an image.
impl From<Kind> for RecordKind {
    ghost from_gives = { λ k r. record_number r ≡ kind_number k };

    fn from(kind: Kind) -> RecordKind {
        match kind {
            Kind::Printed => RecordKind::Printed,
            Kind::ClockFace => RecordKind::ClockFace,
        }
    }
}

impl RecordKind {
    pub(crate) fn number(self) -> u16
        ensures { result ≡ record_number self }
    {
        self as u16
    }
}

pub(crate) fn number_at(bytes: &[u8], at: usize) -> u16
    requires { at + 1 < length bytes.now }
    ensures { result ≡ number_at bytes.now at }
{
    u16::from_le_bytes([bytes[at], bytes[at + 1]])
}

// A record of an image, so wide: all its bytes are there.
#[derive(Clone, Copy)]
pub struct Record<'a, const WIDE: usize> {
    pub bytes: &'a [u8],
    pub at: usize,
    ghost whole: { at + WIDE ≤ length bytes.now },
}

// The record that is due at a spot: so wide, and of this kind.
pub(crate) fn check_frame<'a, const WIDE: usize>(
    bytes: &'a [u8],
    spot: Spot,
    kind: RecordKind,
) -> Result<Record<'a, WIDE>, Fault>
    requires { (4 ≤ WIDE) × (WIDE < 65536) }
    ensures frame { result_map_both (λ r. tt) (λ e. e) result ≡ frame bytes.now spot.at (WIDE - 2) (record_number kind) spot.part spot.row }
    ensures record { (r : Record WIDE) → result ≡ Ok r → (r.bytes.now ≡ bytes.now) × (r.at ≡ spot.at) }
{
    let at = spot.at as usize;
    spot.require(at + WIDE <= bytes.len(), Refusal::CutOff, 0)?;
    spot.require(
        number_at(bytes, at) as usize + 2 == WIDE,
        Refusal::NotDue,
        0,
    )?;
    spot.require(
        number_at(bytes, at + 2) == kind.number(),
        Refusal::NotDue,
        2,
    )?;
    Ok(Record { bytes, at })
}

impl<'a, const WIDE: usize> Record<'a, WIDE> {
    // The number in two bytes of the record, the low byte first.
    pub(crate) fn number(&self, field: usize) -> u16
        requires { field + 2 ≤ WIDE }
        ensures { result ≡ number_at self.now.bytes.now (self.now.at + field) }
    {
        number_at(self.bytes, self.at + field)
    }

    // The quay that the entry before this one leaves, and 0 at the first.
    pub(crate) fn from_before(&self, row: u16) -> u16
        requires { (WIDE ≤ self.now.at + 8) × (12 ≤ WIDE) }
        ensures { result ≡ from_before self.now.bytes.now row self.now.at WIDE }
    {
        if row == 0 {
            0
        } else {
            number_at(self.bytes, self.at + 8 - WIDE)
        }
    }
}

impl<'a> Record<'a, 16> {
    pub(crate) fn quay(&self) -> Quay
        ensures { result ≡ quay_read self.now.bytes.now self.now.at }
    {
        let mut name = [0u8; 10];
        name.copy_from_slice(&self.bytes[self.at + 6..self.at + 16]);
        Quay {
            change: self.number(4),
            name,
        }
    }

    pub fn sailing(&self) -> Sailing
        ensures { result ≡ sailing_at self.now.bytes.now self.now.at }
    {
        Sailing {
            run: self.number(4),
            leg: self.number(6),
            from: self.number(8),
            to: self.number(10),
            dep: self.number(12),
            arr: self.number(14),
        }
    }
}

impl<'a> Record<'a, 20> {
    pub fn series(&self) -> Series
        ensures { result ≡ series_at self.now.bytes.now self.now.at }
    {
        Series {
            run: self.number(4),
            leg: self.number(6),
            from: self.number(8),
            to: self.number(10),
            first: self.number(12),
            period: self.number(14),
            count: self.number(16),
            length: self.number(18),
        }
    }
}
