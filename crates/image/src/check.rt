//! The check of a whole image.
ghost use Rattle.std.specs.Prelude.{◌≡◌, is_ok, Decides};
ghost use Rattle.image.specs.Checks.{up_to, entry, ending, kind_check, kind_of, printed_check, clock_check, image_check};
ghost use Rattle.image.specs.Images.{PrintedOf, ClockOf, Tells, OneContent};
ghost use Rattle.image.specs.Faults.{PrintedWrong, ClockWrong, Wrong, Told};

use crate::clock_face::check_all_series;
use crate::fault::*;
use crate::heading::{check_heading, check_quays};
use crate::printed::check_sailings;
use crate::record::{RecordKind, number_at};
use crate::spot::Spot;
use timetable::refusal::Refusal;

fn check_entries(bytes: &[u8], kind: Kind, quays: u16, entries: u16) -> Result<(), Fault>
    ensures { result ≡ up_to (entry kind bytes.now quays) entries }
{
    match kind {
        Kind::Printed => check_sailings(bytes, quays, entries),
        Kind::ClockFace => check_all_series(bytes, quays, entries),
    }
}

// No bytes follow the last record.
fn check_ending(bytes: &[u8], end: u32) -> Result<(), Fault>
    ensures { result ≡ ending bytes.now end }
{
    let spot = Spot {
        part: Part::End,
        row: 0,
        at: end,
    };
    spot.require(bytes.len() == end as usize, Refusal::BytesFollow, 0)
}

// The check of an image as one of a kind.
fn judge_as(bytes: &[u8], kind: Kind) -> Result<(), Fault>
    ensures { result ≡ kind_check kind bytes.now }
{
    check_heading(bytes, kind)?;
    let quays = number_at(bytes, 4);
    let entries = number_at(bytes, 6);
    check_quays(bytes, quays)?;
    check_entries(bytes, kind, quays, entries)?;
    let wide = kind.entry_wide() as u32;
    check_ending(bytes, 16 * (1 + quays as u32) + wide * entries as u32)
}

// Passes exactly the images of printed books, and else tells the first thing that is wrong with the bytes as such an image.
pub fn check_printed(bytes: &[u8]) -> Result<(), Fault>
    ensures value { result ≡ printed_check bytes.now }
    ensures exact { Decides (is_ok result) (PrintedOf bytes.now) }
    ensures first { (e : Fault) → Told result (PrintedWrong bytes.now) e }
{
    judge_as(bytes, Kind::Printed)
}

// Passes exactly the images of clock-face books, and else tells the first thing that is wrong with the bytes as such an image.
pub fn check_clock_face(bytes: &[u8]) -> Result<(), Fault>
    ensures value { result ≡ clock_check bytes.now }
    ensures exact { Decides (is_ok result) (ClockOf bytes.now) }
    ensures first { (e : Fault) → Told result (ClockWrong bytes.now) e }
{
    judge_as(bytes, Kind::ClockFace)
}

// An image whose heading says so is judged as a clock-face image, and any other as a printed one.
fn kind_of(image: &[u8]) -> Kind
    ensures { result ≡ kind_of image.now }
{
    if image.len() >= 4 && number_at(image, 2) == RecordKind::ClockFace.number() {
        Kind::ClockFace
    } else {
        Kind::Printed
    }
}

fn judge(image: &[u8]) -> Result<Kind, Fault>
    ensures { result ≡ image_check image.now }
{
    let kind = kind_of(image);
    judge_as(image, kind)?;
    Ok(kind)
}

// Tells the kind of an image that is allowed, and else the first thing that is wrong with it.
pub fn check_image(bytes: &[u8]) -> Result<Kind, Fault>
    ensures value { result ≡ image_check bytes.now }
    ensures exact { Tells bytes.now result }
    ensures first { (e : Fault) → Told result (Wrong bytes.now) e }
{
    judge(bytes)
}

// Whether no bytes are the image of two contents. They are not: the contract asks for the proof.
pub fn holds_one_content() -> bool
    ensures { Decides result OneContent }
{
    true
}
