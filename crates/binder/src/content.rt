//! The check of quays and sailings that are to be bound.
ghost use Rattle.std.specs.Prelude.{◌≡◌, ◌≤◌, length};
ghost use Rattle.image.specs.Checks.{up_to};
ghost use Rattle.binder.specs.Content.{quay_row, sailing_row, content_check};

use image::content::{check_quay, check_sailing, check_sizes};
use image::fault::{Fault, Kind};
use image::quay::Quay;
use timetable::sailing::Sailing;

fn check_quays(quays: &[Quay]) -> Result<(), Fault>
    requires { length quays.now ≤ 256 }
    ensures { result ≡ up_to (quay_row quays.now) (length quays.now) }
{
    for (row, quay) in quays.iter().enumerate() {
        check_quay(*quay, row as u16)?;
    }
    Ok(())
}

fn check_sailings(quays: u16, sailings: &[Sailing]) -> Result<(), Fault>
    requires { length sailings.now ≤ 3072 }
    ensures { result ≡ up_to (sailing_row quays sailings.now) (length sailings.now) }
{
    let mut before = 0;
    for (row, sailing) in sailings.iter().enumerate() {
        check_sailing(*sailing, before, quays, row as u16)?;
        before = sailing.from;
    }
    Ok(())
}

// The first fault of the image that quays and sailings would make.
pub(crate) fn check_content(quays: &[Quay], sailings: &[Sailing]) -> Result<(), Fault>
    ensures { result ≡ content_check quays.now sailings.now }
{
    check_sizes(Kind::Printed, quays.len(), sailings.len())?;
    check_quays(quays)?;
    check_sailings(quays.len() as u16, sailings)
}
