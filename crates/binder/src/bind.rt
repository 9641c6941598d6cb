//! Binding a printed book.
ghost use Rattle.std.specs.Prelude.{◌≡◌, ℕ, ◌+◌, ◌*◌, ◌<◌, ◌≤◌, length, take, is_ok, if◌then◌else◌, Ok};
ghost use Rattle.std.specs.List.{flat_map};
ghost use Rattle.image.specs.Layout.{quay_bytes, sailing_bytes};
ghost use Rattle.binder.specs.Binding.{written, bound, over, book_bytes, Holds, Faults, Accepts};

use crate::content::check_content;
use crate::records::{put_heading, put_rows};
use crate::unbound::Unbound;
use image::fault::Fault;
use image::quay::Quay;
use timetable::sailing::Sailing;

fn write_book(image: &mut [u8], quays: &[Quay], sailings: &[Sailing])
    requires { (length quays.now ≤ 256) × ((length sailings.now ≤ 3072) × (16 * (1 + length quays.now) + 16 * length sailings.now ≤ length image.old)) }
    ensures { image.new ≡ over (book_bytes quays.now sailings.now) image.old }
{
    put_heading(image, quays.len() as u16, sailings.len() as u16);
    put_rows(image, 16, quays);
    put_rows(image, 16 * (1 + quays.len()), sailings);
}

// The same with the value alone: the theorems about it are those of the public call.
fn bind_checked(quays: &[Quay], sailings: &[Sailing], image: &mut [u8]) -> Result<usize, Unbound>
    ensures value { result ≡ bound quays.now sailings.now (length image.old) }
    ensures buffer { image.new ≡ (if is_ok result then over (book_bytes quays.now sailings.now) image.old else image.old) }
{
    check_content(quays, sailings)?;
    let len = 16 * (1 + quays.len()) + 16 * sailings.len();
    if image.len() < len {
        return Err(Unbound::ShortImage);
    }
    write_book(image, quays, sailings);
    Ok(len)
}

// Binds a printed book: writes its image to the front of the buffer and tells the image's length. A refusal leaves the buffer.
pub fn bind(quays: &[Quay], sailings: &[Sailing], image: &mut [u8]) -> Result<usize, Unbound>
    ensures value { result ≡ bound quays.now sailings.now (length image.old) }
    ensures buffer { image.new ≡ (if is_ok result then over (book_bytes quays.now sailings.now) image.old else image.old) }
    ensures first { (e : Fault) → Faults result quays.now sailings.now e }
    ensures accepts { Accepts result quays.now sailings.now (length image.old) }
    ensures whole { (n : ℕ) → result ≡ Ok n → Holds (take n image.new) quays.now sailings.now }
{
    bind_checked(quays, sailings, image)
}
