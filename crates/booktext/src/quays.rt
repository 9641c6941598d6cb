//! Lines that tell a quay.
ghost use Rattle.std.specs.Prelude.{◌≡◌, ◌≤◌, length};
ghost use Rattle.booktext.specs.Quays.{filled, name_from, quay_of};

use crate::entry::LineFault;
use crate::fields::number;
use image::quay::Quay;

const LONGEST_NAME: usize = 10;

// A name in ten bytes, as a quay has it, filled up with spaces.
fn fill(name: &[u8]) -> [u8; 10]
    requires { length name.now ≤ 10 }
    ensures { result ≡ filled name.now }
{
    let mut letters = [b' '; 10];
    letters[..name.len()].copy_from_slice(name);
    letters
}

// The name after a quay's number: no bytes where the line ends, or what follows one space.
fn name_from(line: &[u8], at: usize) -> Result<[u8; 10], LineFault>
    ensures { result ≡ name_from line.now at }
{
    if at >= line.len() {
        return Ok([b' '; 10]);
    }
    if line[at] != b' ' {
        return Err(LineFault::Surplus(at));
    }
    let (_, name) = line.split_at(at + 1);
    if name.len() > LONGEST_NAME {
        return Err(LineFault::LongName);
    }
    Ok(fill(name))
}

pub(crate) fn quay_line(line: &[u8]) -> Result<Quay, LineFault>
    ensures { result ≡ quay_of line.now }
{
    let change = number(line, 4)?;
    let name = name_from(line, change.next)?;
    Ok(Quay {
        change: change.value,
        name,
    })
}
