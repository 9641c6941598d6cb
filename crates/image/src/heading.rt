//! The heading and the quays, which both kinds of image have.
ghost use Rattle.std.specs.Prelude.{◌≡◌, ◌≤◌, length};
ghost use Rattle.image.specs.Checks.{quay, up_to, zero_byte, heading, kind_number, most_entries};

use crate::content::{check_quay, check_sizes};
use crate::fault::*;
use crate::record::{RecordKind, check_frame};
use crate::spot::Spot;
use timetable::refusal::Refusal;

fn check_zeros(bytes: &[u8]) -> Result<(), Fault>
    requires { 16 ≤ length bytes.now }
    ensures { result ≡ up_to (zero_byte bytes.now) 8 }
{
    let spot = Spot {
        part: Part::Heading,
        row: 0,
        at: 8,
    };
    for (i, b) in bytes[8..16].iter().enumerate() {
        spot.require(*b == 0, Refusal::OutOfLimits, i as u16)?;
    }
    Ok(())
}

pub(crate) fn check_heading(bytes: &[u8], kind: Kind) -> Result<(), Fault>
    ensures { result ≡ heading bytes.now (kind_number kind) (most_entries kind) }
{
    let spot = Spot {
        part: Part::Heading,
        row: 0,
        at: 0,
    };
    let record = check_frame::<16>(bytes, spot, RecordKind::from(kind))?;
    check_sizes(kind, record.number(4) as usize, record.number(6) as usize)?;
    check_zeros(bytes)
}

// The quay of a row.
fn check_quay_at(bytes: &[u8], row: u16) -> Result<(), Fault>
    ensures { result ≡ quay bytes.now row }
{
    let spot = Spot {
        part: Part::Quays,
        row,
        at: 16 * (1 + row as u32),
    };
    let record = check_frame::<16>(bytes, spot, RecordKind::Quay)?;
    check_quay(record.quay(), row)
}

// Over row numbers, since the records lie in bytes: there is no slice of them.
pub(crate) fn check_quays(bytes: &[u8], quays: u16) -> Result<(), Fault>
    ensures { result ≡ up_to (quay bytes.now) quays }
{
    for row in 0..quays {
        check_quay_at(bytes, row)?;
    }
    Ok(())
}
