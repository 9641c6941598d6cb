//! Images of printed books: a record for each sailing.
ghost use Rattle.std.specs.Prelude.{◌≡◌};
ghost use Rattle.image.specs.Checks.{sailing, up_to};

use crate::content::check_sailing;
use crate::fault::*;
use crate::record::{RecordKind, check_frame};
use crate::spot::Spot;

// The sailing of a row.
fn check_sailing_at(bytes: &[u8], quays: u16, row: u16) -> Result<(), Fault>
    ensures { result ≡ sailing bytes.now quays row }
{
    let spot = Spot {
        part: Part::Entries,
        row,
        at: 16 * (1 + quays as u32) + 16 * row as u32,
    };
    let record = check_frame::<16>(bytes, spot, RecordKind::Sailing)?;
    check_sailing(record.sailing(), record.from_before(row), quays, row)
}

// Over row numbers, since the records lie in bytes: there is no slice of them.
pub(crate) fn check_sailings(bytes: &[u8], quays: u16, entries: u16) -> Result<(), Fault>
    ensures { result ≡ up_to (sailing bytes.now quays) entries }
{
    for row in 0..entries {
        check_sailing_at(bytes, quays, row)?;
    }
    Ok(())
}
