//! Images of clock-face books: a record for each series of sailings.
ghost use Rattle.std.specs.Prelude.{◌≡◌, ◌+◌, ◌≤◌, Ok};
ghost use Rattle.std.specs.Result.{result_and};
ghost use Rattle.image.specs.Records.{number_at, entry_at};
ghost use Rattle.image.specs.Checks.{rhythm_is, keeps, counts_are, series, places_to, up_to};

use crate::content::check_ends;
use crate::fault::*;
use crate::record::{RecordKind, check_frame};
use crate::series::Series;
use crate::spot::Spot;
use timetable::limits::{LAST_MINUTE, MOST_PLACES};
use timetable::refusal::Refusal;

const MOST_MEMBERS: u16 = 1440;

fn check_rhythm(s: Series, spot: Spot) -> Result<(), Fault>
    ensures { result ≡ rhythm_is s spot.part spot.row spot.at }
{
    spot.require(s.first <= LAST_MINUTE, Refusal::OutOfLimits, 12)?;
    spot.require(
        s.period >= 1 && s.period <= LAST_MINUTE,
        Refusal::OutOfLimits,
        14,
    )
}

// Whether the last member of a series leaves on the first day, has a run and has a place.
fn all_kept(s: Series, before: u32) -> bool
    requires { before ≤ 3072 }
    ensures { result ≡ keeps s.run s.first s.period s.count before }
{
    s.first as u64 + (s.count as u64).saturating_sub(1) * s.period as u64 <= LAST_MINUTE as u64
        && (s.run as u32 + s.count as u32 <= 65536 && before + s.count as u32 <= MOST_PLACES as u32)
}

// The count and the length of a series, before whose members stand `before` others.
fn check_counts(s: Series, before: u32, spot: Spot) -> Result<(), Fault>
    requires { before ≤ 3072 }
    ensures { result ≡ counts_are s before spot.part spot.row spot.at }
{
    spot.require(
        s.count >= 1 && s.count <= MOST_MEMBERS,
        Refusal::OutOfLimits,
        16,
    )?;
    spot.require(all_kept(s, before), Refusal::SeriesLeaves, 16)?;
    spot.require(s.length <= LAST_MINUTE, Refusal::OutOfLimits, 18)
}

// The series of a row, and how many members it has.
fn check_series_at(bytes: &[u8], quays: u16, row: u16, before: u32) -> Result<u16, Fault>
    requires { (before ≤ 3072) × (before ≡ places_to bytes.now quays row) }
    ensures { result ≡ result_and (series bytes.now quays row) (Ok (number_at bytes.now (entry_at 20 quays row + 16))) }
{
    let spot = Spot {
        part: Part::Entries,
        row,
        at: 16 * (1 + quays as u32) + 20 * row as u32,
    };
    let record = check_frame::<20>(bytes, spot, RecordKind::Series)?;
    let s = record.series();
    check_ends(s.from, s.to, record.from_before(row), quays, spot)?;
    check_rhythm(s, spot)?;
    check_counts(s, before, spot)?;
    Ok(s.count)
}

// Over row numbers, since the records lie in bytes: there is no slice of them.
pub(crate) fn check_all_series(bytes: &[u8], quays: u16, entries: u16) -> Result<(), Fault>
    ensures { result ≡ up_to (series bytes.now quays) entries }
{
    let mut places = 0;
    for row in 0..entries {
        places += check_series_at(bytes, quays, row, places)? as u32;
    }
    Ok(())
}
