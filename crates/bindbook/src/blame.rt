//! Which line of a timetable a fault is about.
ghost use Rattle.std.specs.Prelude.{◌≡◌, map};
ghost use Rattle.bindbook.specs.Blame.{row_of, blamed};

use crate::lined::Lined;
use image::fault::*;
use image::quay::Quay;
use timetable::sailing::Sailing;

fn line_at<T>(rows: &[Lined<T>], row: usize) -> Option<u64>
    ensures { result ≡ row_of (map (λ x. x.line) rows.now) row }
{
    rows.get(row).map(|lined| lined.line)
}

// The line of the quay or the sailing that is wrong.
pub(crate) fn blamed_line(
    fault: Fault,
    quays: &[Lined<Quay>],
    sailings: &[Lined<Sailing>],
) -> Option<u64>
    ensures { result ≡ blamed fault.part fault.row (map (λ x. x.line) quays.now) (map (λ x. x.line) sailings.now) }
{
    match fault.part {
        Part::Quays => line_at(quays, fault.row),
        Part::Entries => line_at(sailings, fault.row),
        Part::Heading | Part::End => None,
    }
}
