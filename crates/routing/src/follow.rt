//! Following a barge: at a quay that is open, a later arrival betters only what continues it.
ghost use Rattle.std.specs.Prelude.{◌≡◌, ℕ, ◌+◌, ◌<◌, ◌≤◌, length, slice_set};
ghost use Rattle.routing.specs.declared.ride.Origin.TheVariants.{Via};
ghost use Rattle.routing.specs.Labels.{look, reach, waiting_of, Linked};
ghost use Rattle.routing.specs.Invariants.{Covers};
ghost use Rattle.routing.specs.Relaxing.{late, Ready, Through};

use crate::label::Label;
use crate::relax::relax_place;
use crate::ride::{Origin, Ride, ride_from};
use crate::trip::Trip;
use queue::line::Line;
use timetable::book::Book;
use timetable::span::Span;

// Relaxes one place after the ride that settled the place k, if its sailing waits and continues that ride.
// The quay is open, so that the book, which the labels are about, is not asked.
// Place, ride and change are no struct of their own: handed on as one value they are copied for each place, and a route takes up to a tenth longer.
fn follow<B: Book, L: Line>(
    book: &B,
    line: &mut L,
    labels: &mut [Label],
    trip: Trip,
    k: u16,
    ridden: Ride,
    change: u32,
    place: u16,
)
    requires ready { Ready (B.meaning book.now) trip (Via k ridden change) labels.old (L.keys line.old) }
    requires inside { place < length labels.old }
    requires late { Covers (B.meaning book.now) labels.old (late (B.meaning book.now) trip ridden.sailing.to ridden.arrives) 0 (length (B.meaning book.now).places) }
    ensures { Through (B.meaning book.now) trip (Via k ridden change) labels.old labels.new (L.keys line.new) place (place + 1) }
{
    if let Label::Waiting(waiting) = labels[place as usize] {
        if waiting.sailing.continues(ridden.sailing) {
            relax_place(
                line,
                labels,
                place,
                ride_from(
                    Origin::Via {
                        place: k,
                        ride: ridden,
                        change,
                    },
                    waiting.sailing,
                ),
            );
        }
    }
}

// Relaxes every place of the span whose sailing continues the ride that settled the place k. The quay is open.
pub(crate) fn follow_span<B: Book, L: Line>(
    book: &B,
    line: &mut L,
    labels: &mut [Label],
    trip: Trip,
    k: u16,
    ridden: Ride,
    change: u32,
    span: Span,
)
    requires ready { Ready (B.meaning book.now) trip (Via k ridden change) labels.old (L.keys line.old) }
    requires order { (span.start ≤ span.end) × (span.end ≤ length labels.old) }
    requires late { Covers (B.meaning book.now) labels.old (late (B.meaning book.now) trip ridden.sailing.to ridden.arrives) 0 (length (B.meaning book.now).places) }
    ensures { Through (B.meaning book.now) trip (Via k ridden change) labels.old labels.new (L.keys line.new) span.start span.end }
{
    for place in span.start..span.end {
        follow(book, line, labels, trip, k, ridden, change, place);
    }
}
