//! The first labels.
ghost use Rattle.std.specs.Prelude.{◌≡◌, ℕ, ◌≤◌, length, None, slice_index_or};
ghost use Rattle.routing.specs.Turns.{Asked, Going};

use crate::label::Label;
use crate::relax::open_quay;
use crate::ride::Origin;
use crate::trip::Trip;
use queue::line::Line;
use timetable::book::Book;
use timetable::span::Span;

// Labels the places that leave from the start, and no others.
pub(crate) fn prepare<B: Book, L: Line>(
    book: &B,
    line: &mut L,
    labels: &mut [Label],
    spans: &mut [Option<Span>],
    trip: Trip,
)
    requires asked { Asked (B.meaning book.now) trip labels.old (L.keys line.old) }
    requires many { 256 ≤ length spans.old }
    requires closed { (v : ℕ) → slice_index_or spans.old v None ≡ None }
    ensures { Going (B.meaning book.now) trip labels.new (L.keys line.new) spans.new }
{
    labels.fill(Label::Unseen);
    line.clear();
    open_quay(
        book,
        line,
        labels,
        spans,
        trip,
        Origin::Start {
            quay: trip.from,
            minute: trip.minute,
        },
    );
}
