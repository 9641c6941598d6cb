//! Relaxing: every place that can be boarded from an origin gets its label.
ghost use Rattle.std.specs.Prelude.{◌≡◌, ℕ, ◌+◌, ◌<◌, ◌≤◌, length, slice_set};
ghost use Rattle.routing.specs.Labels.{look, gains, reach, Linked};
ghost use Rattle.routing.specs.Origins.{minute_of};
ghost use Rattle.routing.specs.Relaxing.{Ready, Through, Opened};

use crate::label::Label;
use crate::ride::{Origin, Ride, quay_of, ride_from};
use crate::trip::Trip;
use queue::line::Line;
use timetable::book::Book;
use timetable::span::Span;

// Whether the ride is better than what the label tells.
fn is_sooner(label: Label, ride: Ride) -> bool
    ensures { result ≡ gains label ride }
{
    match label {
        Label::Unseen => true,
        Label::Waiting(before) => ride.leaves < before.leaves,
        Label::Settled(_) => false,
    }
}

// Labels the place with the ride, if that is better.
pub(crate) fn relax_place<L: Line>(line: &mut L, labels: &mut [Label], place: u16, ride: Ride)
    requires inside { place < length labels.old }
    requires linked { Linked labels.old (L.keys line.old) }
    ensures after { labels.new ≡ slice_set labels.old place (reach (look labels.old place) ride) }
    ensures linked { Linked labels.new (L.keys line.new) }
{
    if is_sooner(labels[place as usize], ride) {
        labels[place as usize] = Label::Waiting(ride);
        let _ = line.set(place, ride.arrives);
    }
}

// Relaxes one place, if its sailing leaves the quay of the origin. Book, line, labels and trip go side by side here and above:
// over a struct of these loans each function would have to say besides that they are the same loans after it.
fn relax<B: Book, L: Line>(
    book: &B,
    line: &mut L,
    labels: &mut [Label],
    trip: Trip,
    origin: Origin,
    place: u16,
)
    requires { Ready (B.meaning book.now) trip origin labels.old (L.keys line.old) }
    ensures { Through (B.meaning book.now) trip origin labels.old labels.new (L.keys line.new) place (place + 1) }
{
    if let Some(s) = book.sailing_at(place) {
        if s.from == quay_of(origin) {
            relax_place(line, labels, place, ride_from(origin, s));
        }
    }
}

// Relaxes every place of the span.
fn relax_span<B: Book, L: Line>(
    book: &B,
    line: &mut L,
    labels: &mut [Label],
    trip: Trip,
    origin: Origin,
    span: Span,
)
    requires ready { Ready (B.meaning book.now) trip origin labels.old (L.keys line.old) }
    requires order { span.start ≤ span.end }
    ensures { Through (B.meaning book.now) trip origin labels.old labels.new (L.keys line.new) span.start span.end }
{
    for place in span.start..span.end {
        relax(book, line, labels, trip, origin, place);
    }
}

// Opens the quay of the origin: relaxes every place of its span, which is kept, so that the book is asked for no place again.
pub(crate) fn open_quay<B: Book, L: Line>(
    book: &B,
    line: &mut L,
    labels: &mut [Label],
    spans: &mut [Option<Span>],
    trip: Trip,
    origin: Origin,
)
    requires ready { Ready (B.meaning book.now) trip origin labels.old (L.keys line.old) }
    requires many { length (B.meaning book.now).changes ≤ length spans.old }
    requires opened { Opened (B.meaning book.now) trip labels.old spans.old (minute_of origin) }
    ensures through { Through (B.meaning book.now) trip origin labels.old labels.new (L.keys line.new) 0 (length (B.meaning book.now).places) }
    ensures opened { Opened (B.meaning book.now) trip labels.new spans.new (minute_of origin) }
{
    let quay = quay_of(origin);
    if let Ok(span) = book.span(quay) {
        relax_span(book, line, labels, trip, origin, span);
        spans[quay as usize] = Some(span);
    }
}
