//! Settling one place after another, the earliest arrival first, until the goal is reached.
ghost use Rattle.std.specs.Prelude.{◌≡◌, ℕ, ◌+◌, ◌<◌, ◌≤◌, length};
ghost use Rattle.routing.specs.declared.ride.Origin.TheVariants.{Via};
ghost use Rattle.routing.specs.Labels.{Linked};
ghost use Rattle.routing.specs.Relaxing.{Ready, Through, Opened};
ghost use Rattle.routing.specs.Turns.{SettledFirst, Going, Explored};

use crate::follow::follow_span;
use crate::label::Label;
use crate::relax::open_quay;
use crate::ride::{Origin, Ride};
use crate::trip::Trip;
use queue::line::Line;
use timetable::book::Book;
use timetable::span::Span;

// Settles the place that comes first in the line.
fn settle_first<L: Line>(line: &mut L, labels: &mut [Label]) -> Option<(u16, Ride)>
    requires { Linked labels.old (L.keys line.old) }
    ensures { SettledFirst labels.old result labels.new (L.keys line.new) }
{
    let (place, _) = line.take()?;
    let Label::Waiting(ride) = labels[place as usize] else {
        unreachable!()
    };
    labels[place as usize] = Label::Settled(ride);
    Some((place, ride))
}

// Goes on from a settled place: opens its quay, or follows its barge alone where the quay is open already.
fn go_on<B: Book, L: Line>(
    book: &B,
    line: &mut L,
    labels: &mut [Label],
    spans: &mut [Option<Span>],
    trip: Trip,
    place: u16,
    ride: Ride,
    change: u32,
)
    requires ready { Ready (B.meaning book.now) trip (Via place ride change) labels.old (L.keys line.old) }
    requires many { length (B.meaning book.now).changes ≤ length spans.old }
    requires opened { Opened (B.meaning book.now) trip labels.old spans.old ride.arrives }
    ensures through { Through (B.meaning book.now) trip (Via place ride change) labels.old labels.new (L.keys line.new) 0 (length (B.meaning book.now).places) }
    ensures opened { Opened (B.meaning book.now) trip labels.new spans.new ride.arrives }
{
    match spans[ride.sailing.to as usize] {
        Some(span) => follow_span(book, line, labels, trip, place, ride, change, span),
        None => open_quay(
            book,
            line,
            labels,
            spans,
            trip,
            Origin::Via {
                place,
                ride,
                change,
            },
        ),
    }
}

// Settles one waiting place after another and goes on from there, until one ends at the goal or nothing waits.
pub(crate) fn explore<B: Book, L: Line>(
    book: &B,
    line: &mut L,
    labels: &mut [Label],
    spans: &mut [Option<Span>],
    trip: Trip,
) -> Option<(u16, Ride)>
    requires { Going (B.meaning book.now) trip labels.old (L.keys line.old) spans.old }
    ensures { Explored (B.meaning book.now) trip result labels.new }
{
    'turns: while let Some((place, ride)) = settle_first(line, labels) {
        if ride.sailing.to == trip.to {
            return Some((place, ride));
        }
        let change = u32::from(book.change_at(ride.sailing.to)) + trip.extra;
        go_on(book, line, labels, spans, trip, place, ride, change);
    }
    None
}
