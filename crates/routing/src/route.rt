//! The route: the earliest journey for a query.
ghost use Rattle.std.specs.Prelude.{◌≡◌, ℕ, ◌≤◌, length};
ghost use Rattle.routing.specs.Trips.{trip_of};
ghost use Rattle.routing.specs.Turns.{Asked};
ghost use Rattle.routing.specs.Route.{lent_in, SameRoom, Tells, Routed};

use crate::begin::prepare;
use crate::explore::explore;
use crate::found::Found;
use crate::label::Label;
use crate::legs::write_legs;
use crate::room::Room;
use crate::trip::Trip;
use queue::line::Line;
use timetable::book::Book;
use timetable::limits::MOST_QUAYS;
use timetable::query::{Leg, Query};
use timetable::refusal::Refusal;
use timetable::span::Span;

const QUAYS: usize = MOST_QUAYS as usize;

// An earliest journey between two quays, written to the first rows of `legs`.
fn find<B: Book, L: Line>(
    book: &B,
    line: &mut L,
    labels: &mut [Label],
    legs: &mut [Leg],
    query: Query,
) -> Option<Found>
    requires asked { Asked (B.meaning book.now) (trip_of query) labels.old (L.keys line.old) }
    requires room { length (B.meaning book.now).places ≤ length legs.old }
    ensures { Tells (B.meaning book.now) query legs.old legs.new result }
{
    let trip = Trip::from(query);
    let mut spans: [Option<Span>; QUAYS] = [None; QUAYS];
    prepare(book, line, labels, &mut spans, trip);
    let (last, ride) = explore(book, line, labels, &mut spans, trip)?;
    write_legs(labels, legs, last, ride);
    Some(Found {
        arrival: ride.arrives,
        legs: ride.depth,
    })
}

// An earliest journey for the query, or none where there is none. Its legs are the first rows of `legs`.
// Labels and the line are taken in any state, and left in any.
pub fn route<B: Book, L: Line>(
    book: &B,
    room: &mut Room<'_, L>,
    query: Query,
) -> Result<Option<Found>, Refusal>
    ensures routed { Routed (B.meaning book.now) query (lent_in L.keys room.old) (lent_in L.keys room.new) result }
    ensures same { SameRoom room.old room.new }
{
    query.check(book.quays())?;
    let places = usize::from(book.places());
    if room.labels.len() < places || room.legs.len() < places {
        return Err(Refusal::ShortBuffer);
    }
    if usize::from(room.line.size()) < places {
        return Err(Refusal::SmallLine);
    }
    if query.from == query.to {
        return Ok(Some(Found {
            arrival: u32::from(query.minute),
            legs: 0,
        }));
    }
    Ok(find(
        book,
        room.line,
        &mut room.labels[..places],
        room.legs,
        query,
    ))
}
