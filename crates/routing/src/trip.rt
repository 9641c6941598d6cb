//! Trips: queries as they are looked for.
ghost use Rattle.std.specs.Prelude.{◌≡◌};
ghost use Rattle.routing.specs.Trips.{trip_of};

use timetable::classes::class_minutes;
use timetable::query::Query;

// What a query asks for, with its class of cargo as the minutes that it adds to each change.
#[derive(Clone, Copy)]
pub struct Trip {
    pub from: u16,
    pub to: u16,
    pub minute: u32,
    pub extra: u32,
}

// A class that there is not adds no minutes.
impl From<Query> for Trip {
    fn from(query: Query) -> Trip
        ensures { result ≡ trip_of query }
    {
        Trip {
            from: query.from,
            to: query.to,
            minute: u32::from(query.minute),
            extra: u32::from(class_minutes(query.class).unwrap_or(0)),
        }
    }
}
