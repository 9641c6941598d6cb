//! Where a load stands at the start, and after each leg.
ghost use Rattle.std.specs.Prelude.{◌≡◌};
ghost use Rattle.journey.specs.Journeys.{start, after};
ghost use Rattle.vet.specs.Standings.{stand_of};

use crate::standing::{Arrival, Standing};
use timetable::book::Book;
use timetable::query::Query;
use timetable::sailing::Sailing;

impl Standing {
    pub(crate) fn at_start(query: Query) -> Standing
        ensures { stand_of result ≡ start query.from query.minute }
    {
        Standing {
            quay: query.from,
            minute: u32::from(query.minute),
            came: None,
        }
    }

    // After the arrival with s, of cargo that adds `extra` minutes to each change.
    pub(crate) fn after_leg<B: Book>(book: &B, s: Sailing, arrives: u32, extra: u16) -> Standing
        ensures { stand_of result ≡ after (B.meaning book.now) extra s arrives }
    {
        Standing {
            quay: s.to,
            minute: arrives,
            came: Some(Arrival {
                sailing: s,
                change: u32::from(book.change_at(s.to)) + u32::from(extra),
            }),
        }
    }
}
