//! What a board answers.
use routing::found::Found;
use timetable::refusal::Refusal;

// A notice is accepted or refused, a thin tells a count, and a route is told or refused.
#[derive(Clone, Copy, PartialEq, Debug)]
pub enum Answer {
    Notice(Result<(), Refusal>),
    Count(u16),
    Told(Result<Option<Found>, Refusal>),
}
