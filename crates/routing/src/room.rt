use crate::label::Label;
use timetable::query::Leg;

// What a route is lent: a waiting line, a label for each place, and rows for the legs of the journey.
#[derive(Drop)]
pub struct Room<'a, L> {
    pub line: &'a mut L,
    pub labels: &'a mut [Label],
    pub legs: &'a mut [Leg],
}
