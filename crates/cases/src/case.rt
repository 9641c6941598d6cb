// One worked case: the change time of quay 1 in the worked book, a quay that is shut, what is asked, the earliest arrival, and a plan that makes it.
use timetable::query::{Leg, Query};

#[derive(Clone, Copy)]
pub struct Case {
    pub change: u16,
    pub shut: Option<u16>,
    pub query: Query,
    pub arrival: Option<u32>,
    pub plan: &'static [Leg],
}
