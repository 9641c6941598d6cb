// A part of the row of places: those from `start` on and before `end`.
#[derive(Clone, Copy, PartialEq, Debug)]
pub struct Span {
    pub start: u16,
    pub end: u16,
}
