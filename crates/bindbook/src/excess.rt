// What a timetable has too many of.
#[derive(Clone, Copy, PartialEq, Debug)]
pub(crate) enum Excess {
    Quays,
    Sailings,
}
