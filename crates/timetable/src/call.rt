use crate::query::Query;

// What can be asked of a board: four notices with their run or quay, the thinning, and a route.
#[derive(Clone, Copy, PartialEq, Debug)]
pub enum Call {
    Withhold(u16),
    Release(u16),
    Shut(u16),
    Open(u16),
    Thin,
    Route(Query),
}
