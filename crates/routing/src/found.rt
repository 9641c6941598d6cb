// A journey's arrival, and how many legs it has.
#[derive(Clone, Copy, PartialEq, Debug)]
pub struct Found {
    pub arrival: u32,
    pub legs: u16,
}
