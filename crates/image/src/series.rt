// Sailings a period apart, each of the run after that of the one before.
#[derive(Clone, Copy, PartialEq, Debug)]
pub struct Series {
    pub run: u16,
    pub leg: u16,
    pub from: u16,
    pub to: u16,
    pub first: u16,
    pub period: u16,
    pub count: u16,
    pub length: u16,
}
