// One line of an answer. A journey is told by a line with its arrival and the number of its legs, and then a line for each leg.
// A number of a refusal is any byte here: a Refusal in its place would ask more of who has one told.
#[derive(Clone, Copy)]
pub enum Text {
    Accepted,
    Thinned(u16),
    NoWay,
    Arrives {
        arrival: u32,
        legs: u16,
    },
    Leg {
        run: u16,
        leg: u16,
        from: u16,
        to: u16,
        leaves: u32,
        arrives: u32,
    },
    Refused(u8),
    BadImage {
        number: u8,
        byte: usize,
    },
}
