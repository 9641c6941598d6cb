use timetable::sailing::Sailing;

// What a load came with: the sailing, and the minutes of a change where it ends.
#[derive(Clone, Copy)]
pub struct Arrival {
    pub sailing: Sailing,
    pub change: u32,
}

// Where the load stands: the quay, and since which minute. At the start it came with nothing.
#[derive(Clone, Copy)]
pub struct Standing {
    pub quay: u16,
    pub minute: u32,
    pub came: Option<Arrival>,
}
