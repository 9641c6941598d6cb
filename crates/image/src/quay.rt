// A quay: the minutes that a change takes there, and its name in ten bytes, filled up with spaces.
#[derive(Clone, Copy, PartialEq, Debug)]
pub struct Quay {
    pub change: u16,
    pub name: [u8; 10],
}
