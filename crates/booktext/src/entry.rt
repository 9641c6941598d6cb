use image::quay::Quay;
use timetable::sailing::Sailing;

// What a line says, if it says anything.
#[derive(Clone, Copy, PartialEq, Debug)]
pub enum Entry {
    Quay(Quay),
    Sailing(Sailing),
}

// Why a line cannot be read. A number tells how many bytes of the line were read before.
#[derive(Clone, Copy, PartialEq, Debug)]
pub enum LineFault {
    NoWord,
    NoNumber(usize),
    NoTime(usize),
    LongName,
    Surplus(usize),
}
