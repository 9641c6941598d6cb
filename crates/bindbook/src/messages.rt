//! What is told of a timetable of which no book comes.
use crate::excess::Excess;
use binder::unbound::Unbound;
use booktext::entry::LineFault;
use std::error::Error;
use std::fmt;
use timetable::refusal::Refusal;

// Why no book comes of a timetable.
#[derive(Clone, Copy, Debug)]
pub(crate) enum Failure {
    // a line cannot be read
    Unreadable { line: u64, fault: LineFault },
    // the line is one quay or one sailing too many; the binder would tell so of the heading
    Overfull { line: u64, excess: Excess },
    // the binder refused, and a line may be to blame
    Refused { line: Option<u64>, unbound: Unbound },
}

impl fmt::Display for Failure {
    fn fmt<W: fmt::Write>(&self, f: &mut fmt::Formatter<W>) -> fmt::Result {
        match *self {
            Failure::Unreadable { line, fault } => {
                write!(f, "line {line}: ")?;
                tell_fault(f, fault)
            }
            Failure::Overfull { line, excess } => {
                write!(f, "line {line}: ")?;
                tell_excess(f, excess)
            }
            Failure::Refused { line, unbound } => {
                if let Some(line) = line {
                    write!(f, "line {line}: ")?;
                }
                tell_refusal(f, unbound)
            }
        }
    }
}

impl Error for Failure {}

fn tell_fault<W: fmt::Write>(f: &mut fmt::Formatter<W>, fault: LineFault) -> fmt::Result {
    match fault {
        LineFault::NoWord => write!(f, "begins with neither quay nor sailing"),
        LineFault::NoNumber(at) => write!(f, "no number after byte {at}"),
        LineFault::NoTime(at) => write!(f, "no time after byte {at}"),
        LineFault::LongName => write!(f, "the name is longer than 10 bytes"),
        LineFault::Surplus(at) => write!(f, "something follows byte {at}"),
    }
}

fn tell_excess<W: fmt::Write>(f: &mut fmt::Formatter<W>, excess: Excess) -> fmt::Result {
    let number = Refusal::OutOfLimits.number();
    match excess {
        Excess::Quays => write!(
            f,
            "more than 256 quays: refusal {number} at byte 4, part 1, row 0"
        ),
        Excess::Sailings => write!(
            f,
            "more than 3072 sailings: refusal {number} at byte 6, part 1, row 0"
        ),
    }
}

fn tell_refusal<W: fmt::Write>(f: &mut fmt::Formatter<W>, unbound: Unbound) -> fmt::Result {
    let number = unbound.refusal().number();
    write!(f, "refusal {number}")?;
    if let Unbound::Faulty(fault) = unbound {
        let byte = fault.byte;
        let part = fault.part.number();
        let row = fault.row;
        write!(f, " at byte {byte}, part {part}, row {row}")?;
    }
    Ok(())
}
