//! The desk where a plan is read and vetted.
use plantext::read::{read_leg, read_query};
use std::alloc::{AllocError, AllocFailed};
use std::io;
use std::io::{BufRead, BufReader};
use timetable::book::Book;
use timetable::refusal::Refusal;
use vet::verdict::Verdict;
use vet::vet::vet;

// Why there is no verdict: a line or the query is refused, or the input or the memory failed.
#[derive(Drop)]
enum Stop {
    Refused(Refusal),
    Failed(anyhow::Error),
}

impl From<Refusal> for Stop {
    fn from(refusal: Refusal) -> Stop {
        Stop::Refused(refusal)
    }
}

impl From<io::Error> for Stop {
    fn from(error: io::Error) -> Stop {
        Stop::Failed(anyhow::Error::from(error))
    }
}

impl<T: Drop> From<AllocFailed<T>> for Stop {
    fn from(error: AllocFailed<T>) -> Stop {
        Stop::Failed(anyhow::Error::from(AllocError::from(error)))
    }
}

// Reads the next line without its ending, and tells whether there is one. At the end of the input the line is left empty.
// No split at byte 10: one buffer serves all lines of a long plan, where a `Vec` for each costs up to half as much again.
fn next_line<R: BufRead>(input: &mut R, line: &mut Vec<u8>) -> io::Result<bool> {
    line.clear();
    let count = input.read_until(b'\n', line)?;
    if line.last() == Some(&b'\n') {
        let _ = line.pop();
    }
    Ok(count > 0)
}

// Vets the plan that follows its query. A query that is refused is told before a leg is read, and an empty input is one empty line.
fn vet_input<B: Book>(rt: &HostRuntime, book: &B) -> Result<Verdict, Stop> {
    let mut input = BufReader::new(rt.alloc(), rt.stdin())?;
    let mut line = Vec::new(rt.alloc());
    let _ = next_line(&mut input, &mut line)?;
    let query = read_query(line.as_slice())?;
    query.check(book.quays())?;
    let mut plan = Vec::new(rt.alloc());
    for _ in 0..u64::MAX {
        if !next_line(&mut input, &mut line)? {
            break;
        }
        plan.push(read_leg(line.as_slice())?)?;
    }
    Ok(vet(book, query, plan.as_slice())?)
}

pub(crate) fn serve<B: Book + Drop>(rt: &HostRuntime, book: B) -> anyhow::Result<()> {
    match vet_input(rt, &book) {
        Ok(Verdict::Holds { arrival }) => println!(rt; "Y {arrival}")?,
        Ok(Verdict::Fails { leg, refusal }) => println!(rt; "X {leg} {}", refusal.number())?,
        Err(Stop::Refused(refusal)) => println!(rt; "E {}", refusal.number())?,
        Err(Stop::Failed(error)) => return Err(error),
    }
    Ok(())
}
