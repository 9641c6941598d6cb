//! One line of a plan.
ghost use Rattle.std.specs.Prelude.{◌≡◌};
ghost use Rattle.plantext.specs.Lines.{lettered, query_in, leg_of, query_line, leg_line};
ghost use Rattle.plantext.specs.Saying.{QuerySays, LegSays};

use timetable::call::Call;
use timetable::query::{Leg, Query};
use timetable::refusal::Refusal;
use typed::fields::number;
use typed::read::{letter, read_command};

// Whether the line is not too long, and begins with the letter that is due.
fn begins(line: &[u8], due: u8) -> Result<(), Refusal>
    ensures { result ≡ lettered line.now due }
{
    if letter(line)? != due {
        return Err(Refusal::NoLetter);
    }
    Ok(())
}

// The query of a command that asks for a route. No other command begins with its letter.
fn query_in(command: Call) -> Result<Query, Refusal>
    ensures { result ≡ query_in command }
{
    match command {
        Call::Route(query) => Ok(query),
        _ => Err(Refusal::NoLetter),
    }
}

// A query is typed as for a route.
fn query_line(line: &[u8]) -> Result<Query, Refusal>
    ensures { result ≡ query_line line.now }
{
    begins(line, b'Q')?;
    query_in(read_command(line)?)
}

// The three numbers of a leg, up to the end of the line.
fn leg_numbers(line: &[u8]) -> Result<Leg, Refusal>
    ensures { result ≡ leg_of line.now }
{
    let place = number::<u16>(line, 1)?;
    let leaves = number::<u32>(line, place.next)?;
    let arrives = number::<u32>(line, leaves.next)?;
    if arrives.next != line.len() {
        return Err(Refusal::Surplus);
    }
    Ok(Leg {
        place: place.value,
        leaves: leaves.value,
        arrives: arrives.value,
    })
}

fn leg_line(line: &[u8]) -> Result<Leg, Refusal>
    ensures { result ≡ leg_line line.now }
{
    begins(line, b'L')?;
    leg_numbers(line)
}

// The query of a plan, from its line without the ending: `Q from to minute class`.
// What is wrong is told in the order of the line: its length, its letter, its numbers, its end.
pub fn read_query(line: &[u8]) -> Result<Query, Refusal>
    ensures value { result ≡ query_line line.now }
    ensures says { QuerySays line.now result }
{
    query_line(line)
}

// A leg of a plan, from its line without the ending: `L place leaves arrives`. What is wrong is told in the same order.
pub fn read_leg(line: &[u8]) -> Result<Leg, Refusal>
    ensures value { result ≡ leg_line line.now }
    ensures says { LegSays line.now result }
{
    leg_line(line)
}
