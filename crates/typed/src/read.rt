//! One typed line.
ghost use Rattle.std.specs.Prelude.{◌≡◌};
ghost use Rattle.typed.specs.Commands.{letter_in, command_of};
ghost use Rattle.typed.specs.Saying.{Says};

use crate::fields::*;
use timetable::call::Call;
use timetable::refusal::Refusal;

const LONGEST_LINE: usize = 64;

// The letter of a line that is not too long.
pub fn letter(line: &[u8]) -> Result<u8, Refusal>
    ensures { result ≡ letter_in line.now }
{
    if line.len() > LONGEST_LINE {
        return Err(Refusal::LongLine);
    }
    line.first().copied().ok_or(Refusal::NoLetter)
}

fn command(line: &[u8]) -> Result<Call, Refusal>
    ensures { result ≡ command_of line.now }
{
    match letter(line)? {
        b'W' => Ok(Call::Withhold(one_number(line)?)),
        b'R' => Ok(Call::Release(one_number(line)?)),
        b'S' => Ok(Call::Shut(one_number(line)?)),
        b'O' => Ok(Call::Open(one_number(line)?)),
        b'T' => {
            if line.len() > 1 {
                return Err(Refusal::Surplus);
            }
            Ok(Call::Thin)
        }
        b'Q' => Ok(Call::Route(query(line)?)),
        _ => Err(Refusal::NoLetter),
    }
}

// What a line asks for, without its ending. What is wrong is told in the order of the line: its length, its letter, its numbers, its end.
#[tactic(auto, using(crate::proofs::Sayings::says))]
pub fn read_command(line: &[u8]) -> Result<Call, Refusal>
    ensures value { result ≡ command_of line.now }
    ensures exact { Says line.now result }
{
    command(line)
}
