//! The call itself: the answer as a code and four bytes.
ghost use Rattle.std.specs.Prelude.{◌≡◌, ℕ, ◌≤◌, List, ◌++◌, length, drop, Some, Ok};
ghost use Rattle.image.specs.Checks.{image_check};
ghost use Rattle.console.specs.Told.{told_of, code_of, left_by};
ghost use Rattle.console.specs.Answers.{four_bytes, Answers, OneAnswer};

use crate::earliest::earliest_in;
use books::opened::Opened;
use timetable::refusal::Refusal;

// The code of a departure. Every code but this and the next is the number of a refusal.
const LEAVES: u8 = 0;

// The code of a quay which no sailing leaves.
const NONE_LEAVES: u8 = 255;

fn earliest_of(image: &[u8], quay: u16, minute: u16, room: usize) -> Result<Option<u32>, Refusal>
    ensures value { result ≡ told_of (image_check image.now) image.now quay minute room }
    ensures fits { (m : ℕ) → result ≡ Ok (Some m) → 4 ≤ room }
{
    match Opened::open(image)? {
        Opened::Printed(book) => earliest_in(&book, quay, minute, room),
        Opened::ClockFace(book) => earliest_in(&book, quay, minute, room),
    }
}

// Puts the four bytes of a departure at the front of the buffer, the lowest first.
fn put(answer: &mut [u8], departure: u32)
    requires { 4 ≤ length answer.old }
    ensures { answer.new ≡ four_bytes departure ++ drop 4 answer.old }
{
    answer[..4].copy_from_slice(&departure.to_le_bytes());
}

fn tell(image: &[u8], quay: u16, minute: u16, answer: &mut [u8]) -> u8
    ensures code { result ≡ code_of (told_of (image_check image.now) image.now quay minute (length answer.old)) }
    ensures left { answer.new ≡ left_by (told_of (image_check image.now) image.now quay minute (length answer.old)) answer.old }
{
    match earliest_of(image, quay, minute, answer.len()) {
        Err(refusal) => refusal.number(),
        Ok(None) => NONE_LEAVES,
        Ok(Some(departure)) => {
            put(answer, departure);
            LEAVES
        }
    }
}

// The earliest departure, at or after a minute of the day, of any sailing from a quay.
pub fn canal_next_departure(image: &[u8], quay: u16, minute: u16, answer: &mut [u8]) -> u8
    ensures answers { Answers image.now quay minute answer.old answer.new result }
    ensures alone { OneAnswer image.now quay minute answer.old }
{
    tell(image, quay, minute, answer)
}
