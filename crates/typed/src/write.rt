//! One line of an answer, as bytes.
ghost use Rattle.std.specs.Prelude.{◌≡◌, ℕ, length};
ghost use Rattle.typed.specs.Digits.{digits, Spells};
ghost use Rattle.typed.specs.Lines.{line_of, length_in, written_over};

use crate::pen::*;
use crate::text::Text;
use timetable::refusal::Refusal;

fn compose(text: Text) -> Line
    ensures { result.items ≡ line_of text }
{
    match text {
        Text::Accepted => line_with(b'K', &[]),
        Text::Thinned(count) => line_with(b'T', &[u64::from(count)]),
        Text::NoWay => line_with(b'N', &[]),
        Text::Arrives { arrival, legs } => {
            line_with(b'A', &[u64::from(arrival), u64::from(legs)])
        }
        Text::Leg {
            run,
            leg,
            from,
            to,
            leaves,
            arrives,
        } => line_with(
            b'L',
            &[
                u64::from(run),
                u64::from(leg),
                u64::from(from),
                u64::from(to),
                u64::from(leaves),
                u64::from(arrives),
            ],
        ),
        Text::Refused(number) => line_with(b'E', &[u64::from(number)]),
        Text::BadImage { number, byte } => line_with(b'E', &[u64::from(number), byte as u64]),
    }
}

// Writes a line with its ending to the front of what is lent, and tells its length. What does not fit is not begun.
// The buffer is lent, with no Vec in its place: who has no heap can be answered too.
pub fn write_line(text: Text, line: &mut [u8]) -> Result<usize, Refusal>
    ensures answer { result ≡ length_in (line_of text) (length line.old) }
    ensures after { line.new ≡ written_over (line_of text) line.old }
    ensures spelled { (n : ℕ) → Spells n (digits n) }
{
    let composed = compose(text);
    let bytes = composed.as_slice();
    let len = bytes.len();
    if len > line.len() {
        return Err(Refusal::ShortBuffer);
    }
    line[..len].copy_from_slice(bytes);
    Ok(len)
}
