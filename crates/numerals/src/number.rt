//! Numbers.
ghost use Rattle.std.specs.Prelude.{◌≡◌, ◌+◌, ◌^◌, ◌<◌, ◌≤◌, length, IfSome};
ghost use Rattle.numerals.specs.Numbers.{numeral_from, numeral_at, Stands};
ghost use Rattle.numerals.specs.Fields.{Reads};

use crate::digits::*;
use crate::field::Field;
use crate::unsigned::Unsigned;

// The number that the bytes begin with. They stand in their line from `start` on.
fn numeral<T: Unsigned>(bytes: &[u8], start: usize) -> Option<Field<T>>
    requires { start + length bytes.now < 2 ^ 64 }
    ensures { result ≡ numeral_from T.of T.MOST_DIGITS T.most bytes.now start }
{
    let count = digit_run(bytes);
    if count == 0 || count > T::MOST_DIGITS {
        return None;
    }
    let (digits, _) = bytes.split_at(count);
    let value = T::narrow(number_in(digits))?;
    Some(Field {
        value,
        next: start + count,
    })
}

fn spaced_numeral<T: Unsigned>(line: &[u8], at: usize) -> Option<Field<T>>
    ensures { result ≡ numeral_at T.of T.MOST_DIGITS T.most line.now at }
{
    if at >= line.len() || line[at] != b' ' {
        return None;
    }
    let (_, rest) = line.split_at(at + 1);
    numeral(rest, at + 1)
}

// The number that stands from byte `at` of a line on: one space, then as many digits as a number of this type may have and no further one, and at most the greatest.
// For 16 bits these are one to five digits and 65,535, and for 32 bits one to ten and 4,294,967,295.
pub fn number_field<T: Unsigned>(line: &[u8], at: usize) -> Option<Field<T>>
    ensures value { result ≡ numeral_at T.of T.MOST_DIGITS T.most line.now at }
    ensures exact { (f : Field T) → Reads result f (Stands T.worth T.MOST_DIGITS T.most line.now at f) }
    ensures within { IfSome result (λ f. f.next ≤ length line.now) }
{
    spaced_numeral(line, at)
}
