//! Times of the day.
ghost use Rattle.std.specs.Prelude.{◌≡◌, ℕ, ◌+◌, ◌<◌, ◌≤◌, length, IfSome};
ghost use Rattle.numerals.specs.Times.{two_from, clock_from, time_at, TimeOfDay};
ghost use Rattle.numerals.specs.Fields.{Reads};

use crate::field::Field;

const LAST_HOUR: u16 = 23;

const LAST_MINUTE: u16 = 59;

// The number that two digits write.
fn two_digits(line: &[u8], at: usize) -> Option<u16>
    requires { at + 1 < length line.now }
    ensures { result ≡ two_from line.now at }
{
    if !line[at].is_ascii_digit() || !line[at + 1].is_ascii_digit() {
        return None;
    }
    Some(u16::from(line[at] - b'0') * 10 + u16::from(line[at + 1] - b'0'))
}

// Hours and minutes, with one byte between them.
fn clock(line: &[u8], at: usize) -> Option<u16>
    requires { at + 4 < length line.now }
    ensures { result ≡ clock_from line.now at }
{
    let hours = two_digits(line, at)?;
    let minutes = two_digits(line, at + 3)?;
    if hours > LAST_HOUR || minutes > LAST_MINUTE {
        return None;
    }
    Some(60 * hours + minutes)
}

fn spaced_time(line: &[u8], at: usize) -> Option<Field<u16>>
    ensures { result ≡ time_at line.now at }
{
    if line.len() < 6 || at > line.len() - 6 || line[at] != b' ' || line[at + 3] != b':' {
        return None;
    }
    let value = clock(line, at + 1)?;
    Some(Field {
        value,
        next: at + 6,
    })
}

// The time of the day that stands from byte `at` of a line on, in minutes: one space, then HH:MM from 00:00 to 23:59.
pub fn time_field(line: &[u8], at: usize) -> Option<Field<u16>>
    ensures value { result ≡ time_at line.now at }
    ensures exact { (f : Field ℕ) → Reads result f (TimeOfDay line.now at f) }
    ensures within { IfSome result (λ f. f.next ≤ length line.now) }
{
    spaced_time(line, at)
}
