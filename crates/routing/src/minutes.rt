//! Departures and lengths in 32 bits, without a branch.
ghost use Rattle.std.specs.Prelude.{◌≡◌, ◌^◌, ◌<◌, ◌≤◌};
ghost use Rattle.timetable.specs.Times.{day, length_of, next};

use timetable::limits::MINUTES_OF_DAY;
use timetable::sailing::Sailing;

const DAY: u32 = MINUTES_OF_DAY as u32;

// (A function, since its clauses are the two cases, which a sum of the byte of a test does not tell.)
// 1 if the first minute is before the second, else 0.
fn before(first: u16, second: u16) -> u32
    ensures one { result ≤ 1 }
    ensures yes { result ≡ 1 → first < second }
    ensures other { result ≡ 0 → second ≤ first }
{
    u32::from(first < second)
}

// The minutes from departure to arrival.
pub(crate) fn minutes_of(s: Sailing) -> u32
    requires { (s.dep < day) × (s.arr < day) }
    ensures { result ≡ length_of s }
{
    u32::from(s.arr) + DAY * before(s.arr, s.dep) - u32::from(s.dep)
}

// The next departure at or after the minute.
pub(crate) fn next_leave(s: Sailing, minute: u32) -> u32
    requires { (s.dep < day) × (minute < 2 ^ 31) }
    ensures { result ≡ next s minute }
{
    let of_day = (minute % DAY) as u16;
    minute + (u32::from(s.dep) + DAY * before(s.dep, of_day) - u32::from(of_day))
}
