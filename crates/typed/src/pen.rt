//! Lines of answers, byte after byte.
ghost use Rattle.std.specs.Prelude.{◌≡◌, ◌+◌, ◌≤◌, ◌++◌, length};
ghost use Rattle.arrayvec.specs.ArrayVec.{array_vec_len};
ghost use Rattle.typed.specs.Digits.{digits};
ghost use Rattle.typed.specs.Lines.{line_with};

use arrayvec::ArrayVec;

// Room for a letter, six numbers of at most twenty digits, each after a space, and the ending.
const LONGEST_TEXT: usize = 128;

pub(crate) type Line = ArrayVec<u8, LONGEST_TEXT>;

// The digits of a number, the first of them before the last.
// A recursion, and no loop: division gives the last digit first.
fn put_digits(line: &mut Line, number: u64)
    requires { array_vec_len line.old + length (digits number) ≤ 128 }
    ensures { line.new.items ≡ line.old.items ++ digits number }
{
    if number >= 10 {
        put_digits(line, number / 10);
    }
    line.push(b'0' + (number % 10) as u8);
}

// A letter, the numbers, each after a space, and the ending.
pub(crate) fn line_with(letter: u8, numbers: &[u64]) -> Line
    requires { length numbers.now ≤ 6 }
    ensures { result.items ≡ line_with letter numbers.now }
{
    let mut line = Line::new();
    line.push(letter);
    for number in numbers {
        line.push(b' ');
        put_digits(&mut line, *number);
    }
    line.push(b'\n');
    line
}
