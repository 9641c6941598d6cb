//! Digits, and the numbers that they write.
ghost use Rattle.std.specs.Prelude.{◌≡◌, ◌≤◌, length};
ghost use Rattle.numerals.specs.Digits.{digit_run, decimal};

// How many digits the bytes begin with.
pub(crate) fn digit_run(bytes: &[u8]) -> usize
    ensures value { result ≡ digit_run bytes.now }
    ensures bound { result ≤ length bytes.now }
{
    bytes
        .iter()
        .take_while(|byte| byte.is_ascii_digit())
        .count()
}

// The number that digits write.
pub(crate) fn number_in(digits: &[u8]) -> u64
    requires { length digits.now ≤ 10 }
    ensures { result ≡ decimal digits.now }
{
    let mut value = 0u64;
    for byte in digits {
        value = value * 10 + u64::from(byte.saturating_sub(b'0'));
    }
    value
}
