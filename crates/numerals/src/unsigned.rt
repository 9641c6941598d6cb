//! The kinds of numbers that a line can tell.
ghost use Rattle.std.specs.Prelude.{◌≡◌, ℕ, ◌≤◌, cond, nat_lt, refl};
ghost use Rattle.std.proofs.Common.{lit≤};

// A type of numbers from 0 up. Its digits are few enough that what they write fits 64 bits.
pub trait Unsigned: Sized {
    const MOST_DIGITS: usize;

    // How many digits may write a number, and the greatest number.
    ghost MOST_DIGITS: { ℕ };

    ghost most: { ℕ };

    // The value of this type that stands for a number, and the number that a value stands for.
    ghost of: { ℕ → Self };

    ghost worth: { Self → ℕ };

    fn narrow(number: u64) -> Option<Self>
        ensures { result ≡ cond (nat_lt most number) None (Some (of number)) };

    ghost few: { MOST_DIGITS ≤ 10 };

    ghost told: { (n : ℕ) → worth (of n) ≡ n };

    ghost back: { (x : Self) → of (worth x) ≡ x };
}

impl Unsigned for u16 {
    const MOST_DIGITS: usize = 5;

    ghost MOST_DIGITS = { 5 };

    ghost most = { 65535 };

    ghost of = { λ n. n };

    ghost worth = { λ x. x };

    ghost few = { lit≤ tt };

    ghost told = { λ n. refl };

    ghost back = { λ x. refl };

    fn narrow(number: u64) -> Option<u16> {
        u16::try_from(number).ok()
    }
}

impl Unsigned for u32 {
    const MOST_DIGITS: usize = 10;

    ghost MOST_DIGITS = { 10 };

    ghost most = { 4294967295 };

    ghost of = { λ n. n };

    ghost worth = { λ x. x };

    ghost few = { lit≤ tt };

    ghost told = { λ n. refl };

    ghost back = { λ x. refl };

    fn narrow(number: u64) -> Option<u32> {
        u32::try_from(number).ok()
    }
}
