ghost use Rattle.std.specs.Prelude.{◌≡◌, ◌≤◌, true, length, is_ok};
ghost use Rattle.image.specs.Checks.{printed_check};
ghost use Rattle.image.specs.Records.{quays_in, entries_in, entry_at};

// A book over the bytes of a printed image. The bytes have passed the check, so no question about them can go wrong.
// A type of its own beside the clock-face book: what they share is `Image`. One type over a trait of layouts would name the check, the sailings,
// their laws and both readings of a place as members, for four methods.
#[derive(Clone, Copy)]
pub struct Printed<'a> {
    pub(crate) bytes: &'a [u8],
    ghost sound: { is_ok (printed_check bytes.now) ≡ true },
    // these two follow from the first, and stand here so that every read is seen to lie inside
    ghost long: { length bytes.now ≡ entry_at 16 (quays_in bytes.now) (entries_in bytes.now) },
    ghost few: { quays_in bytes.now ≤ 256 },
}
