//! How records get into the image.
ghost use Rattle.std.specs.Prelude.{◌≡◌, ℕ, ◌+◌, ◌*◌, ◌<◌, ◌≤◌, List, length, refl};
ghost use Rattle.std.specs.List.{flat_map};
ghost use Rattle.image.specs.Layout.{two, letters, heading_bytes, quay_bytes, sailing_bytes};
ghost use Rattle.binder.specs.Binding.{written};

use image::quay::Quay;
use timetable::sailing::Sailing;

// Writes bytes into a buffer from `at` on.
fn put(image: &mut [u8], at: usize, bytes: &[u8])
    requires { at + length bytes.now ≤ length image.old }
    ensures { image.new ≡ written at bytes.now image.old }
{
    image[at..at + bytes.len()].copy_from_slice(bytes);
}

// Writes numbers, each in two bytes.
fn put_numbers(image: &mut [u8], at: usize, numbers: &[u16])
    requires { at + 2 * length numbers.now ≤ length image.old }
    ensures { image.new ≡ written at (flat_map two numbers.now) image.old }
{
    for (i, n) in numbers.iter().enumerate() {
        put(image, at + 2 * i, &n.to_le_bytes());
    }
}

fn put_name(image: &mut [u8], at: usize, name: &[u8; 10])
    requires { at + 10 ≤ length image.old }
    ensures { image.new ≡ written at (letters name.now) image.old }
{
    put(image, at, name);
}

pub(crate) fn put_heading(image: &mut [u8], quays: u16, sailings: u16)
    requires { 16 ≤ length image.old }
    ensures { image.new ≡ written 0 (heading_bytes 1 quays sailings) image.old }
{
    put_numbers(image, 0, &[14, 1, quays, sailings, 0, 0, 0, 0]);
}

// What stands in a record of sixteen bytes.
pub(crate) trait Row: Copy {
    ghost bytes: { Self → List ℕ };

    fn put(self, image: &mut [u8], at: usize)
        requires { at + 16 ≤ length image.old }
        ensures { image.new ≡ written at (bytes self) image.old };

    ghost sized: { (r : Self) → length (bytes r) ≡ 16 };
}

impl Row for Quay {
    ghost bytes = { quay_bytes };

    ghost sized = { λ q. refl };

    fn put(self, image: &mut [u8], at: usize) {
        put_numbers(image, at, &[14, 3, self.change]);
        put_name(image, at + 6, &self.name);
    }
}

impl Row for Sailing {
    ghost bytes = { sailing_bytes };

    ghost sized = { λ s. refl };

    fn put(self, image: &mut [u8], at: usize) {
        put_numbers(
            image,
            at,
            &[
                14, 4, self.run, self.leg, self.from, self.to, self.dep, self.arr,
            ],
        );
    }
}

pub(crate) fn put_rows<R: Row>(image: &mut [u8], start: usize, rows: &[R])
    requires { start + 16 * length rows.now ≤ length image.old }
    ensures { image.new ≡ written start (flat_map R.bytes rows.now) image.old }
{
    for (i, row) in rows.iter().enumerate() {
        row.put(image, start + 16 * i);
    }
}
