//! The keys of a line's items.
ghost use Rattle.std.specs.Prelude.{◌≡◌};
ghost use Rattle.queue.specs.Lines.{idle};
ghost use Rattle.queue.specs.Tables.{size_for};

use arrayvec::ArrayVec;

// For each item the key with which it waits, or none.
pub type Keys = ArrayVec<Option<u32>, 3072>;

// The keys of this many items, none of which waits. There are 3,072 where more are asked for.
pub fn idle_keys(size: u16) -> Keys
    ensures { result.items ≡ idle (size_for size) }
{
    let mut keys = Keys::from([None; 3072]);
    keys.truncate(usize::from(size));
    keys
}
