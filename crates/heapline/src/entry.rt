ghost use Rattle.std.specs.Prelude.{◌+◌, ◌*◌};

use heap::ranked::{Ranked, rank_by};

// An item that waits with a key.
#[derive(Clone, Copy)]
pub struct Waiting {
    pub key: u32,
    pub item: u16,
}

// By key, and among equal keys by item: no two items rank alike.
impl Ranked for Waiting {
    ghost rank_of = { λ w. w.key * 65536 + w.item };

    fn rank(&self) -> u64 {
        rank_by(self.key, self.item)
    }
}
