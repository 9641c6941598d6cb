ghost use Rattle.std.specs.Prelude.{◌≤◌, length};
ghost use Rattle.queue.specs.Lines.{most_items};

use crate::keys::Keys;

// A waiting line as a plain table: the key of each item.
#[derive(Drop)]
pub struct Table {
    pub(crate) keys: Keys,
    ghost few: { length keys.items ≤ most_items },
}
