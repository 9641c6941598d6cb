//! What the plain table does. To take an item it looks through all of them.
ghost use Rattle.std.specs.Prelude.{◌≡◌, ℕ, ◌≤◌, length};
ghost use Rattle.queue.specs.Lines.{most_items, idle};
ghost use Rattle.queue.specs.Firsts.{better_of, FirstOf};
ghost use Rattle.queue.specs.Tables.{size_for, waiting, table_few};

use crate::keys::idle_keys;
use crate::line::Line;
use crate::table::Table;
use timetable::refusal::Refusal;

impl Table {
    // A table of this many items, none of which waits. It has 3,072 where more are asked for.
    pub fn new(size: u16) -> Table
        ensures { waiting result ≡ idle (size_for size) }
    {
        Table {
            keys: idle_keys(size),
        }
    }
}

impl Line for Table {
    ghost keys = { waiting };

    ghost few = { table_few };

    fn size(&self) -> u16 {
        self.keys.len() as u16
    }

    fn set(&mut self, item: u16, key: u32) -> Result<(), Refusal> {
        if item >= self.size() {
            return Err(Refusal::NoItem);
        }
        self.keys[usize::from(item)] = Some(key);
        Ok(())
    }

    fn take(&mut self) -> Option<(u16, u32)> {
        let (item, key) = first(&self.keys)?;
        self.keys[usize::from(item)] = None;
        Some((item, key))
    }

    fn clear(&mut self) {
        self.keys.fill(None);
    }
}

// The better of what was best before and an item after it: among equals the one before.
fn better(best: Option<(u16, u32)>, item: u16, key: u32) -> Option<(u16, u32)>
    ensures { result ≡ better_of best item key }
{
    match best {
        Some((_, least)) if least <= key => best,
        _ => Some((item, key)),
    }
}

// (A chain to `min_by_key` is no plainer: what the library says of equals does not name the lowest item.)
// The item to be taken first, with its key.
fn first(keys: &[Option<u32>]) -> Option<(u16, u32)>
    requires { length keys.now ≤ most_items }
    ensures { FirstOf keys.now result }
{
    let mut best = None;
    for (item, key) in keys.iter().enumerate() {
        if let Some(key) = *key {
            best = better(best, item as u16, key);
        }
    }
    best
}
