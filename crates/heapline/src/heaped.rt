//! What the heap line does.
ghost use Rattle.std.specs.Prelude.{◌≡◌, length};
ghost use Rattle.queue.specs.Lines.{idle};
ghost use Rattle.queue.specs.Tables.{size_for};
ghost use Rattle.heapline.specs.Lines.{keys_of, line_few, Places};

use crate::entry::Waiting;
use crate::line::HeapLine;
use crate::waiting::{WaitingHeap, erase_keys};
use heap::ranked::rank_by;
use queue::keys::idle_keys;
use queue::line::Line;
use timetable::refusal::Refusal;

impl HeapLine {
    // A line of this many items, none of which waits. It has 3,072 where more are asked for.
    pub fn new(size: u16) -> HeapLine
        ensures { keys_of result ≡ idle (size_for size) }
    {
        HeapLine {
            waiting: WaitingHeap::new(),
            keys: idle_keys(size),
        }
    }
}

impl Line for HeapLine {
    ghost keys = { keys_of };

    ghost few = { line_few };

    fn size(&self) -> u16 {
        self.keys.len() as u16
    }

    fn set(&mut self, item: u16, key: u32) -> Result<(), Refusal> {
        if item >= self.size() {
            return Err(Refusal::NoItem);
        }
        let before = self.keys[usize::from(item)];
        place(&mut self.waiting, before, Waiting { key, item })?;
        self.keys[usize::from(item)] = Some(key);
        Ok(())
    }

    fn take(&mut self) -> Option<(u16, u32)> {
        let first = self.waiting.take_least()?;
        self.keys[usize::from(first.item)] = None;
        Some((first.item, first.key))
    }

    fn clear(&mut self) {
        erase_keys(self.waiting.held(), &mut self.keys);
        self.waiting.clear();
    }
}

// Puts an item into the heap. Where it waits already, by this key, it takes its own place there.
fn place(waiting: &mut WaitingHeap, before: Option<u32>, item: Waiting) -> Result<(), Refusal>
    ensures { Places waiting.old.heap.store waiting.old.heap.count before item waiting.new.heap.store waiting.new.heap.count result }
{
    match before {
        Some(key) => waiting.replace(rank_by(key, item.item), item),
        None => waiting.add(item),
    }
}
