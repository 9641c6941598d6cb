ghost use Rattle.std.specs.Prelude.{◌≡◌, ◌≤◌, length, take};
ghost use Rattle.queue.specs.Lines.{most_items};
ghost use Rattle.heapline.specs.Tallies.{Tallies};

use crate::waiting::WaitingHeap;
use queue::keys::Keys;

// A waiting line as a heap, beside the key of each item.
// The keys tell whether an item waits, and with which rank it stands in the heap, without a look into the heap.
#[derive(Drop)]
pub struct HeapLine {
    pub(crate) waiting: WaitingHeap,
    pub(crate) keys: Keys,
    ghost few: { length keys.items ≤ most_items },
    // the heap has each item once at most, with its key, and no other
    ghost tallied: { Tallies (take waiting.heap.count waiting.heap.store) keys.items },
}
