//! A heap of waiting items.
ghost use Rattle.std.specs.Prelude.{◌≡◌, ◌≤◌, [], length, take, replicate};
ghost use Rattle.std.specs.Iterator.{at_most};
ghost use Rattle.queue.specs.Lines.{most_items};
ghost use Rattle.heap.specs.Heaps.{AddsTo, TakesFrom, ReplacesIn};
ghost use Rattle.heapline.specs.Ranks.{rank_of_waiting};
ghost use Rattle.heapline.specs.Tallies.{Tallies};

use crate::entry::Waiting;
use heap::counted::Heap;
use timetable::refusal::Refusal;

// A heap with a row for each item of the longest line, so that a line never finds it full.
// A type of its own around the heap, and no alias: of an array that is a type's argument, no proof knows the length.
#[derive(Drop)]
pub struct WaitingHeap {
    pub(crate) heap: Heap<[Waiting; 3072]>,
    ghost long: { length heap.store ≡ most_items },
    ghost within: { heap.count ≤ most_items },
}

impl WaitingHeap {
    // A heap in which nothing waits.
    pub fn new() -> WaitingHeap
        ensures count { result.heap.count ≡ 0 }
        ensures rows { result.heap.store ≡ replicate most_items (record { key = 0; item = 0 }) }
    {
        WaitingHeap {
            heap: Heap::new([Waiting { key: 0, item: 0 }; 3072]),
        }
    }

    // How many wait.
    pub fn len(&self) -> usize
        ensures { result ≡ self.now.heap.count }
    {
        self.heap.len()
    }

    // Those that wait, in heap order.
    pub fn held(&self) -> &[Waiting]
        ensures { result.now ≡ take self.now.heap.count self.now.heap.store }
    {
        self.heap.held()
    }

    // Adds an item. Refused exactly if all rows are taken.
    pub fn add(&mut self, item: Waiting) -> Result<(), Refusal>
        ensures { AddsTo rank_of_waiting self.old.heap.store self.old.heap.count item self.new.heap.store self.new.heap.count result }
    {
        self.heap.add(item)
    }

    // Takes the item of least rank, if any waits.
    pub fn take_least(&mut self) -> Option<Waiting>
        ensures { TakesFrom rank_of_waiting self.old.heap.store self.old.heap.count self.new.heap.store self.new.heap.count result }
    {
        self.heap.take_least()
    }

    // Puts an item in the place of one that has this rank. Refused exactly if none has it.
    pub fn replace(&mut self, rank: u64, item: Waiting) -> Result<(), Refusal>
        ensures { ReplacesIn rank_of_waiting self.old.heap.store self.old.heap.count rank item self.new.heap.store self.new.heap.count result }
    {
        self.heap.replace(rank, item)
    }

    // Removes all items.
    pub fn clear(&mut self)
        ensures count { self.new.heap.count ≡ 0 }
        ensures rows { self.new.heap.store ≡ self.old.heap.store }
    {
        self.heap.clear();
    }
}

// The items, one of least rank after another.
impl Iterator for WaitingHeap {
    type Item = Waiting;

    ghost next_gives = { λ s r t. TakesFrom rank_of_waiting s.heap.store s.heap.count t.heap.store t.heap.count r };

    ghost remaining = { λ s. at_most s.heap.count };

    fn next(&mut self) -> Option<Waiting> {
        self.take_least()
    }
}

// Takes away the key of each item that waits: a step for each of them, and none for the others.
pub(crate) fn erase_keys(waiting: &[Waiting], keys: &mut [Option<u32>])
    requires { Tallies waiting.now keys.old }
    ensures { Tallies [] keys.new }
{
    for w in waiting {
        keys[usize::from(w.item)] = None;
    }
}
