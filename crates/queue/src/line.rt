ghost use Rattle.std.specs.Prelude.{◌≡◌, ℕ, ◌≤◌, List, length, Option};
ghost use Rattle.queue.specs.Lines.{most_items, idle, set_in, set_answer, Takes};

use timetable::refusal::Refusal;

// A waiting line by what it means: for each of its items, from 0 on, the key with which it waits, or none.
// How many items it has never changes.
pub trait Line {
    ghost keys: { Self → List (Option ℕ) };

    ghost few: { (l : Self) → length (keys l) ≤ most_items };

    fn size(&self) -> u16
        ensures { result ≡ length (keys self.now) };

    // Makes the item wait with this key, whether it waited before or not.
    fn set(&mut self, item: u16, key: u32) -> Result<(), Refusal>
        ensures answer { result ≡ set_answer (keys self.old) item }
        ensures after { keys self.new ≡ set_in (keys self.old) item key };

    // Removes the item of least key, the lowest item among equals, and tells it with its key.
    fn take(&mut self) -> Option<(u16, u32)>
        ensures { Takes (keys self.old) result (keys self.new) };

    // Removes all items.
    fn clear(&mut self)
        ensures { keys self.new ≡ idle (length (keys self.old)) };
}
