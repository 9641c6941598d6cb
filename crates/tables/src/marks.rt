//! A mark for each place of the largest book.
ghost use Rattle.std.specs.Prelude.{◌≡◌, Bool, true, false, length, replicate, if◌then◌else◌, slice_index_or, slice_set};

// All places have a mark, so no length stands beside them; memory is fixed, so that no thin fails for want of it.
#[derive(Drop)]
pub struct Marks {
    at: [bool; 3072],
    ghost wide: { length at ≡ 3072 },
}

impl Marks {
    pub fn new() -> Self
        ensures { result.at ≡ replicate 3072 false }
    {
        Marks { at: [false; 3072] }
    }

    // Marks hold only for the book in which they were made: after a notice that is accepted none are left.
    pub fn erase(&mut self)
        ensures { self.new.at ≡ replicate 3072 false }
    {
        self.at = [false; 3072];
    }

    // Marks a place; a place that no book has cannot be marked.
    pub fn mark(&mut self, place: u16)
        ensures { self.new.at ≡ slice_set self.old.at place true }
    {
        // an index: of what a `get_mut` of a slice leaves the proof finds nothing
        if (place as usize) < self.at.len() {
            self.at[place as usize] = true;
        }
    }

    pub fn holds(&self, place: u16) -> bool
        ensures { result ≡ slice_index_or self.now.at place false }
    {
        self.at.get(place as usize).copied().unwrap_or(false)
    }
}
