//! The marking of the dominated sailings.
ghost use Rattle.std.specs.Prelude.{◌≡◌, ℕ, ◌<◌, false, Some, None, slice_index_or};
ghost use Rattle.std.specs.List.{list_any};
ghost use Rattle.timetable.specs.Hiding.{hide};
ghost use Rattle.thinning.specs.Dominance.{dominated, mark_of, dominated_in};
ghost use Rattle.thinning.specs.Thinning.{marked, Keeps};
ghost use Rattle.thinning.specs.Weights.{row_outranks};

use crate::standing::Standing;
use crate::weighing::{MOST_ROWS, Weighed, read, weigh};
use arrayvec::ArrayVec;
use tables::marks::Marks;
use timetable::book::Book;

fn some_outranks(rows: &[Option<Standing>], q: Standing) -> bool
    ensures { result ≡ list_any (row_outranks q) rows.now }
{
    rows.iter().any(|row| row.is_some_and(|p| p.outranks(q)))
}

impl<B: Book> Weighed<'_, B> {
    // Only what leaves the same quay can outrank q, so its span alone is looked through.
    fn is_dominated(&self, q: Standing) -> bool
        requires { slice_index_or self.now.rows.now q.place None ≡ Some q }
        ensures { result ≡ dominated (B.Book.meaning self.now.book.now) q.place q.sailing }
    {
        let span = self.book.span_at(q.sailing.from);
        some_outranks(&self.rows[span.start as usize..span.end as usize], q)
    }

    // Whether what stands at a place, as its row says, is dominated.
    fn is_to_mark(&self, place: usize, row: Option<Standing>) -> bool
        requires { slice_index_or self.now.rows.now place None ≡ row }
        ensures { result ≡ mark_of (B.Book.meaning self.now.book.now) place }
    {
        // a match: a proof learns nothing of a closure that calls a method with a `requires`
        match row {
            Some(q) => self.is_dominated(q),
            None => false,
        }
    }

    fn mark(&self, marks: &mut Marks) -> u16
        ensures exact { (p : ℕ) → slice_index_or marks.new.at p false ≡ mark_of (B.Book.meaning self.now.book.now) p }
        ensures count { result ≡ dominated_in (B.Book.meaning self.now.book.now) }
    {
        marks.erase();
        let mut count = 0;
        for (place, row) in self.rows.iter().enumerate() {
            if self.is_to_mark(place, *row) {
                marks.mark(place as u16);
                count += 1;
            }
        }
        count
    }
}

fn mark_dominated<B: Book>(book: &B, marks: &mut Marks) -> u16
    ensures exact { (p : ℕ) → slice_index_or marks.new.at p false ≡ mark_of (B.Book.meaning book.now) p }
    ensures count { result ≡ dominated_in (B.Book.meaning book.now) }
{
    let mut places = ArrayVec::new();
    read(book, &mut places);
    let mut rows = [None; MOST_ROWS];
    weigh(book, &places, &mut rows);
    Weighed {
        book,
        rows: &rows[..places.len()],
    }
    .mark(marks)
}

// Marks the dominated sailings of a book and no other place, and tells how many they are. Whatever was marked before is forgotten.
pub fn thin<B: Book>(book: &B, marks: &mut Marks) -> u16
    ensures exact { (p : ℕ) → slice_index_or marks.new.at p false ≡ mark_of (B.Book.meaning book.now) p }
    ensures count { result ≡ dominated_in (B.Book.meaning book.now) }
    ensures keeps { Keeps (B.Book.meaning book.now) (hide (marked marks.new.at) (B.Book.meaning book.now)) }
{
    mark_dominated(book, marks)
}
