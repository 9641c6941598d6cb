ghost use Rattle.std.specs.Prelude.{◌≡◌, length};
ghost use Rattle.timetable.specs.Timetables.{Timetable, Lawful, change_at, place_at, span_at};
ghost use Rattle.timetable.specs.Answers.{change_of, place_of, span_of};

use crate::refusal::Refusal;
use crate::sailing::Sailing;
use crate::span::Span;

// A book by what it means. Each question has one answer for each meaning, and asking changes nothing.
pub trait Book {
    ghost meaning: { Self → Timetable };

    ghost lawful: { (b : Self) → Lawful (meaning b) };

    fn quays(&self) -> u16
        ensures { result ≡ length (meaning self.now).changes };

    fn places(&self) -> u16
        ensures { result ≡ length (meaning self.now).places };

    fn change(&self, quay: u16) -> Result<u16, Refusal>
        ensures { result ≡ change_of (meaning self.now) quay };

    fn place(&self, place: u16) -> Result<Option<Sailing>, Refusal>
        ensures { result ≡ place_of (meaning self.now) place };

    fn span(&self, quay: u16) -> Result<Span, Refusal>
        ensures { result ≡ span_of (meaning self.now) quay };

    // The same where nothing is asked of the row: no such quay takes no minutes to change,
    fn change_at(&self, quay: u16) -> u16
        ensures { result ≡ change_at (meaning self.now) quay }
    {
        self.change(quay).unwrap_or(0)
    }

    // no such place has no sailing,
    fn sailing_at(&self, place: u16) -> Option<Sailing>
        ensures { result ≡ place_at (meaning self.now) place }
    {
        self.place(place).unwrap_or(None)
    }

    // and no such quay has no places.
    fn span_at(&self, quay: u16) -> Span
        ensures { result ≡ span_at (meaning self.now) quay }
    {
        self.span(quay).unwrap_or(Span { start: 0, end: 0 })
    }
}
