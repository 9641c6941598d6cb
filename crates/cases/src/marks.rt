//! What a thin marks in the worked book.
ghost use Rattle.cases.specs.Marks.{WorkedMarks};

// Whether the sailing at each place is dominated: the one at place 4 alone is.
pub fn worked_marks() -> [bool; 6]
    ensures { WorkedMarks result }
{
    [false, false, false, false, true, false]
}
