//! The laws of waiting lines, by which two lines of one meaning do the same.
ghost use Rattle.std.specs.Prelude.{Decides};
ghost use Rattle.queue.specs.Laws.{LineLaws};

// Whether the laws of waiting lines hold. They do: the contract asks for their proof.
pub fn lines_are_lawful() -> bool
    ensures { Decides result LineLaws }
{
    true
}
