//! That a departure list leaves nothing open.
ghost use Rattle.std.specs.Prelude.{Decides};
ghost use Rattle.departures.specs.Laws.{OneList};

// Whether one list only can be told. It is so: the contract asks for the proof.
pub fn lists_are_decided() -> bool
    ensures { Decides result OneList }
{
    true
}
