//! Hiding sailings of a timetable: what every layer over a book does.
ghost use Rattle.std.specs.Prelude.{Decides};
ghost use Rattle.timetable.specs.Hiding.{HidingLaws};

// Whether the laws of hiding hold. They do: the contract asks for their proof.
#[tactic(auto, using(crate::proofs::HidingLemmas::hiding_laws))]
pub fn hiding_is_lawful() -> bool
    ensures { Decides result HidingLaws }
{
    true
}
