//! The laws of dominance, and the theorem of thinning.
ghost use Rattle.std.specs.Prelude.{Decides};
ghost use Rattle.thinning.specs.Thinning.{ThinningLaws};

// Whether the laws of thinning hold. They do: the contract asks for their proof.
pub fn thinning_is_lawful() -> bool
    ensures { Decides result ThinningLaws }
{
    true
}
