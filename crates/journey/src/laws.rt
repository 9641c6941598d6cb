//! The laws of journeys, by which routes, thinning and plans reason of them.
ghost use Rattle.std.specs.Prelude.{Decides};
ghost use Rattle.journey.specs.Laws.{JourneyLaws};

// Whether the laws of journeys hold. They do: the contract asks for their proof.
pub fn journeys_are_lawful() -> bool
    ensures { Decides result JourneyLaws }
{
    true
}
