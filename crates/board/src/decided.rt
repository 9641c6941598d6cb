//! How far answers are decided.
ghost use Rattle.std.specs.Prelude.{Decides};
ghost use Rattle.board.specs.Decided.{AnswersDecided};

// Whether the calls before it decide each answer, but for the choice among equally early journeys. They do: the contract asks for the proof.
pub fn answers_are_decided() -> bool
    ensures { Decides result AnswersDecided }
{
    true
}
