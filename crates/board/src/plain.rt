//! The plain board, fed the arguments of the calls alone.
ghost use Rattle.std.specs.Prelude.{Decides};
ghost use Rattle.board.specs.Plain.{PlainAgrees};

// Whether the plain board keeps what every right history says is withheld and shut. It does: the contract asks for the proof.
pub fn plain_board_agrees() -> bool
    ensures { Decides result PlainAgrees }
{
    true
}
