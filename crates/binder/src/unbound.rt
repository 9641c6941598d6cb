ghost use Rattle.std.specs.Prelude.{◌≡◌};
ghost use Rattle.binder.specs.Binding.{refusal_of};
ghost use Rattle.binder.specs.declared.unbound.Unbound.TheVariants.{Faulty};

use image::fault::Fault;
use timetable::refusal::Refusal;

// Why a book was not bound.
#[derive(Clone, Copy, PartialEq, Debug)]
pub enum Unbound {
    // what is wrong with it, told as the check of its image would tell it
    Faulty(Fault),
    // the buffer is shorter than the image
    ShortImage,
}

impl From<Fault> for Unbound {
    ghost from_gives = { λ f u. u ≡ Faulty f };

    fn from(fault: Fault) -> Unbound {
        Unbound::Faulty(fault)
    }
}

impl Unbound {
    pub fn refusal(self) -> Refusal
        ensures { result ≡ refusal_of self }
    {
        match self {
            Unbound::Faulty(fault) => fault.refusal,
            Unbound::ShortImage => Refusal::ShortBuffer,
        }
    }
}
