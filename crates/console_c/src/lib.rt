//! The call of the gate console as C links it: a static library over the crate `console`.
#![tactic(auto)]

ghost use Rattle.console.specs.Answers.{Answers, OneAnswer};

// The earliest departure, at or after a minute of the day, of any sailing from a quay.
#[unsafe(no_mangle)]
pub extern "C" fn canal_next_departure(
    image: &[u8],
    quay: u16,
    minute: u16,
    answer: &mut [u8],
) -> u8
    ensures answers { Answers image.now quay minute answer.old answer.new result }
    ensures alone { OneAnswer image.now quay minute answer.old }
{
    console::call::canal_next_departure(image, quay, minute, answer)
}
