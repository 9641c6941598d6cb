use timetable::refusal::Refusal;

// What is said of a plan. That it fails is an answer like the other, so this is no Result: it would stand in a Result again.
// One that fails does so at its first wrong leg, counted from 0;
// one whose legs are all right, but that ends elsewhere, fails at the number of its legs.
#[derive(Clone, Copy, PartialEq, Debug)]
pub enum Verdict {
    Holds { arrival: u32 },
    Fails { leg: usize, refusal: Refusal },
}
