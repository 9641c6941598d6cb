//! What is told of a call, but for the choice among equally early journeys.
use board::calls::Answer;
use timetable::refusal::Refusal;

// An answer, with the arrival alone of a journey.
#[derive(Clone, Copy, PartialEq, Debug)]
pub(crate) enum Outcome {
    Notice(Result<(), Refusal>),
    Thinned(u16),
    Route(Result<Option<u32>, Refusal>),
}

impl From<Answer> for Outcome {
    fn from(answer: Answer) -> Outcome {
        match answer {
            Answer::Notice(notice) => Outcome::Notice(notice),
            Answer::Count(count) => Outcome::Thinned(count),
            Answer::Told(route) => Outcome::Route(route.map(|way| way.map(|found| found.arrival))),
        }
    }
}
