//! Answers of the board as lines.
ghost use Rattle.std.specs.Prelude.{◌≡◌};
ghost use Rattle.canalroute.specs.Texts.{refusal_text, notice_text, route_text, first_text, leg_text};

use anyhow::{Context, anyhow};
use board::calls::Answer;
use routing::found::Found;
use std::io::Write;
use timetable::book::Book;
use timetable::query::Leg;
use timetable::refusal::Refusal;
use timetable::sailing::Sailing;
use typed::text::Text;
use typed::write::write_line;

// No line of an answer is longer.
const LONGEST_LINE: usize = 64;

// Functions, and no `From`: answers, refusals and lines are all types of other crates. Of the five that of a refusal could stand in `typed`,
// which would part it from the others and be no plainer.
pub(crate) fn refusal_text(refusal: Refusal) -> Text
    ensures { result ≡ refusal_text refusal }
{
    Text::Refused(refusal.number())
}

fn notice_text(answer: Result<(), Refusal>) -> Text
    ensures { result ≡ notice_text answer }
{
    match answer {
        Ok(()) => Text::Accepted,
        Err(refusal) => refusal_text(refusal),
    }
}

fn route_text(answer: Result<Option<Found>, Refusal>) -> Text
    ensures { result ≡ route_text answer }
{
    match answer {
        Ok(Some(found)) => Text::Arrives {
            arrival: found.arrival,
            legs: found.legs,
        },
        Ok(None) => Text::NoWay,
        Err(refusal) => refusal_text(refusal),
    }
}

// The line of an answer, or its first one.
fn first_text(answer: Answer) -> Text
    ensures { result ≡ first_text answer }
{
    match answer {
        Answer::Notice(notice) => notice_text(notice),
        Answer::Count(count) => Text::Thinned(count),
        Answer::Told(route) => route_text(route),
    }
}

fn leg_text(sailing: Sailing, leg: Leg) -> Text
    ensures { result ≡ leg_text sailing leg }
{
    Text::Leg {
        run: sailing.run,
        leg: sailing.leg,
        from: sailing.from,
        to: sailing.to,
        leaves: leg.leaves,
        arrives: leg.arrives,
    }
}

pub(crate) fn print_text(rt: &HostRuntime, text: Text) -> anyhow::Result<()> {
    let mut line = [0u8; LONGEST_LINE];
    let len = write_line(text, &mut line).map_err(|_| anyhow!("a line of an answer is too long"))?;
    rt.stdout().write_all(&line[..len])?;
    Ok(())
}

// Prints an answer: its line, and after that of a journey a line for each leg, read from the book.
pub(crate) fn print_answer<B: Book>(
    rt: &HostRuntime,
    book: &B,
    legs: &[Leg],
    answer: Answer,
) -> anyhow::Result<()> {
    print_text(rt, first_text(answer))?;
    if let Answer::Told(Ok(Some(found))) = answer {
        for leg in legs.iter().take(found.legs as usize) {
            let sailing = book
                .sailing_at(leg.place)
                .context("a leg of the journey is not in the book")?;
            print_text(rt, leg_text(sailing, *leg))?;
        }
    }
    Ok(())
}
