//! The vetting of a plan.
ghost use Rattle.std.specs.Prelude.{◌≡◌};
ghost use Rattle.vet.specs.Vetting.{verdict_on, vetted};
ghost use Rattle.vet.specs.Verdicts.{Vetted};

use crate::standing::Standing;
use crate::verdict::Verdict;
use timetable::book::Book;
use timetable::classes::class_minutes;
use timetable::query::{Leg, Query};
use timetable::refusal::Refusal;

// Follows the load along the legs, up to the first that is wrong.
fn walk<B: Book>(book: &B, query: Query, plan: &[Leg]) -> Verdict
    ensures { result ≡ verdict_on (B.meaning book.now) query plan.now }
{
    // a query that may be asked has a class
    let extra = class_minutes(query.class).unwrap_or(0);
    let mut here = Standing::at_start(query);
    for (k, leg) in plan.iter().enumerate() {
        match here.judge(book, *leg) {
            Ok(s) => here = Standing::after_leg(book, s, leg.arrives, extra),
            Err(refusal) => return Verdict::Fails { leg: k, refusal },
        }
    }
    if here.quay != query.to {
        return Verdict::Fails {
            leg: plan.len(),
            refusal: Refusal::EndsElsewhere,
        };
    }
    Verdict::Holds {
        arrival: here.minute,
    }
}

// Whether the plan is a journey for the query in the book, and then when it arrives; else its first wrong leg, with the lowest of the numbers that fit it.
// A query that is wrong is refused before the plan is read.
pub fn vet<B: Book>(book: &B, query: Query, plan: &[Leg]) -> Result<Verdict, Refusal>
    ensures value { result ≡ vetted (B.meaning book.now) query plan.now }
    ensures law { Vetted (B.meaning book.now) query plan.now result }
{
    query.check(book.quays())?;
    Ok(walk(book, query, plan))
}
