//! The earliest departure from a quay of any book.
ghost use Rattle.std.specs.Prelude.{◌≡◌, ◌-◌, length, min, Ok};
ghost use Rattle.std.specs.List.{filter_map, reduce, range_with_len};
ghost use Rattle.timetable.specs.Timetables.{place_at};
ghost use Rattle.timetable.specs.Answers.{span_of};
ghost use Rattle.console.specs.Told.{departure, soonest, call_check, told_in};

use timetable::book::Book;
use timetable::limits::LAST_MINUTE;
use timetable::refusal::Refusal;
use timetable::sailing::Sailing;
use timetable::span::Span;

// The bytes that a departure takes.
const WIDTH: usize = 4;

// The next departure of what stands at a place, if that is a sailing from the quay.
fn departing(found: Option<Sailing>, quay: u16, minute: u16) -> Option<u32>
    ensures { result ≡ departure found quay minute }
{
    let s = found?;
    if s.from == quay {
        Some(s.next_departure(minute as u32) as u32)
    } else {
        None
    }
}

// (Book, quay and minute go through three short functions; a struct of them is no plainer.)
// The earliest departure of the sailings at the places of a span.
fn earliest_at<B: Book>(book: &B, span: Span, quay: u16, minute: u16) -> Option<u32>
    ensures { result ≡ reduce min (filter_map (λ p. departure (place_at (B.meaning book.now) p) quay minute) (range_with_len span.start (span.end - span.start))) }
{
    (span.start..span.end)
        .filter_map(|place| departing(book.sailing_at(place), quay, minute))
        .min()
}

// Every sailing from a quay stands within its span, so no other place is asked for.
fn earliest_within<B: Book>(book: &B, span: Span, quay: u16, minute: u16) -> Option<u32>
    requires { Ok span ≡ span_of (B.meaning book.now) quay }
    ensures { result ≡ soonest (B.meaning book.now).places quay minute (length (B.meaning book.now).places) }
{
    earliest_at(book, span, quay, minute)
}

// What is asked of the minute and of the room for the answer.
fn check_call(minute: u16, room: usize) -> Result<(), Refusal>
    ensures { result ≡ call_check minute room }
{
    if minute > LAST_MINUTE {
        return Err(Refusal::LateMinute);
    }
    if room < WIDTH {
        return Err(Refusal::ShortBuffer);
    }
    Ok(())
}

// The earliest departure from a quay, if any sailing leaves it.
pub(crate) fn earliest_in<B: Book>(
    book: &B,
    quay: u16,
    minute: u16,
    room: usize,
) -> Result<Option<u32>, Refusal>
    ensures { result ≡ told_in (B.meaning book.now) quay minute room }
{
    let span = book.span(quay)?;
    check_call(minute, room)?;
    Ok(earliest_within(book, span, quay, minute))
}
