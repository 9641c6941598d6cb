//! What stands at each place of a book, weighed: a book may take long to answer, and each place is asked for once.
ghost use Rattle.std.specs.Prelude.{◌≡◌, ◌<◌, [], length, take};
ghost use Rattle.timetable.specs.Times.{continues, day};
ghost use Rattle.thinning.specs.Margins.{some_passes, margin};
ghost use Rattle.thinning.specs.Weights.{weight_of, standing_from, Weighs};

use crate::standing::{Standing, Weight};
use arrayvec::ArrayVec;
use timetable::book::Book;
use timetable::limits::MOST_PLACES;
use timetable::sailing::Sailing;

pub(crate) const MOST_ROWS: usize = MOST_PLACES as usize;

// The largest figure of a class of cargo.
const MOST: u16 = 45;

// A loop over numbers: a book is asked by the number of a place, and lends no row.
// The places are written where they lie, and so are the rows below: so many take long to move, which a small book pays too.
pub(crate) fn read<B: Book>(book: &B, places: &mut ArrayVec<Option<Sailing>, MOST_ROWS>)
    requires { places.old.items ≡ [] }
    ensures { places.new.items ≡ (B.Book.meaning book.now).places }
{
    for place in 0..book.places() {
        places.push(book.sailing_at(place));
    }
}

// Whether s continues what stands at some place.
fn continues_some(places: &[Option<Sailing>], s: Sailing) -> bool
    ensures { result ≡ some_passes (λ y. continues s y) places.now }
{
    places.iter().any(|y| y.is_some_and(|y| s.continues(y)))
}

// Whether what stands at some place continues s.
fn is_continued(places: &[Option<Sailing>], s: Sailing) -> bool
    ensures { result ≡ some_passes (λ y. continues y s) places.now }
{
    places.iter().any(|y| y.is_some_and(|y| y.continues(s)))
}

fn margin_of(aboard: bool, change: u16) -> u16
    requires { change < day }
    ensures { result ≡ margin aboard change }
{
    if aboard { change + MOST } else { 0 }
}

fn weight_of<B: Book>(book: &B, places: &[Option<Sailing>], s: Sailing) -> Weight
    requires { places.now ≡ (B.Book.meaning book.now).places }
    ensures { result ≡ weight_of (B.Book.meaning book.now) s }
{
    Weight {
        length: s.length(),
        before: margin_of(continues_some(places, s), book.change_at(s.from)),
        after: margin_of(is_continued(places, s), book.change_at(s.to)),
    }
}

fn standing_of<B: Book>(
    book: &B,
    places: &[Option<Sailing>],
    place: u16,
    x: Option<Sailing>,
) -> Option<Standing>
    requires { places.now ≡ (B.Book.meaning book.now).places }
    ensures { result ≡ standing_from (B.Book.meaning book.now) place x }
{
    let sailing = x?;
    Some(Standing {
        place,
        sailing,
        weight: weight_of(book, places, sailing),
    })
}

// What stands at each place, weighed, in the first rows. A plain array lies under them: an `ArrayVec` of so many is written three times over when it is made.
// A row is written by its number: of rows that `iter_mut` lends, a proof knows nothing afterwards.
pub(crate) fn weigh<B: Book>(book: &B, places: &[Option<Sailing>], rows: &mut [Option<Standing>])
    requires known { places.now ≡ (B.Book.meaning book.now).places }
    requires many { length rows.old ≡ 3072 }
    ensures { Weighs (B.Book.meaning book.now) (take (length places.now) rows.new) }
{
    for (place, x) in places.iter().enumerate() {
        rows[place] = standing_of(book, places, place as u16, *x);
    }
}

// A book, and what stands at each of its places, weighed. The rows are lent.
#[derive(Drop)]
pub(crate) struct Weighed<'a, B: Book> {
    pub(crate) book: &'a B,
    pub(crate) rows: &'a [Option<Standing>],
    ghost each: { Weighs (B.Book.meaning book.now) rows.now },
}
