//! Books opened from images: every question, and the names.
use crate::judging::*;
use crate::making::*;
use crate::worked::*;
use books::clock_face::ClockFace;
use books::printed::Printed;
use image::quay::Quay;
use image::series::Series;
use std::alloc::{AllocError, Global};
use std::process::Abort;
use std::test::Fail;
use timetable::book::Book;
use timetable::sailing::Sailing;
use timetable::span::Span;

// A book, of which this is said, has just these change times and sailings.
fn check_holds<B: Book>(
    rt: &impl Abort,
    said: &str,
    book: &B,
    quays: &[Quay],
    sailings: &[Sailing],
) -> Result<(), Fail> {
    assert_eq!(rt; usize::from(book.quays()), quays.len(), "{said}");
    assert_eq!(rt; usize::from(book.places()), sailings.len(), "{said}");
    for (number, quay) in (0..=65535u16).zip(quays) {
        assert_eq!(rt;
            numbered(book.change(number)),
            Ok(quay.change),
            "{said}: {number}"
        );
    }
    for (place, sailing) in (0..=65535u16).zip(sailings) {
        assert_eq!(rt;
            numbered(book.place(place)),
            Ok(Some(*sailing)),
            "{said}: {place}"
        );
    }
    check_spans(rt, said, book, sailings)?;
    check_out_of_range(rt, said, book);
    Ok(())
}

// Each span has exactly the sailings that leave its quay.
fn check_spans<B: Book>(
    rt: &impl Abort,
    said: &str,
    book: &B,
    sailings: &[Sailing],
) -> Result<(), Fail> {
    for quay in 0..book.quays() {
        let Ok(span) = book.span(quay) else {
            return Err(Fail::new("a quay has no span"));
        };
        assert!(rt;
            span.start <= span.end && span.end <= book.places(),
            "{said}: {quay}"
        );
        for (place, sailing) in (0..=65535u16).zip(sailings) {
            let inside = span.start <= place && place < span.end;
            assert_eq!(rt; inside, sailing.from == quay, "{said}: {place} of {quay}");
        }
    }
    Ok(())
}

fn check_out_of_range<B: Book>(rt: &impl Abort, said: &str, book: &B) {
    for quay in [book.quays(), book.quays().saturating_add(1), 32768, 65535] {
        assert_eq!(rt; numbered(book.change(quay)), Err(11), "{said}: {quay}");
        assert_eq!(rt; numbered(book.span(quay)), Err(11), "{said}: {quay}");
    }
    for place in [book.places(), book.places().saturating_add(1), 32768, 65535] {
        assert_eq!(rt; numbered(book.place(place)), Err(13), "{said}: {place}");
    }
}

// How many bytes of a name stand before its trailing spaces.
fn written_len(name: &[u8]) -> usize {
    name.iter()
        .rposition(|letter| *letter != 32)
        .map_or(0, |last| last.saturating_add(1))
}

// A printed book has the names of these quays.
fn check_names(rt: &impl Abort, book: &Printed<'_>, quays: &[Quay]) -> Result<(), Fail> {
    for (number, quay) in (0..=65535u16).zip(quays) {
        let Ok(name) = book.name(number) else {
            return Err(Fail::new("a quay has no name"));
        };
        let len = written_len(&quay.name);
        assert_eq!(rt; name.len(), len, "{}", number);
        assert!(rt; quay.name.starts_with(name), "{}", number);
    }
    Ok(())
}

// The bytes open as a printed book of just these quays and sailings.
pub(crate) fn check_opens(
    rt: &impl Abort,
    bytes: &[u8],
    quays: &[Quay],
    sailings: &[Sailing],
) -> Result<(), Fail> {
    let book = Printed::open(bytes);
    check_holds(rt, "a printed book", &book, quays, sailings)?;
    check_names(rt, &book, quays)
}

// One nameless quay with change time 0, and no places.
fn check_blank<B: Book>(rt: &impl Abort, said: &str, book: &B) -> Result<(), Fail> {
    check_holds(
        rt,
        said,
        book,
        &[Quay {
            change: 0,
            name: *b"          ",
        }],
        &[],
    )?;
    assert_eq!(rt;
        numbered(book.span(0)),
        Ok(Span { start: 0, end: 0 }),
        "{said}"
    );
    Ok(())
}

// The sailings of all series, one after the other.
fn expanded(heap: Global, all: &[Series]) -> Result<Vec<Sailing>, AllocError> {
    let mut sailings = Vec::new(heap);
    for s in all {
        let mut run = s.run;
        let mut dep = s.first;
        // each member follows from the one before
        for _ in 0..s.count {
            let arr = dep.saturating_add(s.length) % 1440;
            sailings.push(Sailing {
                run,
                leg: s.leg,
                from: s.from,
                to: s.to,
                dep,
                arr,
            })?;
            run = run.saturating_add(1);
            dep = dep.saturating_add(s.period);
        }
    }
    Ok(sailings)
}

#[test]
fn the_printed_book_holds_its_content(rt: HostRuntime) -> Result<(), Fail> {
    let bytes = printed_bytes(rt.alloc())?;
    let book = Printed::open(bytes.as_slice());
    check_holds(&rt, "the printed book", &book, &QUAYS, &SAILINGS)?;
    assert_eq!(rt; numbered(book.span(0)), Ok(Span { start: 0, end: 2 }));
    assert_eq!(rt; numbered(book.span(1)), Ok(Span { start: 2, end: 5 }));
    assert_eq!(rt; numbered(book.span(2)), Ok(Span { start: 5, end: 6 }));
    assert_eq!(rt; numbered(book.span(3)), Ok(Span { start: 6, end: 6 }));
    Ok(())
}

#[test]
fn the_clock_face_book_holds_its_members(rt: HostRuntime) -> Result<(), Fail> {
    let bytes = clock_face_bytes(rt.alloc())?;
    let book = ClockFace::open(bytes.as_slice());
    let sailings = expanded(rt.alloc(), &ALL_SERIES)?;
    check_holds(
        &rt,
        "the clock-face book",
        &book,
        &QUAYS,
        sailings.as_slice(),
    )?;
    assert_eq!(rt; book.places(), 10);
    assert_eq!(rt;
        numbered(book.place(5)),
        Ok(Some(Sailing {
            run: 21,
            leg: 1,
            from: 0,
            to: 2,
            dep: 1439,
            arr: 99,
        }))
    );
    assert_eq!(rt;
        numbered(book.place(8)),
        Ok(Some(Sailing {
            run: 65535,
            leg: 65535,
            from: 2,
            to: 1,
            dep: 2,
            arr: 2,
        }))
    );
    assert_eq!(rt; numbered(book.span(1)), Ok(Span { start: 6, end: 6 }));
    Ok(())
}

#[test]
fn the_largest_clock_face_book_holds_its_members(rt: HostRuntime) -> Result<(), Fail> {
    let quays = plain_quays(rt.alloc(), 256)?;
    let mut all = Vec::new(rt.alloc());
    for row in 0..512u16 {
        all.push(Series {
            run: row,
            leg: 3,
            from: row / 4,
            to: 255,
            first: row,
            period: 100,
            count: 6,
            length: 1000,
        })?;
    }
    let bytes = clock_face_image(rt.alloc(), quays.as_slice(), all.as_slice())?;
    let sailings = expanded(rt.alloc(), all.as_slice())?;
    assert_eq!(rt; sailings.len(), 3072);
    check_holds(
        &rt,
        "the largest book",
        &ClockFace::open(bytes.as_slice()),
        quays.as_slice(),
        sailings.as_slice(),
    )
}

#[test]
fn bytes_of_the_other_kind_open_blank(rt: HostRuntime) -> Result<(), Fail> {
    let printed = printed_bytes(rt.alloc())?;
    let clock_face = clock_face_bytes(rt.alloc())?;
    let first = Printed::open(clock_face.as_slice());
    check_blank(&rt, "opened as printed", &first)?;
    assert_eq!(rt; numbered(first.name(0)), Ok(&[][..]));
    assert_eq!(rt; numbered(first.name(1)), Err(11));
    let second = ClockFace::open(printed.as_slice());
    check_blank(&rt, "opened as clock-face", &second)?;
    assert_eq!(rt; numbered(second.name(0)), Ok(&[][..]));
    assert_eq!(rt; numbered(second.name(1)), Err(11));
    Ok(())
}

// Opened as either kind, the bytes, of which this is said, are a blank book.
fn check_opens_blank(rt: &impl Abort, said: &str, bytes: &[u8]) -> Result<(), Fail> {
    check_blank(rt, said, &Printed::open(bytes))?;
    check_blank(rt, said, &ClockFace::open(bytes))
}

#[test]
fn refused_bytes_open_blank(rt: HostRuntime) -> Result<(), Fail> {
    check_opens_blank(&rt, "no bytes", &[])?;
    let mut bytes = printed_bytes(rt.alloc())?;
    bytes.push(0)?;
    check_opens_blank(&rt, "a byte more", bytes.as_slice())?;
    bytes.truncate(175);
    check_opens_blank(&rt, "a byte less", bytes.as_slice())?;
    let mut series = clock_face_bytes(rt.alloc())?;
    set_number(&mut series, 114, 40);
    check_opens_blank(&rt, "a series leaves the day", series.as_slice())
}

#[test]
fn names_have_no_trailing_spaces(rt: HostRuntime) -> Result<(), Fail> {
    let bytes = printed_bytes(rt.alloc())?;
    let book = Printed::open(bytes.as_slice());
    assert_eq!(rt; numbered(book.name(0)), Ok(&b"Abbey"[..]));
    assert_eq!(rt; numbered(book.name(1)), Ok(&b"Bridge End"[..]));
    assert_eq!(rt; numbered(book.name(2)), Ok(&b"  Cove"[..]));
    assert_eq!(rt; numbered(book.name(3)), Ok(&b"Dock  9"[..]));
    assert_eq!(rt; numbered(book.name(4)), Err(11));
    assert_eq!(rt; numbered(book.name(65535)), Err(11));
    Ok(())
}

#[test]
fn clock_face_names_have_no_trailing_spaces(rt: HostRuntime) -> Result<(), Fail> {
    let quays = [
        Quay {
            change: 0,
            name: *b"          ",
        },
        Quay {
            change: 0,
            name: *b"         x",
        },
        Quay {
            change: 0,
            name: *b"x         ",
        },
        Quay {
            change: 0,
            name: *b" a  b c   ",
        },
    ];
    let bytes = clock_face_image(rt.alloc(), &quays, &[])?;
    let book = ClockFace::open(bytes.as_slice());
    assert_eq!(rt; numbered(book.name(0)), Ok(&[][..]));
    assert_eq!(rt; numbered(book.name(1)), Ok(&b"         x"[..]));
    assert_eq!(rt; numbered(book.name(2)), Ok(&b"x"[..]));
    assert_eq!(rt; numbered(book.name(3)), Ok(&b" a  b c"[..]));
    assert_eq!(rt; numbered(book.name(4)), Err(11));
    assert_eq!(rt; numbered(book.name(65535)), Err(11));
    Ok(())
}
