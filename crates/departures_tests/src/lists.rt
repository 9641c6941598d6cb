//! Departure lists of a printed book.
use books::printed::Printed;
use departureheap::departure::Departure;
use departures::list::list_departures;
use std::process::Abort;
use timetable::refusal::Refusal;

// Four quays and six sailings: two from quay 0, three from quay 1, one from quay 2 and none from quay 3.
static WORKED: [u8; 176] = *b"\x0e\x00\x01\x00\x04\x00\x06\x00\x00\x00\x00\x00\x00\x00\x00\x00\
    \x0e\x00\x03\x00\x05\x00Mill      \
    \x0e\x00\x03\x00\x1e\x00Lock      \
    \x0e\x00\x03\x00\x0a\x00Market    \
    \x0e\x00\x03\x00\x05\x00Weir      \
    \x0e\x00\x04\x00\x07\x00\x00\x00\x00\x00\x01\x00\xe0\x01\xf4\x01\
    \x0e\x00\x04\x00\x09\x00\x00\x00\x00\x00\x01\x00\xd6\x01\xea\x01\
    \x0e\x00\x04\x00\x07\x00\x01\x00\x01\x00\x02\x00\xf9\x01\x1c\x02\
    \x0e\x00\x04\x00\x08\x00\x00\x00\x01\x00\x02\x00\x03\x02\x12\x02\
    \x0e\x00\x04\x00\x06\x00\x00\x00\x01\x00\x02\x00\xfe\x01\x1c\x02\
    \x0e\x00\x04\x00\x05\x00\x00\x00\x02\x00\x03\x00\x96\x05\x0a\x00";

// The same, but that all three sailings from quay 1 leave at 505.
static ABREAST: [u8; 176] = *b"\x0e\x00\x01\x00\x04\x00\x06\x00\x00\x00\x00\x00\x00\x00\x00\x00\
    \x0e\x00\x03\x00\x05\x00Mill      \
    \x0e\x00\x03\x00\x1e\x00Lock      \
    \x0e\x00\x03\x00\x0a\x00Market    \
    \x0e\x00\x03\x00\x05\x00Weir      \
    \x0e\x00\x04\x00\x07\x00\x00\x00\x00\x00\x01\x00\xe0\x01\xf4\x01\
    \x0e\x00\x04\x00\x09\x00\x00\x00\x00\x00\x01\x00\xd6\x01\xea\x01\
    \x0e\x00\x04\x00\x07\x00\x01\x00\x01\x00\x02\x00\xf9\x01\x1c\x02\
    \x0e\x00\x04\x00\x08\x00\x00\x00\x01\x00\x02\x00\xf9\x01\x12\x02\
    \x0e\x00\x04\x00\x06\x00\x00\x00\x01\x00\x02\x00\xf9\x01\x1c\x02\
    \x0e\x00\x04\x00\x05\x00\x00\x00\x02\x00\x03\x00\x96\x05\x0a\x00";

// What stands in every row before a list is asked for.
const BLANK: Departure = Departure {
    place: 999,
    minute: 99999,
};

const OLD: (u16, u32) = (999, 99999);

type Told = Result<u16, Refusal>;

// How many rows there are, or why it is refused.
fn told(
    image: &[u8],
    quay: u16,
    minute: u16,
    store: &mut [Departure],
    rows: &mut [Departure],
) -> Told {
    list_departures(&Printed::open(image), quay, minute, store, rows)
}

// The rows that were told for a quay from a minute.
fn check_rows(rt: &impl Abort, quay: u16, minute: u16, rows: &[Departure], due: &[(u16, u32)]) {
    assert_eq!(rt; rows.len(), due.len(), "quay {} from {}", quay, minute);
    for (row, is) in rows.iter().zip(due) {
        assert_eq!(rt;
            (row.place, row.minute),
            *is,
            "quay {} from {}",
            quay,
            minute
        );
    }
}

// Each case is a quay, a minute, what is told, and what the rows then hold.
fn check_lists(rt: &impl Abort, image: &[u8], cases: &[(u16, u16, Told, [(u16, u32); 6])]) {
    for (quay, minute, due, filled) in cases {
        let mut store = [BLANK; 6];
        let mut rows = [BLANK; 6];
        assert_eq!(rt;
            told(image, *quay, *minute, &mut store, &mut rows),
            *due,
            "quay {} from {}",
            quay,
            minute
        );
        check_rows(rt, *quay, *minute, &rows, filled);
    }
}

#[test]
fn sailings_of_a_quay_are_listed(rt: HostRuntime) {
    check_lists(
        &rt,
        &WORKED,
        &[
            (
                1,
                506,
                Ok(3),
                [(4, 510), (3, 515), (2, 1945), OLD, OLD, OLD],
            ),
            // at a departure, and a minute later
            (
                1,
                510,
                Ok(3),
                [(4, 510), (3, 515), (2, 1945), OLD, OLD, OLD],
            ),
            (
                1,
                511,
                Ok(3),
                [(3, 515), (2, 1945), (4, 1950), OLD, OLD, OLD],
            ),
            (1, 0, Ok(3), [(2, 505), (4, 510), (3, 515), OLD, OLD, OLD]),
            (
                1,
                1439,
                Ok(3),
                [(2, 1945), (4, 1950), (3, 1955), OLD, OLD, OLD],
            ),
            (0, 475, Ok(2), [(0, 480), (1, 1910), OLD, OLD, OLD, OLD]),
            (2, 1430, Ok(1), [(5, 1430), OLD, OLD, OLD, OLD, OLD]),
            (2, 1431, Ok(1), [(5, 2870), OLD, OLD, OLD, OLD, OLD]),
            // none leaves quay 3
            (3, 0, Ok(0), [OLD, OLD, OLD, OLD, OLD, OLD]),
        ],
    );
}

#[test]
fn sailings_of_one_minute_are_listed_by_place(rt: HostRuntime) {
    check_lists(
        &rt,
        &ABREAST,
        &[
            (1, 505, Ok(3), [(2, 505), (3, 505), (4, 505), OLD, OLD, OLD]),
            (
                1,
                506,
                Ok(3),
                [(2, 1945), (3, 1945), (4, 1945), OLD, OLD, OLD],
            ),
        ],
    );
}

#[test]
fn the_first_cause_refuses_and_the_rows_stand(rt: HostRuntime) {
    let none = [OLD; 6];
    check_lists(
        &rt,
        &WORKED,
        &[
            (4, 0, Err(Refusal::NoQuay), none),
            (65535, 65535, Err(Refusal::NoQuay), none),
            (3, 1440, Err(Refusal::LateMinute), none),
            (1, 65535, Err(Refusal::LateMinute), none),
        ],
    );
}

fn check_untouched(rt: &impl Abort, rows: &[Departure]) {
    for row in rows {
        assert_eq!(rt; (row.place, row.minute), OLD);
    }
}

// Refused with this memory, all of which stands.
fn check_memory(
    rt: &impl Abort,
    store: &mut [Departure],
    rows: &mut [Departure],
    minute: u16,
    due: Told,
) {
    assert_eq!(rt; told(&WORKED, 1, minute, store, rows), due);
    check_untouched(rt, store);
    check_untouched(rt, rows);
}

#[test]
fn a_row_is_wanted_for_each_place(rt: HostRuntime) {
    check_memory(
        &rt,
        &mut [BLANK; 5],
        &mut [BLANK; 6],
        506,
        Err(Refusal::ShortBuffer),
    );
    check_memory(
        &rt,
        &mut [BLANK; 6],
        &mut [BLANK; 5],
        506,
        Err(Refusal::ShortBuffer),
    );
    check_memory(&rt, &mut [], &mut [], 506, Err(Refusal::ShortBuffer));
    check_memory(
        &rt,
        &mut [],
        &mut [BLANK; 6],
        1440,
        Err(Refusal::LateMinute),
    );
}

#[test]
fn what_is_no_image_has_one_quay_and_no_departures(rt: HostRuntime) {
    assert_eq!(rt; told(&[], 0, 0, &mut [], &mut []), Ok(0));
    assert_eq!(rt; told(&[], 1, 0, &mut [], &mut []), Err(Refusal::NoQuay));
}
