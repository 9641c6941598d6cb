use plantext::read::{read_leg, read_query};
use timetable::query::{Leg, Query};
use timetable::refusal::Refusal;

fn leg(place: u16, leaves: u32, arrives: u32) -> Result<Leg, Refusal> {
    Ok(Leg {
        place,
        leaves,
        arrives,
    })
}

fn query(from: u16, to: u16, minute: u16, class: u16) -> Result<Query, Refusal> {
    Ok(Query {
        from,
        to,
        minute,
        class,
    })
}

#[test]
fn good_lines(rt: HostRuntime) {
    assert_eq!(rt; read_query(b"Q 0 2 470 1"), query(0, 2, 470, 1));
    assert_eq!(rt; read_leg(b"L 1 470 490"), leg(1, 470, 490));
    assert_eq!(rt;
        read_leg(b"L 65535 4294967295 4294967295"),
        leg(65535, 4294967295, 4294967295)
    );
    assert_eq!(rt;
        read_leg(b"L 00001 0000000470 0000000490"),
        leg(1, 470, 490)
    );
}

#[test]
fn bad_legs(rt: HostRuntime) {
    let no_letter: [&[u8]; 5] = [b"", b"Q 0 2 470 1", b" L 1 470 490", b"l 1 470 490", b"W x"];
    for line in no_letter {
        assert_eq!(rt; read_leg(line), Err(Refusal::NoLetter));
    }
    let no_number: [&[u8]; 12] = [
        b"L",
        b"L ",
        b"L 1",
        b"L 1 470",
        b"L 1 470 ",
        b"L 1  470 490",
        b"L1 470 490",
        b"L 65536 470 490",
        b"L 1 4294967296 490",
        b"L 1 470 4294967296",
        b"L 1 00000000470 490",
        b"L 1 470 9999999999",
    ];
    for line in no_number {
        assert_eq!(rt; read_leg(line), Err(Refusal::NoNumber));
    }
    let surplus: [&[u8]; 4] = [
        b"L 1 470 490 ",
        b"L 1 470 490 0",
        b"L 1 470 490\r",
        b"L 1 470 490x",
    ];
    for line in surplus {
        assert_eq!(rt; read_leg(line), Err(Refusal::Surplus));
    }
    assert_eq!(rt; read_leg(&[b'L'; 64]), Err(Refusal::NoNumber));
    assert_eq!(rt; read_leg(&[b'L'; 65]), Err(Refusal::LongLine));
}

#[test]
fn bad_queries(rt: HostRuntime) {
    let no_letter: [&[u8]; 5] = [b"", b"T", b"W 7", b"W x", b"L 1 470 490"];
    for line in no_letter {
        assert_eq!(rt; read_query(line), Err(Refusal::NoLetter));
    }
    assert_eq!(rt; read_query(b"Q 0 2 470"), Err(Refusal::NoNumber));
    assert_eq!(rt; read_query(b"Q 0 2 470 0 1"), Err(Refusal::Surplus));
    assert_eq!(rt; read_query(&[b'Q'; 65]), Err(Refusal::LongLine));
}
