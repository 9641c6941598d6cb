//! Tests of typed lines and of the lines of answers: good and bad lines as tables, and each text with its bytes.
#![tactic(auto)]

#[cfg(test)]
mod tests {
    use std::process::Abort;
    use timetable::call::Call;
    use timetable::query::Query;
    use typed::read::read_command;
    use typed::text::Text;
    use typed::write::write_line;

    // The number of the refusal of a line.
    fn refused(line: &[u8]) -> Option<u8> {
        read_command(line).err().map(|refusal| refusal.number())
    }

    fn route(from: u16, to: u16, minute: u16, class: u16) -> Call {
        Call::Route(Query {
            from,
            to,
            minute,
            class,
        })
    }

    #[test]
    fn good_lines(rt: HostRuntime) {
        assert_eq!(rt; read_command(b"W 7"), Ok(Call::Withhold(7)));
        assert_eq!(rt; read_command(b"R 7"), Ok(Call::Release(7)));
        assert_eq!(rt; read_command(b"S 3"), Ok(Call::Shut(3)));
        assert_eq!(rt; read_command(b"O 3"), Ok(Call::Open(3)));
        assert_eq!(rt; read_command(b"T"), Ok(Call::Thin));
        assert_eq!(rt; read_command(b"Q 0 2 470 1"), Ok(route(0, 2, 470, 1)));
        assert_eq!(rt; read_command(b"W 0"), Ok(Call::Withhold(0)));
        assert_eq!(rt; read_command(b"W 00007"), Ok(Call::Withhold(7)));
        assert_eq!(rt; read_command(b"W 65535"), Ok(Call::Withhold(65535)));
        assert_eq!(rt;
            read_command(b"Q 65535 65535 65535 65535"),
            Ok(route(65535, 65535, 65535, 65535))
        );
        assert_eq!(rt;
            read_command(b"Q 00000 00002 00470 00000"),
            Ok(route(0, 2, 470, 0))
        );
    }

    #[test]
    fn no_letter(rt: HostRuntime) {
        let lines: [&[u8]; 10] = [
            b"", b" ", b"w 7", b" W 7", b"D 0 470", b"7", b"\0", b"\xff", b"\r", b"X W 7",
        ];
        for line in lines {
            assert_eq!(rt; refused(line), Some(51));
        }
    }

    #[test]
    fn no_number(rt: HostRuntime) {
        let lines: [&[u8]; 16] = [
            b"W",
            b"W ",
            b"W  7",
            b"W7",
            b"W\t7",
            b"W -7",
            b"W +7",
            b"W a",
            b"W 000007",
            b"W 123456",
            b"W 65536",
            b"W 99999",
            b"W \r",
            b"Q",
            b"Q 0 2 470",
            b"Q 0  2 470 0",
        ];
        for line in lines {
            assert_eq!(rt; refused(line), Some(52));
        }
        assert_eq!(rt; refused(b"Q 0 2 470 "), Some(52));
        assert_eq!(rt; refused(b"Q 0 2x 470 0"), Some(52));
        assert_eq!(rt; refused(b"Q 0 2 70000 0 1"), Some(52));
    }

    #[test]
    fn something_follows(rt: HostRuntime) {
        let lines: [&[u8]; 9] = [
            b"W 7 ", b"W 7 7", b"W 7\r", b"W 7\t", b"W 7a", b"W 7\0", b"T ", b"T 1", b"T\r",
        ];
        for line in lines {
            assert_eq!(rt; refused(line), Some(53));
        }
        assert_eq!(rt; refused(b"Q 0 2 470 0 1"), Some(53));
        assert_eq!(rt; refused(b"Q 0 2 470 0 "), Some(53));
    }

    // A line of n bytes: a letter, and spaces.
    fn of_length(n: usize, letter: u8) -> Option<u8> {
        let mut bytes = [b' '; 80];
        bytes[0] = letter;
        refused(bytes.get(..n)?)
    }

    #[test]
    fn length_comes_first(rt: HostRuntime) {
        assert_eq!(rt; of_length(64, b'W'), Some(52));
        assert_eq!(rt; of_length(65, b'W'), Some(54));
        assert_eq!(rt; of_length(64, b'T'), Some(53));
        assert_eq!(rt; of_length(65, b'T'), Some(54));
        assert_eq!(rt; of_length(64, b'x'), Some(51));
        assert_eq!(rt; of_length(65, b'x'), Some(54));
        assert_eq!(rt; of_length(80, b'x'), Some(54));
    }

    // The text fits a buffer of just its length and one of 64 bytes, leaves what follows, and is refused by one byte less.
    fn writes(rt: &impl Abort, text: Text, bytes: &[u8]) {
        let n = bytes.len();
        let mut long = [b'.'; 64];
        assert_eq!(rt; write_line(text, &mut long).is_ok(), true);
        assert_eq!(rt; long.get(0..n), Some(bytes));
        for byte in long.iter().skip(n) {
            assert_eq!(rt; *byte, b'.');
        }
        let mut just = [b'.'; 64];
        if let Some(line) = just.get_mut(0..n) {
            assert_eq!(rt; write_line(text, line), Ok(n));
        }
        assert_eq!(rt; just.get(0..n), Some(bytes));
        let mut short = [b'.'; 64];
        if let Some(line) = short.get_mut(0..n.saturating_sub(1)) {
            let refusal = write_line(text, line).err().map(|refusal| refusal.number());
            assert_eq!(rt; refusal, Some(21));
        }
        assert_eq!(rt; short, [b'.'; 64]);
    }

    #[test]
    fn texts(rt: HostRuntime) {
        writes(&rt, Text::Accepted, b"K\n");
        writes(&rt, Text::Thinned(0), b"T 0\n");
        writes(&rt, Text::Thinned(3072), b"T 3072\n");
        writes(&rt, Text::NoWay, b"N\n");
        writes(
            &rt,
            Text::Arrives {
                arrival: 600,
                legs: 0,
            },
            b"A 600 0\n",
        );
        writes(
            &rt,
            Text::Arrives {
                arrival: 4294967295,
                legs: 65535,
            },
            b"A 4294967295 65535\n",
        );
        writes(&rt, Text::Refused(9), b"E 9\n");
        writes(&rt, Text::Refused(10), b"E 10\n");
        writes(&rt, Text::Refused(255), b"E 255\n");
        writes(&rt, Text::BadImage { number: 3, byte: 4 }, b"E 3 4\n");
        writes(
            &rt,
            Text::BadImage {
                number: 1,
                byte: 18446744073709551615,
            },
            b"E 1 18446744073709551615\n",
        );
    }

    #[test]
    fn legs(rt: HostRuntime) {
        writes(
            &rt,
            Text::Leg {
                run: 7,
                leg: 1,
                from: 2,
                to: 3,
                leaves: 505,
                arrives: 540,
            },
            b"L 7 1 2 3 505 540\n",
        );
        writes(
            &rt,
            Text::Leg {
                run: 65535,
                leg: 65535,
                from: 65535,
                to: 65535,
                leaves: 4294967295,
                arrives: 4294967295,
            },
            b"L 65535 65535 65535 65535 4294967295 4294967295\n",
        );
    }
}
