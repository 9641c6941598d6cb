//! Tests of the reader of timetables: good lines, each fault, and the limits of numbers, times and names.
#![tactic(auto)]

#[cfg(test)]
mod tests {
    use booktext::entry::*;
    use booktext::line::read_line;
    use image::quay::Quay;
    use timetable::sailing::Sailing;

    #[test]
    fn silent_lines(rt: HostRuntime) {
        assert_eq!(rt; read_line(b""), Ok(None));
        assert_eq!(rt; read_line(b"#"), Ok(None));
        assert_eq!(rt; read_line(b"# quay 5 Mill"), Ok(None));
        assert_eq!(rt; read_line(b"#quay"), Ok(None));
    }

    #[test]
    fn quays(rt: HostRuntime) {
        assert_eq!(rt;
            read_line(b"quay 5 Mill"),
            Ok(Some(Entry::Quay(Quay {
                change: 5,
                name: *b"Mill      ",
            })))
        );
        assert_eq!(rt;
            read_line(b"quay 5"),
            Ok(Some(Entry::Quay(Quay {
                change: 5,
                name: *b"          ",
            })))
        );
        assert_eq!(rt;
            read_line(b"quay 5 "),
            Ok(Some(Entry::Quay(Quay {
                change: 5,
                name: *b"          ",
            })))
        );
        assert_eq!(rt;
            read_line(b"quay 5  Mill"),
            Ok(Some(Entry::Quay(Quay {
                change: 5,
                name: *b" Mill     ",
            })))
        );
        assert_eq!(rt;
            read_line(b"quay 05 Old Mill"),
            Ok(Some(Entry::Quay(Quay {
                change: 5,
                name: *b"Old Mill  ",
            })))
        );
        assert_eq!(rt;
            read_line(b"quay 0 Long Quays"),
            Ok(Some(Entry::Quay(Quay {
                change: 0,
                name: *b"Long Quays",
            })))
        );
        assert_eq!(rt;
            read_line(b"quay 9 \x00\xff\t"),
            Ok(Some(Entry::Quay(Quay {
                change: 9,
                name: *b"\x00\xff\t       ",
            })))
        );
    }

    #[test]
    fn quay_faults(rt: HostRuntime) {
        assert_eq!(rt; read_line(b"quay"), Err(LineFault::NoNumber(4)));
        assert_eq!(rt; read_line(b"quay "), Err(LineFault::NoNumber(4)));
        assert_eq!(rt; read_line(b"quay  5"), Err(LineFault::NoNumber(4)));
        assert_eq!(rt; read_line(b"quay\t5"), Err(LineFault::NoNumber(4)));
        assert_eq!(rt; read_line(b"quay5"), Err(LineFault::NoNumber(4)));
        assert_eq!(rt; read_line(b"quay -5"), Err(LineFault::NoNumber(4)));
        assert_eq!(rt; read_line(b"quay Mill"), Err(LineFault::NoNumber(4)));
        assert_eq!(rt; read_line(b"quay 5x"), Err(LineFault::Surplus(6)));
        assert_eq!(rt; read_line(b"quay 5\tMill"), Err(LineFault::Surplus(6)));
        assert_eq!(rt; read_line(b"quay 0 Long Quays!"), Err(LineFault::LongName));
    }

    #[test]
    fn numbers(rt: HostRuntime) {
        assert_eq!(rt;
            read_line(b"quay 65535"),
            Ok(Some(Entry::Quay(Quay {
                change: 65535,
                name: *b"          ",
            })))
        );
        assert_eq!(rt;
            read_line(b"quay 00007"),
            Ok(Some(Entry::Quay(Quay {
                change: 7,
                name: *b"          ",
            })))
        );
        assert_eq!(rt; read_line(b"quay 65536"), Err(LineFault::NoNumber(4)));
        assert_eq!(rt; read_line(b"quay 99999"), Err(LineFault::NoNumber(4)));
        assert_eq!(rt; read_line(b"quay 000007"), Err(LineFault::NoNumber(4)));
        assert_eq!(rt; read_line(b"quay 100000"), Err(LineFault::NoNumber(4)));
    }

    #[test]
    fn sailings(rt: HostRuntime) {
        assert_eq!(rt;
            read_line(b"sailing 7 0 0 1 08:00 08:20"),
            Ok(Some(Entry::Sailing(Sailing {
                run: 7,
                leg: 0,
                from: 0,
                to: 1,
                dep: 480,
                arr: 500,
            })))
        );
        assert_eq!(rt;
            read_line(b"sailing 65535 65535 65535 65535 23:59 00:00"),
            Ok(Some(Entry::Sailing(Sailing {
                run: 65535,
                leg: 65535,
                from: 65535,
                to: 65535,
                dep: 1439,
                arr: 0,
            })))
        );
    }

    #[test]
    fn sailing_faults(rt: HostRuntime) {
        assert_eq!(rt; read_line(b"sailing"), Err(LineFault::NoNumber(7)));
        assert_eq!(rt; read_line(b"sailing 7 0 0"), Err(LineFault::NoNumber(13)));
        assert_eq!(rt;
            read_line(b"sailing 7 0  0 1 08:00 08:20"),
            Err(LineFault::NoNumber(11))
        );
        assert_eq!(rt; read_line(b"sailing 7 0 0 1"), Err(LineFault::NoTime(15)));
        assert_eq!(rt;
            read_line(b"sailing 7 0 0 1 08:00"),
            Err(LineFault::NoTime(21))
        );
        assert_eq!(rt;
            read_line(b"sailing 7 0 0 1  08:00 08:20"),
            Err(LineFault::NoTime(15))
        );
        assert_eq!(rt;
            read_line(b"sailing 7 0 0 1 08:00\t08:20"),
            Err(LineFault::NoTime(21))
        );
        assert_eq!(rt;
            read_line(b"sailing 7 0 0 1 08:00 08:20 "),
            Err(LineFault::Surplus(27))
        );
        assert_eq!(rt;
            read_line(b"sailing 7 0 0 1 08:00 08:200"),
            Err(LineFault::Surplus(27))
        );
        assert_eq!(rt;
            read_line(b"sailing 7 0 0 1 08:00 08:20\r"),
            Err(LineFault::Surplus(27))
        );
    }

    #[test]
    fn times(rt: HostRuntime) {
        assert_eq!(rt;
            read_line(b"sailing 7 0 0 1 24:00 08:20"),
            Err(LineFault::NoTime(15))
        );
        assert_eq!(rt;
            read_line(b"sailing 7 0 0 1 09:60 10:20"),
            Err(LineFault::NoTime(15))
        );
        assert_eq!(rt;
            read_line(b"sailing 7 0 0 1 8:00 08:20"),
            Err(LineFault::NoTime(15))
        );
        assert_eq!(rt;
            read_line(b"sailing 7 0 0 1 08.00 08:20"),
            Err(LineFault::NoTime(15))
        );
        assert_eq!(rt;
            read_line(b"sailing 7 0 0 1 0800 08:20"),
            Err(LineFault::NoTime(15))
        );
        assert_eq!(rt;
            read_line(b"sailing 7 0 0 1 0a:00 08:20"),
            Err(LineFault::NoTime(15))
        );
        assert_eq!(rt;
            read_line(b"sailing 7 0 0 1 08:00 08:2"),
            Err(LineFault::NoTime(21))
        );
        assert!(rt; matches!(read_line(b"sailing 7 0 0 1 00:00 23:59"), Ok(Some(_))));
    }

    #[test]
    fn words(rt: HostRuntime) {
        assert_eq!(rt; read_line(b"Quay 5"), Err(LineFault::NoWord));
        assert_eq!(rt; read_line(b" quay 5"), Err(LineFault::NoWord));
        assert_eq!(rt; read_line(b"qua"), Err(LineFault::NoWord));
        assert_eq!(rt; read_line(b"barge 5"), Err(LineFault::NoWord));
        assert_eq!(rt; read_line(b" "), Err(LineFault::NoWord));
        assert_eq!(rt; read_line(b"\r"), Err(LineFault::NoWord));
    }
}
