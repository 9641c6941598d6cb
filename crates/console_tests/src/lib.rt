//! Cases of the call of the gate console.
#![tactic(auto)]

#[cfg(test)]
mod tests {
    use console::call::canal_next_departure;
    use std::process::Abort;

    // Four quays, the last of which no sailing leaves.
    static PRINTED: [u8; 176] = *b"\x0e\x00\x01\x00\x04\x00\x06\x00\x00\x00\x00\x00\x00\x00\x00\x00\
        \x0e\x00\x03\x00\x05\x00Mill      \
        \x0e\x00\x03\x00\x1e\x00Lock      \
        \x0e\x00\x03\x00\x0a\x00Basin     \
        \x0e\x00\x03\x00\x05\x00Wharf 4567\
        \x0e\x00\x04\x00\x07\x00\x00\x00\x00\x00\x01\x00\xe0\x01\xf4\x01\
        \x0e\x00\x04\x00\x09\x00\x00\x00\x00\x00\x01\x00\xd6\x01\xea\x01\
        \x0e\x00\x04\x00\x07\x00\x01\x00\x01\x00\x02\x00\xf9\x01\x1c\x02\
        \x0e\x00\x04\x00\x08\x00\x00\x00\x01\x00\x02\x00\x03\x02\x12\x02\
        \x0e\x00\x04\x00\x06\x00\x00\x00\x01\x00\x02\x00\xfe\x01\x1c\x02\
        \x0e\x00\x04\x00\x05\x00\x00\x00\x02\x00\x03\x00\x96\x05\x0a\x00";

    // From quay 0 each half hour from 6:00 to 17:30 and each hour from 6:15 to 15:15, from quay 1 at 23:59.
    static CLOCK_FACE: [u8; 124] =
        *b"\x0e\x00\x02\x00\x03\x00\x03\x00\x00\x00\x00\x00\x00\x00\x00\x00\
        \x0e\x00\x03\x00\x05\x00Mill      \
        \x0e\x00\x03\x00\x1e\x00Lock      \
        \x0e\x00\x03\x00\x0a\x00Basin     \
        \x12\x00\x05\x00\x64\x00\x00\x00\x00\x00\x01\x00\x68\x01\x1e\x00\x18\x00\x14\x00\
        \x12\x00\x05\x00\xc8\x00\x00\x00\x00\x00\x02\x00\x77\x01\x3c\x00\x0a\x00\x2d\x00\
        \x12\x00\x05\x00\x2c\x01\x00\x00\x01\x00\x02\x00\x9f\x05\x01\x00\x01\x00\x9f\x05";

    // What the buffer holds before a call.
    const BEFORE: u8 = 9;

    // The departure, or the code if that is not 0; none where a byte does not stand that has to.
    fn ask(image: &[u8], quay: u16, minute: u16) -> Option<Result<u32, u8>> {
        let mut answer = [BEFORE; 6];
        let code = canal_next_departure(image, quay, minute, &mut answer);
        let [a, b, c, d, e, f] = answer;
        let told = match code {
            0 => Ok(u32::from_le_bytes([a, b, c, d])),
            _ => Err(code),
        };
        let stand = [e, f] == [BEFORE; 2] && (told.is_ok() || [a, b, c, d] == [BEFORE; 4]);
        stand.then_some(told)
    }

    // Each case is a quay, a minute and what is to be told.
    fn all(rt: &impl Abort, image: &[u8], cases: &[(u16, u16, Result<u32, u8>)]) {
        for &(quay, minute, told) in cases {
            assert_eq!(rt; ask(image, quay, minute), Some(told));
        }
    }

    // Each case is a place in an image, another byte for it, and what is then told of quay 0.
    fn all_changed<const N: usize>(
        rt: &impl Abort,
        image: [u8; N],
        cases: &[(usize, u8, Result<u32, u8>)],
    ) {
        for &(at, byte, told) in cases {
            let mut changed = image;
            if let Some(place) = changed.get_mut(at) {
                *place = byte;
            }
            assert_eq!(rt; ask(&changed, 0, 0), Some(told));
        }
    }

    #[test]
    fn the_earliest_departure(rt: HostRuntime) {
        all(
            &rt,
            &PRINTED,
            &[
                (0, 0, Ok(470)),
                (0, 470, Ok(470)),
                (0, 471, Ok(480)),
                (1, 0, Ok(505)),
                (1, 506, Ok(510)),
                (2, 0, Ok(1430)),
            ],
        );
        all(
            &rt,
            &CLOCK_FACE,
            &[
                (0, 0, Ok(360)),
                (0, 361, Ok(375)),
                (0, 376, Ok(390)),
                (0, 916, Ok(930)),
                (0, 1050, Ok(1050)),
                (1, 0, Ok(1439)),
                (1, 1439, Ok(1439)),
            ],
        );
    }

    // A sailing that has left today leaves tomorrow.
    #[test]
    fn the_next_day(rt: HostRuntime) {
        all(
            &rt,
            &PRINTED,
            &[
                (0, 481, Ok(1910)),
                (0, 1439, Ok(1910)),
                (2, 1430, Ok(1430)),
                (2, 1431, Ok(2870)),
            ],
        );
        all(
            &rt,
            &CLOCK_FACE,
            &[(0, 1051, Ok(1800)), (0, 1439, Ok(1800))],
        );
    }

    #[test]
    fn codes_other_than_0(rt: HostRuntime) {
        // no sailing leaves the quay
        all(&rt, &PRINTED, &[(3, 0, Err(255)), (3, 1439, Err(255))]);
        all(&rt, &CLOCK_FACE, &[(2, 0, Err(255))]);
        // there is no such quay
        all(
            &rt,
            &PRINTED,
            &[(4, 0, Err(11)), (65535, 0, Err(11)), (4, 1440, Err(11))],
        );
        all(&rt, &CLOCK_FACE, &[(3, 0, Err(11))]);
        // the minute is past the day
        all(
            &rt,
            &PRINTED,
            &[(0, 1440, Err(12)), (3, 1440, Err(12)), (0, 65535, Err(12))],
        );
        all(&rt, &CLOCK_FACE, &[(0, 1440, Err(12))]);
    }

    #[test]
    fn no_room_for_the_answer(rt: HostRuntime) {
        let mut two = [BEFORE; 2];
        let mut three = [BEFORE; 3];
        assert_eq!(rt; canal_next_departure(&PRINTED, 0, 0, &mut []), 21);
        assert_eq!(rt; canal_next_departure(&PRINTED, 0, 0, &mut [0]), 21);
        assert_eq!(rt; canal_next_departure(&PRINTED, 0, 0, &mut two), 21);
        assert_eq!(rt; two[1], BEFORE);
        assert_eq!(rt; canal_next_departure(&CLOCK_FACE, 0, 0, &mut three), 21);
        assert_eq!(rt; three[0], BEFORE);
        assert_eq!(rt; canal_next_departure(&PRINTED, 3, 0, &mut three), 21);
        assert_eq!(rt; three[2], BEFORE);
    }

    #[test]
    fn room_for_four_bytes_and_more(rt: HostRuntime) {
        let mut four = [BEFORE; 4];
        let mut five = [BEFORE; 5];
        assert_eq!(rt; canal_next_departure(&PRINTED, 0, 481, &mut four), 0);
        assert_eq!(rt; four, [118, 7, 0, 0]);
        assert_eq!(rt; canal_next_departure(&CLOCK_FACE, 0, 1051, &mut five), 0);
        assert_eq!(rt; five[0], 8);
        assert_eq!(rt; five[1], 7);
        assert_eq!(rt; five[4], BEFORE);
    }

    // The image's number comes first, then the quay's, the minute's and the buffer's.
    #[test]
    fn the_order_of_refusals(rt: HostRuntime) {
        assert_eq!(rt; canal_next_departure(&[], 9, 1440, &mut []), 1);
        assert_eq!(rt; canal_next_departure(&PRINTED, 9, 1440, &mut []), 11);
        assert_eq!(rt; canal_next_departure(&PRINTED, 0, 1440, &mut []), 12);
        assert_eq!(rt; canal_next_departure(&PRINTED, 0, 1439, &mut []), 21);
    }

    #[test]
    fn images_cut_off(rt: HostRuntime) {
        for end in 0..PRINTED.len() {
            assert_eq!(rt; ask(&PRINTED[..end], 0, 0), Some(Err(1)));
        }
        for end in 0..CLOCK_FACE.len() {
            assert_eq!(rt; ask(&CLOCK_FACE[..end], 0, 0), Some(Err(1)));
        }
    }

    #[test]
    fn damaged_printed_images(rt: HostRuntime) {
        // records that are not due
        all_changed(
            &rt,
            PRINTED,
            &[
                (0, 15, Err(2)),
                (2, 3, Err(2)),
                (18, 4, Err(2)),
                (80, 18, Err(2)),
            ],
        );
        // fields out of limits
        all_changed(
            &rt,
            PRINTED,
            &[
                (4, 0, Err(3)),
                (7, 13, Err(3)),
                (15, 1, Err(3)),
                (21, 6, Err(3)),
                (22, 31, Err(3)),
                (22, 127, Err(3)),
                (90, 0, Err(3)),
                (93, 6, Err(3)),
            ],
        );
        // sailings that do not stand by quay, and bytes that follow
        all_changed(&rt, PRINTED, &[(104, 2, Err(4)), (6, 5, Err(5))]);
    }

    #[test]
    fn damaged_clock_face_images(rt: HostRuntime) {
        all_changed(
            &rt,
            CLOCK_FACE,
            &[
                (66, 4, Err(2)),
                (78, 0, Err(3)),
                (80, 0, Err(3)),
                (72, 2, Err(4)),
                (6, 2, Err(5)),
            ],
        );
        // with 36 members the last leaves at 1410, and with 37 it leaves the day
        all_changed(&rt, CLOCK_FACE, &[(80, 36, Ok(360)), (80, 37, Err(6))]);
    }
}
