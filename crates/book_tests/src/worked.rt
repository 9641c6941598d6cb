//! A printed book and a clock-face book, each small, and what they hold.
use crate::making::*;
use image::quay::Quay;
use image::series::Series;
use std::alloc::{AllocError, Global};
use timetable::sailing::Sailing;

pub const QUAYS: [Quay; 4] = [
    Quay {
        change: 5,
        name: *b"Abbey     ",
    },
    Quay {
        change: 30,
        name: *b"Bridge End",
    },
    Quay {
        change: 10,
        name: *b"  Cove    ",
    },
    Quay {
        change: 5,
        name: *b"Dock  9   ",
    },
];

pub const SAILINGS: [Sailing; 6] = [
    Sailing {
        run: 7,
        leg: 0,
        from: 0,
        to: 1,
        dep: 480,
        arr: 500,
    },
    Sailing {
        run: 9,
        leg: 0,
        from: 0,
        to: 1,
        dep: 470,
        arr: 490,
    },
    Sailing {
        run: 7,
        leg: 1,
        from: 1,
        to: 2,
        dep: 505,
        arr: 540,
    },
    Sailing {
        run: 8,
        leg: 0,
        from: 1,
        to: 2,
        dep: 515,
        arr: 530,
    },
    Sailing {
        run: 6,
        leg: 0,
        from: 1,
        to: 2,
        dep: 510,
        arr: 540,
    },
    Sailing {
        run: 5,
        leg: 0,
        from: 2,
        to: 3,
        dep: 1430,
        arr: 10,
    },
];

// The image of these quays and sailings, byte by byte.
pub const RECORDS: [[u8; 16]; 11] = [
    [14, 0, 1, 0, 4, 0, 6, 0, 0, 0, 0, 0, 0, 0, 0, 0],
    [14, 0, 3, 0, 5, 0, 65, 98, 98, 101, 121, 32, 32, 32, 32, 32],
    [
        14, 0, 3, 0, 30, 0, 66, 114, 105, 100, 103, 101, 32, 69, 110, 100,
    ],
    [
        14, 0, 3, 0, 10, 0, 32, 32, 67, 111, 118, 101, 32, 32, 32, 32,
    ],
    [14, 0, 3, 0, 5, 0, 68, 111, 99, 107, 32, 32, 57, 32, 32, 32],
    [14, 0, 4, 0, 7, 0, 0, 0, 0, 0, 1, 0, 224, 1, 244, 1],
    [14, 0, 4, 0, 9, 0, 0, 0, 0, 0, 1, 0, 214, 1, 234, 1],
    [14, 0, 4, 0, 7, 0, 1, 0, 1, 0, 2, 0, 249, 1, 28, 2],
    [14, 0, 4, 0, 8, 0, 0, 0, 1, 0, 2, 0, 3, 2, 18, 2],
    [14, 0, 4, 0, 6, 0, 0, 0, 1, 0, 2, 0, 254, 1, 28, 2],
    [14, 0, 4, 0, 5, 0, 0, 0, 2, 0, 3, 0, 150, 5, 10, 0],
];

pub(crate) fn printed_bytes(heap: Global) -> Result<Vec<u8>, AllocError> {
    let mut bytes = Vec::new(heap);
    for record in RECORDS.iter() {
        bytes.extend_from_slice(record)?;
    }
    Ok(bytes)
}

// The second series ends at the last minute of the day, the third at the last run.
pub const ALL_SERIES: [Series; 4] = [
    Series {
        run: 10,
        leg: 0,
        from: 0,
        to: 1,
        first: 480,
        period: 60,
        count: 4,
        length: 25,
    },
    Series {
        run: 20,
        leg: 1,
        from: 0,
        to: 2,
        first: 1400,
        period: 39,
        count: 2,
        length: 100,
    },
    Series {
        run: 65533,
        leg: 65535,
        from: 2,
        to: 1,
        first: 0,
        period: 1,
        count: 3,
        length: 0,
    },
    Series {
        run: 30,
        leg: 2,
        from: 2,
        to: 0,
        first: 1439,
        period: 1439,
        count: 1,
        length: 1439,
    },
];

// An image of 4 quays and 4 series: 160 bytes.
pub(crate) fn clock_face_bytes(heap: Global) -> Result<Vec<u8>, AllocError> {
    clock_face_image(heap, &QUAYS, &ALL_SERIES)
}
