//! Images made record by record, with no check of what goes into them.
use crate::reading::Form;
use image::quay::Quay;
use image::series::Series;
use std::alloc::{AllocError, Global};
use timetable::sailing::Sailing;

pub(crate) fn push_numbers(bytes: &mut Vec<u8>, numbers: &[u16]) -> Result<(), AllocError> {
    for n in numbers {
        bytes.extend_from_slice(&n.to_le_bytes())?;
    }
    Ok(())
}

// What is written as a record.
pub(crate) trait Record {
    fn push(&self, bytes: &mut Vec<u8>) -> Result<(), AllocError>;
}

impl Record for Quay {
    fn push(&self, bytes: &mut Vec<u8>) -> Result<(), AllocError> {
        push_numbers(bytes, &[14, 3, self.change])?;
        bytes.extend_from_slice(&self.name)
    }
}

impl Record for Sailing {
    fn push(&self, bytes: &mut Vec<u8>) -> Result<(), AllocError> {
        push_numbers(
            bytes,
            &[
                14, 4, self.run, self.leg, self.from, self.to, self.dep, self.arr,
            ],
        )
    }
}

impl Record for Series {
    fn push(&self, bytes: &mut Vec<u8>) -> Result<(), AllocError> {
        push_numbers(
            bytes,
            &[
                18,
                5,
                self.run,
                self.leg,
                self.from,
                self.to,
                self.first,
                self.period,
                self.count,
                self.length,
            ],
        )
    }
}

pub(crate) fn count(len: usize) -> u16 {
    u16::try_from(len).unwrap_or(u16::MAX)
}

fn push_all<R: Record>(bytes: &mut Vec<u8>, records: &[R]) -> Result<(), AllocError> {
    for record in records {
        record.push(bytes)?;
    }
    Ok(())
}

fn image_of<E: Record>(
    heap: Global,
    form: Form,
    quays: &[Quay],
    entries: &[E],
) -> Result<Vec<u8>, AllocError> {
    let mut bytes = Vec::new(heap);
    let heading = [
        14,
        form as u16,
        count(quays.len()),
        count(entries.len()),
        0,
        0,
        0,
        0,
    ];
    push_numbers(&mut bytes, &heading)?;
    push_all(&mut bytes, quays)?;
    push_all(&mut bytes, entries)?;
    Ok(bytes)
}

pub(crate) fn printed_image(
    heap: Global,
    quays: &[Quay],
    sailings: &[Sailing],
) -> Result<Vec<u8>, AllocError> {
    image_of(heap, Form::Printed, quays, sailings)
}

pub(crate) fn clock_face_image(
    heap: Global,
    quays: &[Quay],
    all: &[Series],
) -> Result<Vec<u8>, AllocError> {
    image_of(heap, Form::ClockFace, quays, all)
}

// So many quays of one kind.
pub(crate) fn plain_quays(heap: Global, many: usize) -> Result<Vec<Quay>, AllocError> {
    let quay = Quay {
        change: 3,
        name: *b"Quay      ",
    };
    Ok(vec![in heap; quay; many]?)
}

pub(crate) fn set_byte(bytes: &mut Vec<u8>, at: usize, value: u8) {
    if let Some(byte) = bytes.get_mut(at) {
        *byte = value;
    }
}

pub(crate) fn set_number(bytes: &mut Vec<u8>, at: usize, n: u16) {
    let [low, high] = n.to_le_bytes();
    set_byte(bytes, at, low);
    set_byte(bytes, at.saturating_add(1), high);
}
