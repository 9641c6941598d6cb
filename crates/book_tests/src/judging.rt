//! What the crates under test say, in the words of the second reading.
use crate::reading::*;
use binder::unbound::Unbound;
use image::check::*;
use image::fault::{Fault, Kind};
use std::fmt::Display;
use std::process::Abort;
use timetable::refusal::Refusal;

impl From<Fault> for Told {
    fn from(fault: Fault) -> Told {
        Told::new(
            fault.refusal.number(),
            fault.byte,
            fault.part.number(),
            fault.row,
        )
    }
}

// A refusal of the binder that is no fault of the content stands at no byte, part or row.
impl From<Unbound> for Told {
    fn from(unbound: Unbound) -> Told {
        match unbound {
            Unbound::Faulty(fault) => Told::from(fault),
            Unbound::ShortImage => Told::new(unbound.refusal().number(), 0, 0, 0),
        }
    }
}

pub(crate) fn judge_image(bytes: &[u8]) -> Result<Form, Told> {
    Ok(match check_image(bytes)? {
        Kind::Printed => Form::Printed,
        Kind::ClockFace => Form::ClockFace,
    })
}

pub(crate) fn judge_as(bytes: &[u8], form: Form) -> Result<(), Told> {
    match form {
        Form::Printed => check_printed(bytes)?,
        Form::ClockFace => check_clock_face(bytes)?,
    }
    Ok(())
}

pub(crate) fn bound(res: Result<usize, Unbound>) -> Result<usize, Told> {
    res.map_err(Told::from)
}

pub(crate) fn numbered<T>(answer: Result<T, Refusal>) -> Result<T, u8> {
    answer.map_err(Refusal::number)
}

// Both readings say the same, whichever kind the bytes are judged as.
pub(crate) fn check_agreement(rt: &impl Abort, bytes: &[u8], said: &impl Display) {
    assert_eq!(rt; judge_image(bytes), read_image(bytes), "{said}");
    assert_eq!(rt;
        judge_as(bytes, Form::Printed),
        read_as(bytes, Form::Printed),
        "{said}"
    );
    assert_eq!(rt;
        judge_as(bytes, Form::ClockFace),
        read_as(bytes, Form::ClockFace),
        "{said}"
    );
}
