//! A book of either kind.
ghost use Rattle.std.specs.Prelude.{◌≡◌};
ghost use Rattle.image.specs.Checks.{image_check};
ghost use Rattle.image.specs.Images.{Tells};
ghost use Rattle.image.specs.Faults.{Wrong, Told};
ghost use Rattle.books.specs.Opened.{kind_told, LiesOver, OpensAs};
ghost use Rattle.image.specs.declared.fault.Fault.{Fault};

use crate::clock_face::ClockFace;
use crate::printed::Printed;
use image::check::check_image;
use image::fault::{Fault, Kind};

#[derive(Clone, Copy)]
pub enum Opened<'a> {
    Printed(Printed<'a>),
    ClockFace(ClockFace<'a>),
}

impl<'a> Opened<'a> {
    // Opens an image as the kind that it is. Bytes that are no image are refused, with the first thing that is wrong with them.
    pub fn open(bytes: &'a [u8]) -> Result<Opened<'a>, Fault>
        ensures kind { kind_told result ≡ image_check bytes.now }
        ensures book { LiesOver bytes.now result }
        ensures means { OpensAs bytes.now result }
        ensures exact { Tells bytes.now (kind_told result) }
        ensures first { (e : Fault) → Told (kind_told result) (Wrong bytes.now) e }
    {
        match check_image(bytes)? {
            Kind::Printed => Ok(Opened::Printed(Printed { bytes })),
            Kind::ClockFace => Ok(Opened::ClockFace(ClockFace { bytes })),
        }
    }
}
