ghost use Rattle.std.specs.Prelude.{◌≡◌};
ghost use Rattle.routing.specs.Blank.{blank_label};

use crate::ride::Ride;

// What is known of a place: nothing, a ride that may yet be bettered, or its earliest ride.
#[derive(Clone, Copy)]
pub enum Label {
    Unseen,
    Waiting(Ride),
    Settled(Ride),
}

impl Label {
    // A label that tells nothing, to make buffers of. A route takes labels as they are.
    pub fn blank() -> Label
        ensures { result ≡ blank_label }
    {
        Label::Unseen
    }
}
