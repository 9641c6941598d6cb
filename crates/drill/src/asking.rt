//! Strings of calls drawn by lot.
use crate::draft::Scale;
use crate::lots::Lots;
use std::alloc::{AllocError, Global};
use timetable::call::Call;
use timetable::query::Query;

// Which lots of 100 are calls of each kind: those below the bound, and the others are routes.
#[derive(Clone, Copy)]
pub(crate) struct Mix {
    pub(crate) withhold: u16,
    pub(crate) release: u16,
    pub(crate) shut: u16,
    pub(crate) open: u16,
    pub(crate) thin: u16,
}

fn draw_query(lots: &mut Lots, quays: u16) -> Query {
    let from = lots.stray(quays);
    let mut to = lots.stray(quays);
    if from == to {
        to = lots.stray(quays);
    }
    Query {
        from,
        to,
        minute: lots.stray(1440),
        class: lots.stray(8),
    }
}

fn draw_call(lots: &mut Lots, scale: Scale, mix: Mix) -> Call {
    let lot = lots.below(100);
    if lot < mix.withhold {
        Call::Withhold(lots.stray(scale.runs))
    } else if lot < mix.release {
        Call::Release(lots.stray(scale.runs))
    } else if lot < mix.shut {
        Call::Shut(lots.stray(scale.quays))
    } else if lot < mix.open {
        Call::Open(lots.stray(scale.quays))
    } else if lot < mix.thin {
        Call::Thin
    } else {
        Call::Route(draw_query(lots, scale.quays))
    }
}

pub(crate) fn draw_calls(
    heap: Global,
    lots: &mut Lots,
    scale: Scale,
    mix: Mix,
    count: u16,
) -> Result<Vec<Call>, AllocError> {
    (0..count)
        .map(|_| draw_call(lots, scale, mix))
        .collect(heap)
}
