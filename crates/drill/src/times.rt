//! The minutes of sailings, worked out anew: what is drilled is not asked.
use timetable::sailing::Sailing;

// The minute at which a sailing that is taken at `minute` or later first arrives.
pub(crate) fn arrival(s: Sailing, minute: u32) -> u32 {
    next_departure(s, minute).saturating_add(length(s))
}

pub(crate) fn length(s: Sailing) -> u32 {
    let dep = u32::from(s.dep);
    let arr = u32::from(s.arr);
    if dep <= arr {
        arr.saturating_sub(dep)
    } else {
        arr.saturating_add(1440).saturating_sub(dep)
    }
}

// Today if the minute of the day has not passed, else tomorrow.
pub(crate) fn next_departure(s: Sailing, minute: u32) -> u32 {
    let dep = u32::from(s.dep);
    let past = minute % 1440;
    let midnight = minute.saturating_sub(past);
    let today = midnight.saturating_add(dep);
    if past <= dep {
        today
    } else {
        today.saturating_add(1440)
    }
}

pub(crate) fn continues(s: Sailing, before: Sailing) -> bool {
    s.run == before.run && Some(s.leg) == before.leg.checked_add(1) && s.from == before.to
}
