//! The limits that hold for every book, and for what is asked of one.

pub const MINUTES_OF_DAY: u16 = 1440;

pub const LAST_MINUTE: u16 = 1439;

pub const LAST_CLASS: u16 = 7;

pub const MOST_QUAYS: u16 = 256;

pub const MOST_PLACES: u16 = 3072;
