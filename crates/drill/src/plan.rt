//! Which books and which calls each board gets.
use crate::asking::Mix;
use crate::draft::Scale;
use crate::lots::Lots;
use crate::plain::Rows;

pub(crate) const BOARDS: u16 = 200;

pub(crate) const CALLS: u16 = 520;

// Mostly routes.
const CALM: Mix = Mix {
    withhold: 4,
    release: 14,
    shut: 15,
    open: 23,
    thin: 36,
};

// Mostly notices.
const BUSY: Mix = Mix {
    withhold: 12,
    release: 34,
    shut: 42,
    open: 60,
    thin: 70,
};

// Notices that fill the lists.
const FULL: Mix = Mix {
    withhold: 36,
    release: 44,
    shut: 70,
    open: 73,
    thin: 80,
};

pub(crate) fn mix_for(number: u16) -> Mix {
    match number % 10 {
        9 => FULL,
        1 | 4 | 7 => BUSY,
        _ => CALM,
    }
}

pub(crate) fn scale_for(lots: &mut Lots, number: u16) -> Scale {
    if number % 10 == 9 {
        return Scale {
            quays: 40,
            sailings: 80,
            runs: 100,
            window: 1440,
        };
    }
    Scale {
        quays: lots.below(7).saturating_add(2),
        sailings: if number % 10 == 8 {
            lots.below(6)
        } else {
            lots.below(25).saturating_add(16)
        },
        runs: lots.below(12).saturating_add(2),
        window: if number % 2 == 0 { 240 } else { 1440 },
    }
}

// Enough rows on most boards, and on some one row too few.
pub(crate) fn rows_for(number: u16, places: usize) -> Rows {
    let short = places.saturating_sub(1);
    let enough = places.saturating_add(usize::from(number % 3));
    let short_on = |pick| if number % 20 == pick { short } else { enough };
    Rows {
        labels: short_on(12),
        legs: short_on(15),
        items: u16::try_from(short_on(17)).unwrap_or(0),
    }
}
