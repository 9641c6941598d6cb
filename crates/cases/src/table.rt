//! The worked cases. The figures stand here, and here alone: the contract says that they are what the definitions give.
ghost use Rattle.cases.specs.Cases.{Worked};

use crate::case::Case;
use timetable::query::{Leg, Query};

// The barge of the first sailing goes on, and the change at quay 1 is too long for all others.
const SAILS_ON: Case = Case {
    change: 30,
    shut: None,
    query: Query {
        from: 0,
        to: 2,
        minute: 470,
        class: 0,
    },
    arrival: Some(540),
    plan: &[
        Leg {
            place: 0,
            leaves: 480,
            arrives: 500,
        },
        Leg {
            place: 2,
            leaves: 505,
            arrives: 540,
        },
    ],
};

// A minute late for that barge: it leaves again a day later.
const NEXT_DAY: Case = Case {
    change: 30,
    shut: None,
    query: Query {
        from: 0,
        to: 2,
        minute: 481,
        class: 0,
    },
    arrival: Some(1980),
    plan: &[
        Leg {
            place: 0,
            leaves: 1920,
            arrives: 1940,
        },
        Leg {
            place: 2,
            leaves: 1945,
            arrives: 1980,
        },
    ],
};

// The last sailing arrives on the day after.
const OVER_MIDNIGHT: Case = Case {
    change: 30,
    shut: None,
    query: Query {
        from: 0,
        to: 3,
        minute: 470,
        class: 0,
    },
    arrival: Some(1450),
    plan: &[
        Leg {
            place: 0,
            leaves: 480,
            arrives: 500,
        },
        Leg {
            place: 2,
            leaves: 505,
            arrives: 540,
        },
        Leg {
            place: 5,
            leaves: 1430,
            arrives: 1450,
        },
    ],
};

// Who is there already takes no leg and no minute.
const STAYS: Case = Case {
    change: 30,
    shut: None,
    query: Query {
        from: 2,
        to: 2,
        minute: 600,
        class: 0,
    },
    arrival: Some(600),
    plan: &[],
};

// Nothing leaves quay 3.
const NO_WAY_BACK: Case = Case {
    change: 30,
    shut: None,
    query: Query {
        from: 3,
        to: 0,
        minute: 470,
        class: 0,
    },
    arrival: None,
    plan: &[],
};

// A change of 25 minutes just catches the shorter sailing.
const JUST_CAUGHT: Case = Case {
    change: 25,
    shut: None,
    query: Query {
        from: 0,
        to: 2,
        minute: 470,
        class: 0,
    },
    arrival: Some(530),
    plan: &[
        Leg {
            place: 1,
            leaves: 470,
            arrives: 490,
        },
        Leg {
            place: 3,
            leaves: 515,
            arrives: 530,
        },
    ],
};

// A change of 26 misses it.
const JUST_MISSED: Case = Case {
    change: 26,
    shut: None,
    query: Query {
        from: 0,
        to: 2,
        minute: 470,
        class: 0,
    },
    arrival: Some(540),
    plan: &[
        Leg {
            place: 0,
            leaves: 480,
            arrives: 500,
        },
        Leg {
            place: 2,
            leaves: 505,
            arrives: 540,
        },
    ],
};

// So does cargo of class 1, which takes five minutes more.
const HEAVIER: Case = Case {
    change: 25,
    shut: None,
    query: Query {
        from: 0,
        to: 2,
        minute: 470,
        class: 1,
    },
    arrival: Some(540),
    plan: &[
        Leg {
            place: 0,
            leaves: 480,
            arrives: 500,
        },
        Leg {
            place: 2,
            leaves: 505,
            arrives: 540,
        },
    ],
};

// Every way to quay 2 leads over quay 1.
const SHUT: Case = Case {
    change: 30,
    shut: Some(1),
    query: Query {
        from: 0,
        to: 2,
        minute: 470,
        class: 0,
    },
    arrival: None,
    plan: &[],
};

// The answer to each of the worked questions, in their order.
pub fn worked_cases() -> [Case; 9]
    ensures { Worked result }
{
    [
        SAILS_ON,
        NEXT_DAY,
        OVER_MIDNIGHT,
        STAYS,
        NO_WAY_BACK,
        JUST_CAUGHT,
        JUST_MISSED,
        HEAVIER,
        SHUT,
    ]
}
