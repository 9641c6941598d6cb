ghost use Rattle.std.specs.Prelude.{◌≡◌};
ghost use Rattle.timetable.specs.Refusals.{number_of};

// Every reason for which a call may refuse what it was handed, with the number by which it is told.
#[derive(Clone, Copy, PartialEq, Debug)]
pub enum Refusal {
    // images
    CutOff = 1,
    NotDue = 2,
    OutOfLimits = 3,
    FromFalls = 4,
    BytesFollow = 5,
    SeriesLeaves = 6,
    // numbers
    NoQuay = 11,
    LateMinute = 12,
    NoPlace = 13,
    NoClass = 14,
    // memory
    ShortBuffer = 21,
    SmallLine = 22,
    HeapFull = 23,
    NoRank = 24,
    NoItem = 25,
    // notices
    RunWithheld = 31,
    RunNotWithheld = 32,
    RunsFull = 33,
    QuayShut = 34,
    QuayNotShut = 35,
    QuaysFull = 36,
    // plans
    NoSailing = 41,
    WrongMinutes = 42,
    WrongQuay = 43,
    TooEarly = 44,
    EndsElsewhere = 45,
    // typed lines
    NoLetter = 51,
    NoNumber = 52,
    Surplus = 53,
    LongLine = 54,
}

impl Refusal {
    // The number by which a refusal is told.
    pub fn number(self) -> u8
        ensures { result ≡ number_of self }
    {
        self as u8
    }
}
