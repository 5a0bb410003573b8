// Why a call is refused: the numbered conditions of 01 and 02, and the number that a caller in C is given.
ghost use Rattle.std.specs.Prelude.{◌≡◌};
ghost use Rattle.sheet_calls.specs.Refused.{number, refusal_number};

#[derive(Clone, Copy, Debug, PartialEq, Eq)]
pub enum Refusal {
    OtherMark = 1,
    OtherVersion = 2,
    OtherCounts = 3,
    OtherLength = 4,
    WrongLines = 5,
    WrongNodes = 6,
    Outside = 7,
    EmptyRun = 8,
    OtherKind = 9,
    NoNode = 10,
    WrongNumbers = 11,
    TooStiff = 12,
    TooSteep = 13,
    ShortList = 14,
    SecondRefused = 15,
    OtherLines = 16,
    OtherSize = 17,
    OtherZones = 18,
    WrongZone = 19,
}

impl Refusal {
    pub fn number(self) -> u32
        ensures { result ≡ number self }
    {
        // by `as`, since the numbers stand at the cases: a `From` would only repeat it
        self as u32
    }
}

// 0 where a call is not refused, else the number.
pub fn refusal_number(outcome: Result<(), Refusal>) -> u32
    ensures { result ≡ refusal_number outcome }
{
    match outcome {
        Ok(()) => 0,
        Err(refusal) => refusal.number(),
    }
}
