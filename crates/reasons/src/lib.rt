// Why a call or a text is refused: the document's table of refusals, by the names that the header for C gives them.
#![tactic(auto)]

ghost use Rattle.std.specs.Prelude.{◌≡◌};
ghost use Rattle.reasons.specs.Numbers.{reason_number};

// A reason to refuse, with its number.
#[derive(Clone, Copy, Debug, PartialEq, Eq)]
pub enum Reason {
    BadRows = 1,
    BadCosts = 2,
    TooFewPlaces = 3,
    StrayJob = 4,
    WaitsForItself = 5,
    NoSuchJob = 6,
    BadCost = 7,
    CostsTooHigh = 8,
    TextTooLong = 9,
    BadLine = 10,
    WrongFrame = 11,
    BadHeader = 12,
    NotTheNextJob = 13,
    BadOperations = 14,
    ClockWentBack = 15,
    BadState = 16,
    WaitsTwice = 17,
    TWaitsNowhere = 18,
}

impl From<Reason> for u8 {
    ghost from_gives = { λ reason number. number ≡ reason_number reason };

    fn from(reason: Reason) -> u8
        ensures { result ≡ reason_number reason }
    {
        reason as u8
    }
}
