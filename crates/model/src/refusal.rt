// The refusals of documents 01 and 02: each has its number and its P.
ghost use Rattle.std.specs.Prelude.{◌≡◌};

// Why a call is refused. What P is stands in parentheses; where nothing does, it is 0.
#[derive(Clone, Copy, PartialEq, Eq, Debug)]
pub enum Refusal {
    NoFrames,
    TooManyFrames,
    CapacityAboveLimit,
    StartAboveCapacity,
    EndAboveCapacity,
    // the earliest such frame
    HarvestAboveLimit(u64),
    WrongLength,
    // the word's place
    BadWord(u64),
    // the amount missing
    OutOfReach(u64),
    // the earliest such frame
    BadBounds(u64),
    LeastsOutOfReach,
    AllRecorded,
    // the amount too much
    UseTooGreat(u64),
    NotShift,
}

impl Refusal {
    ghost use Rattle.model.specs.Answer.{told};

    // The refusal's number.
    pub fn number(self) -> u32
        ensures { result ≡ (told self).number }
    {
        match self {
            Refusal::NoFrames => 1,
            Refusal::TooManyFrames => 2,
            Refusal::CapacityAboveLimit => 3,
            Refusal::StartAboveCapacity => 4,
            Refusal::EndAboveCapacity => 5,
            Refusal::HarvestAboveLimit(_) => 6,
            Refusal::WrongLength => 7,
            Refusal::BadWord(_) => 8,
            Refusal::OutOfReach(_) => 9,
            Refusal::BadBounds(_) => 10,
            Refusal::LeastsOutOfReach => 11,
            Refusal::AllRecorded => 20,
            Refusal::UseTooGreat(_) => 21,
            Refusal::NotShift => 22,
        }
    }

    // The refusal's P.
    pub fn p(self) -> u64
        ensures { result ≡ (told self).p }
    {
        match self {
            Refusal::HarvestAboveLimit(p)
            | Refusal::BadWord(p)
            | Refusal::OutOfReach(p)
            | Refusal::BadBounds(p)
            | Refusal::UseTooGreat(p) => p,
            _ => 0,
        }
    }
}
