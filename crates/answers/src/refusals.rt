// Why something is refused, and where.
ghost use Rattle.std.specs.Prelude.{◌≡◌};
ghost use Rattle.answers.specs.Refusals.{number_of};

// Each refusal with the number that answers tell; docs/FORMAT.md says what it means in each file. (22 is no longer given.)
#[derive(Clone, Copy)]
pub enum Refusal {
    TooLong = 1,
    Truncated = 2,
    UnknownTag = 3,
    MisplacedTag = 4,
    WrongEdition = 5,
    WrongLength = 6,
    WrongConstants = 7,
    TooManyConstraints = 8,
    OtherConstants = 9,
    NoSuchLine = 10,
    WrongLineKind = 11,
    WrongMultiplier = 12,
    OutOfRange = 13,
    WrongClaim = 14,
    ConditionNotMet = 15,
    TooManyLines = 16,
    TooDeep = 17,
    TooManyRows = 18,
    FieldAfterEnd = 19,
    BranchesOpen = 20,
    OutputTooShort = 21,
    ValueOutOfRange = 23,
    WrongKinds = 24,
    WrongStages = 25,
    TooManyInRun = 26,
    ClaimInRun = 27,
    BranchesDiffer = 28,
    NoSuchSeat = 29,
    SeatTaken = 30,
    SeatEmpty = 31,
    NotShortProof = 32,
    NoFollowingProof = 33,
    PartOutside = 34,
    NoJob = 35,
}

impl Refusal {
    pub fn number(self) -> u8
        ensures { result ≡ number_of self }
    {
        self as u8
    }
}

// A refusal, and the place at fault.
#[derive(Clone, Copy)]
pub struct Fault {
    pub refusal: Refusal,
    pub place: usize,
}
