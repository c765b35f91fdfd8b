// Why a call or a step is refused, and why a box says no. Each error has the paper's number: specs/Errors.antt gives it, docs/CODES.md
// says what it means. They have a method for it each, and no trait and no From: `e.code()` says which number of an error it is, and nothing
// is generic over errors.
ghost use Rattle.std.specs.Prelude.{◌≡◌};

// A place on a train's route, both counted from 1.
#[derive(Clone, Copy, Default, PartialEq, Eq)]
pub struct RoutePlace {
    pub train: u8,
    pub place: u8,
}

// Why a call on a table or its file is refused.
#[derive(Clone, Copy, PartialEq, Eq)]
pub enum FileError {
    TooShort,
    NoMark,
    UnknownVersion,
    BadCounts,
    WrongLength,
    BadSegment,
    BadBox,
    BadListing,
    Loop,
    BadRouteShape,
    NoSuchSegment(RoutePlace),
    SharedStart,
    NoSuchTrain,
    NoRoom,
    NotFollowing(RoutePlace),
    StartAgainstWay,
}

impl FileError {
    ghost use Rattle.rules.specs.Errors.{refusal_of};

    pub fn code(self) -> u8
        ensures { result ≡ (refusal_of self).code }
    {
        match self {
            FileError::TooShort => 1,
            FileError::NoMark => 2,
            FileError::UnknownVersion => 3,
            FileError::BadCounts => 4,
            FileError::WrongLength => 5,
            FileError::BadSegment => 6,
            FileError::BadBox => 7,
            FileError::BadListing => 8,
            FileError::Loop => 9,
            FileError::BadRouteShape => 10,
            FileError::NoSuchSegment(_) => 11,
            FileError::SharedStart => 12,
            FileError::NoSuchTrain => 14,
            FileError::NoRoom => 26,
            FileError::NotFollowing(_) => 28,
            FileError::StartAgainstWay => 32,
        }
    }

    // Where on a route it is, for the two errors that are about a place; else train 0 and place 0, which is what a refusal tells in numbers
    // (`refusal_of`), and so no Option.
    pub fn at(self) -> RoutePlace
        ensures train { result.train ≡ (refusal_of self).train }
        ensures place { result.place ≡ (refusal_of self).place }
    {
        match self {
            FileError::NoSuchSegment(at) | FileError::NotFollowing(at) => at,
            _ => RoutePlace::default(),
        }
    }
}

// Why a step is refused.
#[derive(Clone, Copy, PartialEq, Eq)]
pub enum StepError {
    Malformed = 13,
    NoSuchTrain = 14,
    MessageOpen = 15,
    RouteEnds = 16,
    NotAddressed = 17,
    RecordedAlready = 18,
    NotReserved = 19,
    WrongSpan = 20,
    NothingUnderWay = 21,
    BadLine = 27,
    NotRecorded = 29,
    RadioIdle = 30,
}

impl StepError {
    ghost use Rattle.rules.specs.Errors.{step_code};

    pub fn code(self) -> u8
        ensures { result ≡ step_code self }
    {
        self as u8
    }
}

// A box's no to a request.
#[derive(Clone, Copy, PartialEq, Eq)]
pub enum Denial {
    Taken = 22,
    SensorActive = 23,
    LockTaken = 24,
    NotBothReserved = 25,
    AgainstWay = 31,
}

impl Denial {
    ghost use Rattle.rules.specs.Errors.{denial_code};

    pub fn code(self) -> u8
        ensures { result ≡ denial_code self }
    {
        self as u8
    }
}
