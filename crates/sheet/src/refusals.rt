// Why a sheet, a plan or a call is turned back (01, "Turned back", and 02), and where. specs/Refusals.antt states the numbers for the definitions.
ghost use Rattle.std.specs.Prelude.{◌≡◌};
ghost use Rattle.sheet.specs.Given.{number_of};

// The causes, in the order of their numbers.
#[derive(Clone, Copy, Debug, PartialEq, Eq)]
pub enum Refusal {
    TableTooSmall = 1,
    BufferTooSmall = 2,
    FieldCut = 3,
    TagNotPermitted = 4,
    LengthWrong = 5,
    OutOfRange = 6,
    TooMany = 7,
    NoMembers = 8,
    OrderNotProper = 9,
    OrderMissing = 10,
    // The given order is impossible or, where none is given, every proper one.
    OrderImpossible = 11,
    LayoutWrong = 12,
    RuleBroken = 13,
    FigureUntrue = 14,
    TimeTooLarge = 15,
    TimeOfZero = 16,
    // Of a window: its longest delay is below its shortest.
    LongestBelowShortest = 17,
}

impl Refusal {
    // The number that callers are given for it.
    pub fn number(self) -> u64
        ensures { result ≡ number_of self }
    {
        self as u64
    }
}

// A refusal and its place: the offset of a field's tag, 0 for a call whose buffers are too small.
#[derive(Clone, Copy, Debug, PartialEq, Eq)]
pub struct Refused {
    pub refusal: Refusal,
    pub place: usize,
}

impl Refused {
    pub fn new(refusal: Refusal, place: usize) -> Refused
        ensures { result ≡ record { refusal = refusal; place = place } }
    {
        Refused { refusal, place }
    }
}
