// The definitions of FD:OCA descriptors and data blocks stand in specs/, and theorems about them in proofs/. This file has the types
// of what the calls return: what they tell of an accepted input, or the refusal.

#![tactic(auto)]

ghost use Rattle.std.specs.Prelude.{◌≡◌};
ghost use Rattle.fdoca.specs.Returned.{number_of};

// The reasons of refusals, each as its number in the table of numbers.
#[derive(Clone, Copy, Debug, PartialEq, Eq)]
pub enum Reason {
    Oversize = 1,
    TornTriplet = 2,
    UnknownConstruct = 3,
    OutOfSequence = 4,
    BadLength = 5,
    BadParameter = 6,
    NameTaken = 7,
    MissingReference = 8,
    NotCarried = 9,
    TooManyItems = 10,
    NothingDescribed = 11,
    SmallList = 12,
    ShortData = 13,
    BadCount = 14,
    NoEnd = 15,
    Surplus = 16,
    NoSuchItem = 17,
    WrongKind = 18,
    BadFile = 19,
    BadDigit = 20,
    ColumnMisfit = 21,
    Endless = 22,
    NoExactFloat = 23,
    BadIndicator = 24,
}

impl Reason {
    // The number that callers in C are given.
    pub fn number(self) -> u32
        ensures { result ≡ number_of self }
    {
        self as u32
    }
}

// A refusal: its reason, and its place in the descriptor or the data.
#[derive(Clone, Copy, Debug, PartialEq, Eq)]
pub struct Refusal {
    pub reason: Reason,
    pub place: u32,
}

// An item's state: its null mark and type code, and how many bytes precede its value, are its value, and follow it.
#[derive(Clone, Copy, Debug, PartialEq, Eq)]
pub struct State {
    pub null: bool,
    pub code: u8,
    pub lead: u32,
    pub value: u32,
    pub spare: u32,
}

// A packed item: a whole number, of whose digits the last `fraction` stand behind the decimal point, or null.
#[derive(Clone, Copy, Debug, PartialEq, Eq)]
pub struct Decimal {
    pub value: Option<i64>,
    pub fraction: u8,
}

// The value of an item of a numeric type.
#[derive(Clone, Copy)]
pub enum Value {
    Null,
    Whole(i64),
    Real(f64),
}
