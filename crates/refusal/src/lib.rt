// The papers' refusals: every way in which a call is refused, and the number by which each is told to C, to a line's reader and to people.
#![tactic(auto)]

ghost use Rattle.std.specs.Prelude.{◌≡◌};
ghost use Rattle.refusal.specs.Refusal.{number_of, number_told};

// Why a call is refused, in the order of the numbers.
#[derive(Clone, Copy, PartialEq, Eq)]
pub enum Refusal {
    MaxLevel,
    MinLevel,
    LevelMod,
    MaxCells,
    Region,
    Memory,
    QueueFull,
    RawFull,
    Allowance,
    ListTooLong,
    Malformed(u64),
    NamesTooLong,
    TooManyOrders,
    Edition,
    FirstList,
    SecondList,
    SetTooLong,
    NotRanges,
    RangesTooLong,
}

impl Refusal {
    // The papers' number.
    pub fn number(self) -> u64
        ensures { result ≡ number_of self }
    {
        match self {
            Refusal::MaxLevel => 1,
            Refusal::MinLevel => 2,
            Refusal::LevelMod => 3,
            Refusal::MaxCells => 4,
            Refusal::Region => 5,
            Refusal::Memory => 6,
            Refusal::QueueFull => 7,
            Refusal::RawFull => 8,
            Refusal::Allowance => 9,
            Refusal::ListTooLong => 10,
            Refusal::Malformed(_) => 11,
            Refusal::NamesTooLong => 12,
            Refusal::TooManyOrders => 13,
            Refusal::Edition => 14,
            Refusal::FirstList => 15,
            Refusal::SecondList => 16,
            Refusal::SetTooLong => 17,
            Refusal::NotRanges => 25,
            Refusal::RangesTooLong => 26,
        }
    }
}

// The number of an answer: 0 for a success, else the refusal's.
pub fn number<T: Drop>(answer: Result<T, Refusal>) -> u64
    ensures { result ≡ number_told answer }
{
    match answer {
        Ok(_) => 0,
        Err(refusal) => refusal.number(),
    }
}
