// The reasons for which an operation turns its input down, with the numbers by which the documents and C name them. specs/ says what each means.
#![tactic(auto)]

ghost use Rattle.std.specs.Prelude.{◌≡◌};
ghost use Rattle.refusals.specs.Number.{number_of};

#[derive(Clone, Copy, Debug, PartialEq, Eq)]
pub enum Refusal {
    WrongForm = 1,
    BadSize = 2,
    NoSuchPlace = 3,
    OutsideDomain = 4,
    TakenTwice = 5,
    DelayWithoutTake = 6,
    KineticTotal = 7,
    BadSamples = 8,
    BadRealizations = 9,
    BadHorizon = 10,
    ShortTable = 11,
    BadInstants = 12,
    BadLimit = 13,
    CountTooLarge = 14,
    TooManyTimers = 15,
    NoNormal = 16,
    BadLabel = 17,
    UsedLabel = 18,
    ShortBuffer = 19,
    UnequalPlaces = 20,
    BadRenaming = 21,
    BadTimer = 22,
    DelayedTransition = 23,
    BadSides = 24,
    NoSuchGoal = 25,
}

impl Refusal {
    // The number that the documents and C know it by.
    pub fn number(self) -> u64
        ensures { result ≡ number_of self }
    {
        self as u64
    }
}
