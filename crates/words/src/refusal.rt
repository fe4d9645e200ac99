// The refusals of the unit's calls, each named by what is wrong, and their numbers.
ghost use Rattle.std.specs.Prelude.{◌≡◌};
ghost use Rattle.calculus.specs.Refusal.{number};
ghost use Rattle.words.specs.Types.{refusal_of};

#[derive(Clone, Copy, PartialEq, Eq)]
pub enum Refusal {
    WrongLength = 1,
    WrongHeader = 2,
    WrongValue = 3,
    WrongLink = 4,
    WrongChildren = 5,
    WrongFree = 6,
    WrongWorkspace = 7,
    TooLong = 8,
    OverBudget = 9,
    NoTerm = 10,
    WrongLine = 11,
    WrongBits = 12,
    NoCombinator = 13,
}

impl Refusal {
    pub fn number(self) -> u32
        ensures { result ≡ number (refusal_of self) }
    {
        self as u32
    }
}
