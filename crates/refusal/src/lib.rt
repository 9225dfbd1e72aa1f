// What is wrong with a job, case by case, and the number and place that the paper gives it.
#![tactic(auto)]

ghost use Rattle.std.specs.Prelude.{◌≡◌};
ghost use Rattle.rules.specs.Refusals.{number_and_place};
ghost use Rattle.refusal.specs.Refusing.{refusal_of};

// What a catalogue gives by number.
#[derive(Clone, Copy, Debug, PartialEq, Eq)]
pub enum Thing {
    Name,
    Part,
    Range,
    Union,
    Condition,
    Requirement,
    Constraint,
}

#[derive(Clone, Copy, Debug, PartialEq, Eq)]
pub enum Contradiction {
    OtherBits,
    SecondLocked,
    SecondFavoured,
    PartOfAnotherName,
    MemberTwice,
    OtherOperator,
    OtherForm,
    OwnerUnknown,
    OtherValue,
}

#[derive(Clone, Copy, Debug, PartialEq, Eq)]
pub enum Refusal {
    Unfit,
    Overlong,
    UnknownKind,
    OutOfPlace,
    CutShort,
    TooMany(Thing),
    Missing(Thing, u8),
    MissingVariable(u8),
    Contradicts(Contradiction),
    DisjunctsOver,
    RangesOver,
    LevelLow,
    DecidedAgainst,
    RunFull,
    NotRun,
    ListingFull,
}

// A refusal with the byte of the record that it is of.
#[derive(Clone, Copy, Debug, PartialEq, Eq)]
pub struct RefusedAt {
    pub refusal: Refusal,
    pub at: usize,
}

// A refusal's number and place.
#[derive(Clone, Copy, Debug, PartialEq, Eq)]
pub struct Told {
    pub number: u8,
    pub place: usize,
}

impl Refusal {
    // In a job of this length, for the record at `at`.
    #[tactic(auto, unfolding(rules::specs::Refusals::number_and_place, crate::specs::Refusing::refusal_of))]
    pub fn number_and_place(self, length: usize, at: usize) -> Told
        ensures { (result.number, result.place) ≡ number_and_place length at (refusal_of self) }
    {
        let (number, place) = match self {
            Refusal::Unfit => (7, 0),
            Refusal::Overlong => (3, 0),
            Refusal::TooMany(_) => (3, at),
            Refusal::UnknownKind | Refusal::OutOfPlace => (2, at),
            Refusal::CutShort => (1, at),
            Refusal::Missing(_, _) | Refusal::MissingVariable(_) => (4, at),
            Refusal::Contradicts(_) => (5, at),
            Refusal::DisjunctsOver | Refusal::RangesOver => (6, at),
            Refusal::LevelLow => (9, at),
            Refusal::DecidedAgainst => (8, at),
            Refusal::RunFull => (10, at),
            Refusal::NotRun => (11, length),
            Refusal::ListingFull => (10, length),
        };
        Told { number, place }
    }
}

impl RefusedAt {
    // In a job of this length.
    pub fn told(self, length: usize) -> Told
        ensures { (result.number, result.place) ≡ number_and_place length self.at (refusal_of self.refusal) }
    {
        self.refusal.number_and_place(length, self.at)
    }
}
