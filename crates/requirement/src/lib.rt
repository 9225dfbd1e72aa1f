// Requirements, after requirement.rs and conditional_requirement.rs: a goal, and a goal with its owner and condition.
// A record gives owners and conditions by numbers, of which 65,535 is the root, and no condition.
#![tactic(auto)]

ghost use Rattle.std.specs.Prelude.{◌≡◌};
ghost use Rattle.rules.specs.Items as rules;
ghost use Rattle.requirement.specs.Requirements.{goal_of, form_of, number_of, owner_number, condition_number, OwnerOf, ConditionOf};

// The number of the root, and of no condition.
const NO_NUMBER: u16 = 65535;

// Who requires something: the root, or a part by its number.
#[derive(Clone, Copy, PartialEq, Eq)]
pub enum Owner {
    Root,
    Part(u16),
}

impl From<u16> for Owner {
    ghost from_gives = { OwnerOf };

    fn from(number: u16) -> Owner {
        if number == NO_NUMBER {
            Owner::Root
        } else {
            Owner::Part(number)
        }
    }
}

impl From<Owner> for u16 {
    ghost from_gives = { λ owner number. number ≡ owner_number owner };

    fn from(owner: Owner) -> u16 {
        match owner {
            Owner::Root => NO_NUMBER,
            Owner::Part(part) => part,
        }
    }
}

// The condition of a record's number.
pub fn condition_of(number: u16) -> Option<u16>
    ensures { ConditionOf number result }
{
    if number == NO_NUMBER {
        None
    } else {
        Some(number)
    }
}

// The number of a condition in a record.
pub fn condition_number(condition: Option<u16>) -> u16
    ensures { result ≡ condition_number condition }
{
    condition.unwrap_or(NO_NUMBER)
}

// What is asked for: a range or a union, by its number.
#[derive(Clone, Copy, PartialEq, Eq)]
pub enum Requirement {
    Single(u16),
    Union(u16),
}

// A requirement of an owner under a condition.
#[derive(Clone, Copy, PartialEq, Eq)]
pub struct ConditionalRequirement {
    pub owner: Owner,
    pub requirement: Requirement,
    pub condition: Option<u16>,
}

impl Requirement {
    // Form 0 is a range, any other a union.
    pub fn from_parts(form: u16, number: u16) -> Self
        ensures { goal_of result ≡ rules.goal_of form number }
    {
        if form == 0 {
            Requirement::Single(number)
        } else {
            Requirement::Union(number)
        }
    }

    pub fn form(self) -> u16
        ensures { result ≡ form_of (goal_of self) }
    {
        match self {
            Requirement::Single(_) => 0,
            Requirement::Union(_) => 1,
        }
    }

    pub fn number(self) -> u16
        ensures { result ≡ number_of (goal_of self) }
    {
        match self {
            Requirement::Single(range) => range,
            Requirement::Union(union) => union,
        }
    }
}
