// The terms of a call and its answers: whether its limits are allowed and its areas long enough (refusal 7), and the five numbers that it answers.
// Nothing here looks at a job.
#![tactic(auto)]

ghost use Rattle.std.specs.Prelude.{◌≡◌};
ghost use Rattle.rules.specs.Refusals.{number_and_place};
ghost use Rattle.rules.specs.Limits.{within, allowed, covers, needed, fits};
ghost use Rattle.rules.specs.Job.{accepts, refuses};
ghost use Rattle.refusal.specs.Refusing.{refusal_of};
ghost use Rattle.terms.specs.Terms.{Ceilings, lent_of, terms_of};
ghost use Rattle.state.specs.Limits.{limits_of};
ghost use Rattle.terms.specs.Answers.{Gives};

use refusal::RefusedAt;
use state::Limits;

// What a call answers: 0 or the number of a refusal, and its place; the listing's length, the variables and the clauses.
#[repr(C)]
#[derive(Clone, Copy, Debug, PartialEq, Eq)]
pub struct Answer {
    pub number: u64,
    pub place: u64,
    pub length: u64,
    pub variables: u64,
    pub clauses: u64,
}

// The lengths of the six work areas.
#[derive(Clone, Copy, Debug, PartialEq, Eq)]
pub struct Lent {
    pub marks: usize,
    pub unions: usize,
    pub catalogue: usize,
    pub clauses: usize,
    pub state: usize,
    pub waiting: usize,
}

// The terms of a call.
#[derive(Clone, Copy, Debug, PartialEq, Eq)]
pub struct Terms {
    pub limits: Limits,
    pub lent: Lent,
}

// ---- refusal 7

// Is a limit above 0, and no more than its ceiling?
#[tactic(auto, unfolding(rules::specs::Limits::within))]
fn within(most: usize, n: usize) -> bool
    ensures { result ≡ within most n }
{
    0 < n && n <= most
}

#[tactic(auto, unfolding(rules::specs::Limits::allowed, state::specs::Limits::limits_of))]
fn are_allowed(limits: Limits) -> bool
    ensures { result ≡ allowed (limits_of limits) }
{
    within(4096, limits.variables)
        && within(16384, limits.clauses)
        && within(8192, limits.literals)
        && within(2048, limits.waiting)
}

impl Lent {
    // Is each area as long as the limits ask?
    fn covers(self, limits: Limits) -> bool
        requires { Ceilings limits }
        ensures { result ≡ covers (needed (limits_of limits)) (lent_of self) }
    {
        65536 <= self.marks
            && 52428 <= self.unions
            && 50696 <= self.catalogue
            && limits.clauses * 20 <= self.clauses
            && limits.variables * 16 + limits.literals * 2 + (3649 + limits.waiting) * 2 + 34954
                <= self.state
            && 8 * limits.waiting <= self.waiting
    }
}

impl Terms {
    // Are the limits allowed, and the areas long enough for them?
    #[tactic(auto, using(crate::proofs::Fits::ceilings), unfolding(rules::specs::Limits::fits, crate::specs::Terms::terms_of))]
    pub fn fit(self) -> bool
        ensures { result ≡ fits (terms_of (limits_of self.limits) (lent_of self.lent) 0) }
    {
        are_allowed(self.limits) && self.lent.covers(self.limits)
    }
}

// ---- answers

impl Answer {
    pub fn accepted(length: usize, variables: usize, clauses: usize) -> Answer
        ensures { Gives result (accepts length variables clauses) }
    {
        Answer {
            number: 0,
            place: 0,
            length: length as u64,
            variables: variables as u64,
            clauses: clauses as u64,
        }
    }

    // In a job of this length.
    pub fn refused(length: usize, refused: RefusedAt) -> Answer
        ensures { Gives result (refuses (number_and_place length refused.at (refusal_of refused.refusal)).0 (number_and_place length refused.at (refusal_of refused.refusal)).1) }
    {
        let told = refused.told(length);
        Answer {
            number: u64::from(told.number),
            place: told.place as u64,
            length: 0,
            variables: 0,
            clauses: 0,
        }
    }
}
