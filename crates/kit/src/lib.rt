// The kit service's exported functions over lent memory: `check` judges a job's catalogue, `run` carries the whole job out and gives its listing.
// Both clear the six work areas on every way out.
#![tactic(auto)]

ghost use Rattle.std.specs.Prelude.{length};
ghost use Rattle.terms.specs.Terms.{lent_of, terms_of, four_limits};
ghost use Rattle.state.specs.Limits.{limits_of};
ghost use Rattle.terms.specs.Answers.{Gives};
ghost use Rattle.kit.specs.Checking.{Served};
ghost use Rattle.kit.specs.Running.{LendsAll, Runs, Ran};
ghost use Rattle.ending.specs.Ending as endings;

use ending::Accepted;
use refusal::{Refusal, RefusedAt};
use state::Limits;
use terms::{Answer, Lent, Terms};

// How long each area is.
fn lent(
    marks: &[u8],
    unions: &[u8],
    catalogue: &[u8],
    store: &[u8],
    state: &[u8],
    deferred: &[u8],
) -> Lent
    ensures { LendsAll result marks.now unions.now catalogue.now store.now state.now deferred.now }
{
    Lent {
        marks: marks.len(),
        unions: unions.len(),
        catalogue: catalogue.len(),
        clauses: store.len(),
        state: state.len(),
        waiting: deferred.len(),
    }
}

// ---- check

// Is the job's catalogue right? The four limits and six work areas are those that `run` would be given. After the call the areas are zero.
pub fn kit_check(
    job: &[u8],
    variables: u64,
    clauses: u64,
    literals: u64,
    waiting: u64,
    marks: &mut [u8],
    unions: &mut [u8],
    catalogue: &mut [u8],
    store: &mut [u8],
    state: &mut [u8],
    deferred: &mut [u8],
) -> Answer
    ensures { Served job.now (four_limits variables clauses literals waiting) result
        marks.old unions.old catalogue.old store.old state.old deferred.old
        marks.new unions.new catalogue.new store.new state.new deferred.new }
{
    let terms = Terms {
        limits: Limits {
            variables: variables as usize,
            clauses: clauses as usize,
            literals: literals as usize,
            waiting: waiting as usize,
        },
        lent: lent(marks, unions, catalogue, store, state, deferred),
    };
    checking::clear_three(store, state, deferred);
    checking::check_within(job, terms, marks, unions, catalogue)
}

// ---- run

// What is answered of a job's outcome.
fn told_outcome(length: usize, outcome: Result<Accepted, RefusedAt>) -> Answer
    ensures { Gives result (endings.told length outcome) }
{
    match outcome {
        Ok(job) => Answer::accepted(job.length, job.variables, job.clauses),
        Err(refused) => Answer::refused(length, refused),
    }
}

fn run_within(
    job: &[u8],
    terms: Terms,
    marks: &mut [u8],
    unions: &mut [u8],
    t: &mut [u8],
    clauses: &mut [u8],
    s: &mut [u8],
    w: &mut [u8],
    out: &mut [u8],
) -> Answer
    requires { LendsAll terms.lent marks.old unions.old t.old clauses.old s.old w.old }
    ensures { Runs job.now (terms_of (limits_of terms.limits) (lent_of terms.lent) (length out.old)) result out.old out.new }
{
    let length = job.len();
    if !terms.fit() {
        return Answer::refused(
            length,
            RefusedAt {
                refusal: Refusal::Unfit,
                at: 0,
            },
        );
    }
    if 65536 < length {
        return Answer::refused(
            length,
            RefusedAt {
                refusal: Refusal::Overlong,
                at: 0,
            },
        );
    }
    told_outcome(
        length,
        outcome::run(job, marks, unions, t, s, clauses, w, terms.limits, out),
    )
}

// The job's listing, or its refusal. After the call the six work areas are zero; a refusal leaves the listing area as it was.
pub fn kit_run(
    job: &[u8],
    variables: u64,
    clauses: u64,
    literals: u64,
    waiting: u64,
    marks: &mut [u8],
    unions: &mut [u8],
    catalogue: &mut [u8],
    store: &mut [u8],
    state: &mut [u8],
    deferred: &mut [u8],
    listing: &mut [u8],
) -> Answer
    ensures { Ran job.now (four_limits variables clauses literals waiting) result
        marks.old unions.old catalogue.old store.old state.old deferred.old listing.old
        marks.new unions.new catalogue.new store.new state.new deferred.new listing.new }
{
    let terms = Terms {
        limits: Limits {
            variables: variables as usize,
            clauses: clauses as usize,
            literals: literals as usize,
            waiting: waiting as usize,
        },
        lent: lent(marks, unions, catalogue, store, state, deferred),
    };
    let answer = run_within(
        job, terms, marks, unions, catalogue, store, state, deferred, listing,
    );
    checking::clear_three(marks, unions, catalogue);
    checking::clear_three(store, state, deferred);
    answer
}
