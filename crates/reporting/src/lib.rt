// Clauses that report a conflict, at most: stored behind the others, and heeded as they are made.
// A clause that would pass a limit is not stored; then it is full.
#![tactic(auto)]

ghost use Rattle.std.specs.Prelude.{◌≡◌, ◌+◌, ◌<◌, ◌≤◌, length};
ghost use Rattle.rules.specs.Clause.{excluded, constrains, aux_owner, lock};
ghost use Rattle.requirement.specs.Requirements.{goal_of};
ghost use Rattle.storing.specs.Adding.{reason_for, CanAdd, Adds, AddsRequires};

use encoder::{Run, State};
use requirement::Requirement;
use solver::Clause;

// Part p, whose variable is x, is excluded, for its unknown dependencies or else for its exclusion.
pub fn add_excluded(state: &mut State, clauses: &mut [u8], run: Run, x: u16, p: u16, unknown: bool)
    requires can_add { CanAdd state.old (length clauses.old) }
    requires number_nonzero { 0 < run.number }
    ensures added { Adds run (excluded x p (reason_for unknown)) state.old clauses.old state.new clauses.new }
    ensures same { state.new.area.now ≡ state.old.area.now }
{
    let conflict = state.is_true(x).then_some(run.number);
    let clause = if unknown {
        Clause::Unknown {
            variable: x,
            part: p,
        }
    } else {
        Clause::Excluded {
            variable: x,
            part: p,
        }
    };
    storing::store(state, clauses, clause, conflict);
}

pub fn add_constrains(state: &mut State, clauses: &mut [u8], run: Run, owner: u16, x: u16)
    requires can_add { CanAdd state.old (length clauses.old) }
    requires number_nonzero { 0 < run.number }
    ensures added { Adds run (constrains owner x) state.old clauses.old state.new clauses.new }
    ensures same { state.new.area.now ≡ state.old.area.now }
{
    let chosen = state.is_true(x);
    let out = state.is_false(owner);
    let clause = Clause::Constrains { owner, variable: x };
    storing::store(
        state,
        clauses,
        clause,
        storing::run_unless(chosen, out, run),
    );
}

pub fn add_aux_owner(state: &mut State, clauses: &mut [u8], run: Run, owner: u16, violation: u16)
    requires can_add { CanAdd state.old (length clauses.old) }
    requires number_nonzero { 0 < run.number }
    ensures added { Adds run (aux_owner owner violation) state.old clauses.old state.new clauses.new }
    ensures same { state.new.area.now ≡ state.old.area.now }
{
    let violated = state.is_true(violation);
    let out = state.is_false(owner);
    let clause = Clause::AuxOwner { owner, violation };
    storing::store(
        state,
        clauses,
        clause,
        storing::run_unless(violated, out, run),
    );
}

pub fn add_lock(state: &mut State, clauses: &mut [u8], run: Run, x: u16)
    requires can_add { CanAdd state.old (length clauses.old) }
    ensures added { Adds run (lock x) state.old clauses.old state.new clauses.new }
    ensures same { state.new.area.now ≡ state.old.area.now }
{
    storing::store(state, clauses, Clause::Lock(x), None);
}

// An owner's requires, whose literals there is room for.
fn store_requires(
    state: &mut State,
    clauses: &mut [u8],
    run: Run,
    owner: u16,
    count: usize,
    goal: Requirement,
    all: bool,
)
    requires can_add { CanAdd state.old (length clauses.old) }
    requires number_nonzero { (0 < run.number) × (state.old.used.literals + count ≤ state.old.limits.literals) }
    ensures added { AddsRequires run owner count (goal_of goal) all state.old clauses.old state.new clauses.new }
    ensures same { state.new.area.now ≡ state.old.area.now }
{
    let out = state.is_false(owner);
    let clause = Clause::Requires {
        owner,
        start: state.used.literals as u16,
        count: count as u16,
        goal,
    };
    storing::store(state, clauses, clause, storing::run_unless(all, out, run));
}

// An owner's requires: its condition literals are the `count` numbers behind those of the stored clauses, its candidates those of the goal.
pub fn add_requires(
    state: &mut State,
    clauses: &mut [u8],
    run: Run,
    owner: u16,
    count: usize,
    goal: Requirement,
    all: bool,
)
    requires can_add { CanAdd state.old (length clauses.old) }
    requires number_nonzero { (0 < run.number) × (count ≤ 16384) }
    ensures added { AddsRequires run owner count (goal_of goal) all state.old clauses.old state.new clauses.new }
    ensures same { state.new.area.now ≡ state.old.area.now }
{
    if state.used.full != 0 {
        return;
    }
    if state.limits.literals < state.used.literals + count {
        state.used = encoder::filled(state.used);
    } else {
        store_requires(state, clauses, run, owner, count, goal, all);
    }
}
