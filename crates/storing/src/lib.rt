// A clause's row is stored behind the others, and sets a literal; what a clause of two literals does when it is made.
// A row that would pass a limit is not stored; then it is full.
#![tactic(auto)]

ghost use Rattle.std.specs.Prelude.{◌≡◌, not, ◌&&◌, ◌*◌, ◌<◌, ◌≤◌, leb, length};
ghost use Rattle.std.specs.Bool.{then_some};
ghost use Rattle.rules.specs.Decisions.{is_true};
ghost use Rattle.clause.specs.Literals.{literal_of};
ghost use Rattle.solver.specs.Clauses.{run_number};
ghost use Rattle.encoder.specs.Does.{IsTracked, decisions_of};
ghost use Rattle.storing.specs.Adding.{CanAdd, Stores, CanForce, Forces, Sets, outcome_in};

use clause::Literal;
use decision_tracker::Decision;
use encoder::{Run, State};
use solver::Clause;

// ---- rows

// The run's number of a conflict, unless the owner is out.
pub fn run_unless(conflict: bool, out: bool, run: Run) -> Option<u16>
    ensures { result ≡ then_some (conflict && not out) run.number }
{
    (conflict && !out).then_some(run.number)
}

// A clause behind the others, with the run in which it is a conflict.
pub fn store(state: &mut State, clauses: &mut [u8], clause: Clause, conflict: Option<u16>)
    requires { (state.old.used.clauses ≤ state.old.limits.clauses) × (state.old.limits.clauses ≤ 16384)
        × (state.old.limits.clauses * 20 ≤ length clauses.old) × (state.old.used.literals ≤ 8192) }
    ensures { Stores clause (run_number conflict) state.old clauses.old state.new clauses.new }
{
    if state.used.full != 0 {
        return;
    }
    if state.used.clauses < state.limits.clauses {
        state.used.clauses = solver::append(clauses, state.used.clauses, clause.row(conflict));
        state.used.literals += clause.condition_literals() as usize;
    } else {
        state.used = encoder::filled(state.used);
    }
}

// ---- a literal is set

// The last clause sets a literal true that is undecided.
fn force(state: &mut State, run: Run, literal: Literal)
    requires can_force { CanForce state.old literal }
    ensures { Forces run literal state.old state.new }
{
    match state.eval(literal) {
        None => {
            let new = Decision {
                variable: literal.variable(),
                value: literal.positive(),
                level: run.level,
                clause: Some(state.used.clauses as u16 - 1),
            };
            state.used.decisions = decision_tracker::decide(
                state.area,
                state.limits,
                state.used.decisions,
                new,
            );
        }
        Some(_) => {}
    }
}

// A clause behind the others, which sets a literal true that is undecided.
pub fn store_setting(
    state: &mut State,
    clauses: &mut [u8],
    run: Run,
    clause: Clause,
    literal: Literal,
)
    requires can_add { CanAdd state.old (length clauses.old) }
    requires literal_bound { (literal_of literal).variable < state.old.limits.variables }
    ensures { Sets run clause literal state.old clauses.old state.new clauses.new }
{
    store(state, clauses, clause, None);
    if state.used.full == 0 {
        force(state, run, literal);
    }
}

// ---- what decides whether one is

// Part x is true, and y is a variable of this run.
pub fn is_one(state: &State, run: Run, y: u16, x: u16) -> bool
    requires kept { IsTracked state.now }
    ensures { result ≡ (is_true (decisions_of state.now) x && leb run.before y) }
{
    state.is_true(x) && run.before <= y as usize
}

// What a clause of two literals does when it is made: it sets the one that is undecided where the other is false, and is a conflict where both are.
#[derive(Clone, Copy)]
pub enum Outcome {
    Nothing,
    Conflict,
    SetsFirst,
    SetsSecond,
}

#[tactic(auto, unfolding(crate::specs::Adding::outcome_in, crate::specs::Adding::outcome_of))]
pub fn outcome_of(state: &State, a: Literal, b: Literal) -> Outcome
    requires kept { IsTracked state.now }
    ensures { result ≡ outcome_in (decisions_of state.now) (literal_of a) (literal_of b) }
{
    match (state.eval(a), state.eval(b)) {
        (Some(false), Some(false)) => Outcome::Conflict,
        (Some(false), None) => Outcome::SetsSecond,
        (None, Some(false)) => Outcome::SetsFirst,
        _ => Outcome::Nothing,
    }
}
