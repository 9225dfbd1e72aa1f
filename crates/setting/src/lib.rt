// Clauses that may set a literal: stored behind the others, and heeded as they are made.
// A clause that would pass a limit is not stored; then it is full.
#![tactic(auto)]

ghost use Rattle.std.specs.Prelude.{◌<◌, length};
ghost use Rattle.rules.specs.Clause.{forbid, aux_out, any_gate, any_one};
ghost use Rattle.requirement.specs.Requirements.{goal_of};
ghost use Rattle.clause.specs.Literals.{literal_of};
ghost use Rattle.storing.specs.Adding.{CanAdd, Adds, CanPair, AddsPair, AddsGated};

use clause::Literal;
use encoder::{Run, State};
use requirement::Requirement;
use solver::Clause;
use storing::Outcome;

// A gate's own requires: the gate is made false if all candidates are.
pub fn add_gated(
    state: &mut State,
    clauses: &mut [u8],
    run: Run,
    gate: u16,
    goal: Requirement,
    all: bool,
)
    requires can_add { CanAdd state.old (length clauses.old) }
    requires gate_lt_variables { gate < state.old.limits.variables }
    ensures { AddsGated run gate (goal_of goal) all state.old clauses.old state.new clauses.new }
{
    let clause = Clause::Gated { gate, goal };
    if all {
        storing::store_setting(state, clauses, run, clause, Literal::new(gate, false));
    } else {
        storing::store(state, clauses, clause, None);
    }
}

pub fn add_aux_out(state: &mut State, clauses: &mut [u8], run: Run, x: u16, violation: u16)
    requires can_add { CanAdd state.old (length clauses.old) }
    requires violation_lt_variables { violation < state.old.limits.variables }
    ensures { Adds run (aux_out x violation) state.old clauses.old state.new clauses.new }
{
    let clause = Clause::AuxOut {
        variable: x,
        violation,
    };
    if state.is_true(x) {
        storing::store_setting(state, clauses, run, clause, Literal::new(violation, true));
    } else {
        storing::store(state, clauses, clause, None);
    }
}

// One-of-name y for part x.
pub fn add_any_one(state: &mut State, clauses: &mut [u8], run: Run, y: u16, x: u16)
    requires can_add { CanAdd state.old (length clauses.old) }
    requires y_lt_variables { y < state.old.limits.variables }
    ensures { Adds run (any_one y x) state.old clauses.old state.new clauses.new }
{
    let clause = Clause::AnyOne {
        one: y,
        variable: x,
    };
    if storing::is_one(state, run, y, x) {
        storing::store_setting(state, clauses, run, clause, Literal::new(y, true));
    } else {
        storing::store(state, clauses, clause, None);
    }
}

// A clause whose two literals are a and b.
fn add_pair(state: &mut State, clauses: &mut [u8], run: Run, clause: Clause, a: Literal, b: Literal)
    requires can_add { CanAdd state.old (length clauses.old) }
    requires can_pair { CanPair state.old.limits run a b }
    ensures { AddsPair run clause a b state.old clauses.old state.new clauses.new }
{
    match storing::outcome_of(state, a, b) {
        Outcome::Nothing => storing::store(state, clauses, clause, None),
        Outcome::Conflict => storing::store(state, clauses, clause, Some(run.number)),
        Outcome::SetsFirst => storing::store_setting(state, clauses, run, clause, a),
        Outcome::SetsSecond => storing::store_setting(state, clauses, run, clause, b),
    }
}

// Part x agrees with a helper's literal.
pub fn add_forbid(state: &mut State, clauses: &mut [u8], run: Run, x: u16, helper: Literal)
    requires can_add { CanAdd state.old (length clauses.old) }
    requires number_nonzero { (0 < run.number) × (x < state.old.limits.variables) × ((literal_of helper).variable < state.old.limits.variables) }
    ensures { Adds run (forbid x (literal_of helper)) state.old clauses.old state.new clauses.new }
{
    add_pair(
        state,
        clauses,
        run,
        Clause::Forbid {
            variable: x,
            helper,
        },
        Literal::new(x, false),
        helper,
    );
}

pub fn add_any_gate(state: &mut State, clauses: &mut [u8], run: Run, gate: u16, owner: u16)
    requires can_add { CanAdd state.old (length clauses.old) }
    requires number_nonzero { (0 < run.number) × (gate < state.old.limits.variables) × (owner < state.old.limits.variables) }
    ensures { Adds run (any_gate gate owner) state.old clauses.old state.new clauses.new }
{
    add_pair(
        state,
        clauses,
        run,
        Clause::AnyGate { gate, owner },
        Literal::new(gate, true),
        Literal::new(owner, false),
    );
}
