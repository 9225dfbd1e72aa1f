// A requirement's task: its candidates get variables, are named for tracking and opened if ready; then its clauses are added.
// Once it is full nothing more is done.
#![tactic(auto)]

ghost use Rattle.std.specs.Prelude.{◌≡◌, true, false, [], ◌<◌, length};
ghost use Rattle.rules.specs.Lists.{distinct};
ghost use Rattle.rules.specs.Catalogue.{goal_at};
ghost use Rattle.rules.specs.Candidates.{goal_ranges};
ghost use Rattle.rules.specs.Conditions.{disjunct_at, disjuncts_of, unconditional};
ghost use Rattle.rules.specs.Opening.{requirement};
ghost use Rattle.rules.specs.Variables.{gate};
ghost use Rattle.cache.specs.Areas.{catalogue};
ghost use Rattle.marked.specs.Marked.{Marked};
ghost use Rattle.encoder.specs.Held.{run_of, LongEnough};
ghost use Rattle.encoder.specs.Does.{ClausesDoes, IsGoodState, IsGoodWith, regions_of, variables_of};
ghost use Rattle.owners.specs.Owners.{serving};
ghost use Rattle.naming.specs.Naming.{name_disjuncts, GivenIndices};
ghost use Rattle.naming.specs.Settled.{AreSettled};
ghost use Rattle.naming.specs.Alike.{ClausesDoAlike};
ghost use Rattle.condition_literals.specs.Literals.{AtHand, owner_origin, Named, Found, FiredKnown, DisjunctKnown};
ghost use Rattle.handling.specs.Handling.{add_direct, add_gate, add_through_gate, add_fired, add_all_fired, add_unconditional, handled};
ghost use Rattle.index.specs.Views.{catalogue_of, counts_of};

use encoder::{Run, State};
use index::Catalogue;
use requirement::Owner;
use variable_map::Origin;

// ---- clauses

// The variable of its owner, which has one.
fn owner_variable(catalogue: &Catalogue, state: &State, q: usize) -> u16
    requires good_state { IsGoodState (catalogue_of catalogue.now) state.now }
    requires q_lt_requirements { q < (counts_of catalogue.now).requirements }
    requires named { Named (catalogue_of catalogue.now) q (variables_of state.now) }
    ensures { Found state.now.limits (variables_of state.now) (owner_origin (catalogue_of catalogue.now) q) result }
{
    let it = catalogue.index.areas.tables.requirement_at(q);
    opening::variable_of(state, owners::owner_origin(it.owner))
}

// The requires clause of an unconditional requirement.
fn add_direct(
    catalogue: &Catalogue,
    state: &mut State,
    clauses: &mut [u8],
    run: Run,
    q: usize,
    ranges: usize,
)
    requires good { IsGoodWith (catalogue_of catalogue.now) state.old clauses.old [] }
    requires long_enough { LongEnough state.old.limits (length clauses.old) 16384 }
    requires q_lt_requirements { (q < (counts_of catalogue.now).requirements) × (0 < run.number) }
    requires at_hand { AtHand (catalogue_of catalogue.now) q ranges (regions_of state.old) }
    requires named { Named (catalogue_of catalogue.now) q (variables_of state.old) }
    ensures { ClausesDoes (catalogue_of catalogue.now) (λ v. add_direct (catalogue_of catalogue.now) (run_of run) q) state.old clauses.old state.new clauses.new }
{
    let it = catalogue.index.areas.tables.requirement_at(q);
    let x = owner_variable(catalogue, state, q);
    let all = condition_literals::rest_false(catalogue, state, q, ranges, 0);
    reporting::add_requires(state, clauses, run, x, 0, it.requirement, all);
}

// A gate that is new, its variable being g, has a clause of its own.
fn add_gate(
    catalogue: &Catalogue,
    state: &mut State,
    clauses: &mut [u8],
    run: Run,
    q: usize,
    ranges: usize,
    g: u16,
    new: bool,
)
    requires good { IsGoodWith (catalogue_of catalogue.now) state.old clauses.old [] }
    requires long_enough { LongEnough state.old.limits (length clauses.old) 16384 }
    requires q_lt_requirements { (q < (counts_of catalogue.now).requirements) × (0 < run.number) }
    requires at_hand { AtHand (catalogue_of catalogue.now) q ranges (regions_of state.old) }
    requires named { Named (catalogue_of catalogue.now) q (variables_of state.old) }
    requires found { Found state.old.limits (variables_of state.old) (gate (goal_at (catalogue_of catalogue.now) q)) g }
    ensures { ClausesDoes (catalogue_of catalogue.now) (λ v. add_gate (catalogue_of catalogue.now) (run_of run) q new) state.old clauses.old state.new clauses.new }
{
    if new {
        let it = catalogue.index.areas.tables.requirement_at(q);
        let all = condition_literals::rest_false(catalogue, state, q, ranges, 0);
        setting::add_gated(state, clauses, run, g, it.requirement, all);
    }
}

fn add_through_gate(
    catalogue: &Catalogue,
    state: &mut State,
    clauses: &mut [u8],
    run: Run,
    q: usize,
    ranges: usize,
)
    requires good { IsGoodWith (catalogue_of catalogue.now) state.old clauses.old [] }
    requires long_enough { LongEnough state.old.limits (length clauses.old) 16384 }
    requires q_lt_requirements { (q < (counts_of catalogue.now).requirements) × (0 < run.number) }
    requires at_hand { AtHand (catalogue_of catalogue.now) q ranges (regions_of state.old) }
    requires named { Named (catalogue_of catalogue.now) q (variables_of state.old) }
    ensures { ClausesDoes (catalogue_of catalogue.now) (λ v. add_through_gate (catalogue_of catalogue.now) (run_of run) q) state.old clauses.old state.new clauses.new }
{
    let it = catalogue.index.areas.tables.requirement_at(q);
    let gate = Origin::Gate(it.requirement);
    let new = state.variable(gate).is_none();
    opening::name_variable(state, gate);
    if state.used.full != 0 {
        return;
    }
    let g = opening::variable_of(state, gate);
    let x = owner_variable(catalogue, state, q);
    add_gate(catalogue, state, clauses, run, q, ranges, g, new);
    setting::add_any_gate(state, clauses, run, g, x);
}

// The requires clause of a fired disjunct.
fn add_fired(
    catalogue: &Catalogue,
    state: &mut State,
    clauses: &mut [u8],
    run: Run,
    q: usize,
    ranges: usize,
    i: usize,
)
    requires good { IsGoodWith (catalogue_of catalogue.now) state.old clauses.old [] }
    requires long_enough { LongEnough state.old.limits (length clauses.old) 16384 }
    requires q_lt_requirements { (q < (counts_of catalogue.now).requirements) × (0 < run.number) × (unconditional (catalogue_of catalogue.now) q ≡ false) × (i < length (disjuncts_of (catalogue_of catalogue.now) q)) }
    requires at_hand { AtHand (catalogue_of catalogue.now) q ranges (regions_of state.old) }
    requires named { Named (catalogue_of catalogue.now) q (variables_of state.old) }
    requires disjunct_known { DisjunctKnown (catalogue_of catalogue.now) (variables_of state.old) (disjunct_at (catalogue_of catalogue.now) q i) }
    ensures { ClausesDoes (catalogue_of catalogue.now) (λ v. add_fired (catalogue_of catalogue.now) (run_of run) q i) state.old clauses.old state.new clauses.new }
{
    let count = condition_literals::disjunct_literals(catalogue, state, q, i);
    if state.limits.literals - state.used.literals < count {
        state.used = encoder::filled(state.used);
        return;
    }
    let it = catalogue.index.areas.tables.requirement_at(q);
    let x = owner_variable(catalogue, state, q);
    let all = condition_literals::rest_false(catalogue, state, q, ranges, count);
    reporting::add_requires(state, clauses, run, x, count, it.requirement, all);
}

fn add_all_fired(
    catalogue: &Catalogue,
    state: &mut State,
    clauses: &mut [u8],
    run: Run,
    q: usize,
    ranges: usize,
    indices: &[u16],
)
    requires good { IsGoodWith (catalogue_of catalogue.now) state.old clauses.old [] }
    requires long_enough { LongEnough state.old.limits (length clauses.old) 16384 }
    requires q_lt_requirements { (q < (counts_of catalogue.now).requirements) × (0 < run.number) × (unconditional (catalogue_of catalogue.now) q ≡ false) }
    requires at_hand { AtHand (catalogue_of catalogue.now) q ranges (regions_of state.old) }
    requires named { Named (catalogue_of catalogue.now) q (variables_of state.old) }
    requires given_indices { GivenIndices (catalogue_of catalogue.now) q indices.now }
    requires fired_known { FiredKnown (catalogue_of catalogue.now) (variables_of state.old) q indices.now }
    ensures { ClausesDoes (catalogue_of catalogue.now) (λ v. add_all_fired (catalogue_of catalogue.now) (run_of run) q indices.now) state.old clauses.old state.new clauses.new }
{
    for index in indices {
        if state.used.full != 0 {
            return;
        }
        add_fired(catalogue, state, clauses, run, q, ranges, *index as usize);
    }
}

// ---- the task

fn handle_conditional(
    catalogue: &Catalogue,
    state: &mut State,
    clauses: &mut [u8],
    run: Run,
    q: usize,
    ranges: usize,
    indices: &[u16],
)
    requires good { IsGoodWith (catalogue_of catalogue.now) state.old clauses.old [] }
    requires long_enough { LongEnough state.old.limits (length clauses.old) 16384 }
    requires q_lt_requirements { (q < (counts_of catalogue.now).requirements) × (0 < run.number) × (unconditional (catalogue_of catalogue.now) q ≡ false) }
    requires at_hand { AtHand (catalogue_of catalogue.now) q ranges (regions_of state.old) }
    requires named { Named (catalogue_of catalogue.now) q (variables_of state.old) }
    requires given_indices { GivenIndices (catalogue_of catalogue.now) q indices.now }
    ensures { ClausesDoes (catalogue_of catalogue.now) (λ v. λ u. add_all_fired (catalogue_of catalogue.now) (run_of run) q indices.now (name_disjuncts (catalogue_of catalogue.now) q indices.now u)) state.old clauses.old state.new clauses.new }
{
    naming::name_disjuncts(catalogue, state, q, indices);
    if state.used.full != 0 {
        return;
    }
    add_all_fired(catalogue, state, clauses, run, q, ranges, indices);
}

fn handle_unconditional(
    catalogue: &Catalogue,
    state: &mut State,
    clauses: &mut [u8],
    run: Run,
    q: usize,
    ranges: usize,
)
    requires good { IsGoodWith (catalogue_of catalogue.now) state.old clauses.old [] }
    requires long_enough { LongEnough state.old.limits (length clauses.old) 16384 }
    requires q_lt_requirements { (q < (counts_of catalogue.now).requirements) × (0 < run.number) × (unconditional (catalogue_of catalogue.now) q ≡ true) }
    requires at_hand { AtHand (catalogue_of catalogue.now) q ranges (regions_of state.old) }
    requires named { Named (catalogue_of catalogue.now) q (variables_of state.old) }
    ensures { ClausesDoes (catalogue_of catalogue.now) (λ v. add_unconditional (catalogue_of catalogue.now) (run_of run) q) state.old clauses.old state.new clauses.new }
{
    let it = catalogue.index.areas.tables.requirement_at(q);
    if it.owner == Owner::Root || goals::count(catalogue, it.requirement, 4) < 4 {
        add_direct(catalogue, state, clauses, run, q, ranges);
        return;
    }
    add_through_gate(catalogue, state, clauses, run, q, ranges);
}

// Its goal's ranges being at hand. Of candidates that are known to be settled one of each name is named.
fn handle(
    catalogue: &Catalogue,
    state: &mut State,
    clauses: &mut [u8],
    run: Run,
    q: usize,
    indices: &[u16],
    ranges: usize,
    settled: bool,
)
    requires good { IsGoodWith (catalogue_of catalogue.now) state.old clauses.old [] }
    requires long_enough { LongEnough state.old.limits (length clauses.old) 16384 }
    requires q_lt_requirements { (q < (counts_of catalogue.now).requirements) × (0 < run.number) }
    requires at_hand { AtHand (catalogue_of catalogue.now) q ranges (regions_of state.old) }
    requires given_indices { GivenIndices (catalogue_of catalogue.now) q indices.now }
    requires settles { settled ≡ true → AreSettled (catalogue_of catalogue.now) (distinct (goal_ranges (catalogue_of catalogue.now) (goal_at (catalogue_of catalogue.now) q))) state.old }
    ensures { ClausesDoes (catalogue_of catalogue.now) (λ v. handled (catalogue_of catalogue.now) (run_of run) q settled indices.now) state.old clauses.old state.new clauses.new }
{
    let it = catalogue.index.areas.tables.requirement_at(q);
    opening::name_variable(state, owners::owner_origin(it.owner));
    naming::name_candidates(catalogue, state, ranges, settled);
    if state.used.full != 0 {
        return;
    }
    match it.condition {
        None => handle_unconditional(catalogue, state, clauses, run, q, ranges),
        Some(_) => handle_conditional(catalogue, state, clauses, run, q, ranges, indices),
    }
}

// Requirement q is handled for these disjuncts. `settled`: its candidates are known to be settled.
pub fn serve_requirement(
    catalogue: &Catalogue,
    state: &mut State,
    clauses: &mut [u8],
    run: Run,
    q: usize,
    indices: &[u16],
    settled: bool,
)
    requires good { IsGoodWith (catalogue_of catalogue.now) state.old clauses.old [] }
    requires long_enough { LongEnough state.old.limits (length clauses.old) 16384 }
    requires q_lt_requirements { (q < (counts_of catalogue.now).requirements) × (0 < run.number) }
    requires marked { Marked 14 15 0 (regions_of state.old) }
    requires given_indices { GivenIndices (catalogue_of catalogue.now) q indices.now }
    requires settles { settled ≡ true → AreSettled (catalogue_of catalogue.now) (distinct (goal_ranges (catalogue_of catalogue.now) (goal_at (catalogue_of catalogue.now) q))) state.old }
    ensures { ClausesDoAlike (catalogue_of catalogue.now) (λ v. serving (catalogue_of catalogue.now) (run_of run) (requirement q indices.now)) state.old clauses.old state.new clauses.new }
{
    let it = catalogue.index.areas.tables.requirement_at(q);
    let ranges = goals::gather(catalogue, state, it.requirement);
    handle(catalogue, state, clauses, run, q, indices, ranges, settled);
    goals::release(state, ranges);
}
