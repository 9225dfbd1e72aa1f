// A name's helper variables, after binary_encoding.rs: the clauses by which part i of a name agrees with the bits of i, and those of one-of-name.
// Once it is full nothing more is done.
#![tactic(auto)]

ghost use Rattle.std.specs.Prelude.{◌≡◌, ◌^◌, ◌<◌, ◌≤◌, eqb, length, get_or, take};
ghost use Rattle.rules.specs.AtMostOne.{agrees, helpers_for, helper_clauses, part_clauses};
ghost use Rattle.rules.specs.AtMostOne as rules;
ghost use Rattle.rules.specs.Clause.{any_one};
ghost use Rattle.variable_map.specs.Mapping.{AllKnown};
ghost use Rattle.marked.specs.Marked.{Marked};
ghost use Rattle.encoder.specs.Held.{LongEnough};
ghost use Rattle.encoder.specs.Does.{IsMapped, regions_of, variables_of};
ghost use Rattle.storing.specs.Adding.{Adds};
ghost use Rattle.tracking.specs.Joining.{AddsAll, NamesAll, GoodSome, GoodAny, first_helpers, join_origins, helper_variables, HelpersKnown, HelpersBelow, part_name, of_name, tracked_in, tracked_variables, variable_at, IsAt, new_helper_clauses, one_clauses, any_clauses, tracked_clauses, joined_clauses, CanJoin, CanAddPart, CanLink};

use clause::Literal;
use encoder::{Run, State};
use marked::MarkedList;
use tables::Tables;
use variable_map::Origin;

// ---- helpers

// 2 to the power j.
fn power_of(j: usize) -> u16
    requires { j < 11 }
    ensures { result ≡ 2 ^ j }
{
    1 << j
}

// Bit j of i.
fn bit(j: usize, i: u16) -> bool
    requires { j < 11 }
    ensures { result ≡ rules.bit j i }
{
    (i >> j) % 2 == 1
}

// How many helpers k tracked parts have.
pub fn helpers_for(k: u16) -> usize
    requires { k ≤ 1024 }
    ensures { result ≡ helpers_for k }
{
    for h in 0..10 {
        if k <= power_of(h) {
            return h;
        }
    }
    10
}

// The first h helpers of a name get their variables.
fn name_helpers(state: &mut State, name: u16, h: usize)
    requires good_any { GoodAny state.old }
    requires name_bound { (name < 64) × (h ≤ 10) }
    ensures { NamesAll (first_helpers name h) state.old state.new }
{
    for j in 0..h {
        opening::name_variable(
            state,
            Origin::Forbid {
                name,
                bit: j as u16,
            },
        );
    }
}

// The variables of the first h helpers of a name, which have them; then 0.
fn helpers_of(state: &State, name: u16, h: usize) -> [u16; 10]
    requires mapped { IsMapped state.now }
    requires name_bound { (name < 64) × (h ≤ 10) }
    requires helpers_known { HelpersKnown (variables_of state.now) name h }
    ensures { take h result ≡ helper_variables (variables_of state.now) name h }
{
    let mut helpers = [0; 10];
    for j in 0..h {
        helpers[j] = opening::variable_of(
            state,
            Origin::Forbid {
                name,
                bit: j as u16,
            },
        );
    }
    helpers
}

// ---- the tracked parts of a name

// Is the tracked part at a place one of this name?
fn is_of(tables: &Tables, state: &State, name: u16, at: usize) -> bool
    requires { at < state.now.used.tracked }
    ensures { result ≡ eqb (part_name tables.now.counts tables.now.area.now (get_or (tracked_in state.now) at 0)) name }
{
    let p = state.listed(MarkedList::Tracked, state.used.tracked, at);
    tables.part_name(p as usize) == name
}

// The variable of the tracked part at a place.
fn tracked_variable(state: &State, at: usize) -> u16
    requires mapped { IsMapped state.now }
    requires marked { Marked 10 11 state.now.used.tracked (regions_of state.now) }
    requires all_known { AllKnown (variables_of state.now) (tracked_in state.now) }
    requires at_lt_tracked { at < state.now.used.tracked }
    ensures { IsAt state.now at result }
{
    let p = state.listed(MarkedList::Tracked, state.used.tracked, at);
    opening::variable_of(state, Origin::Part(p))
}

// ---- the clauses of a part that joins

// Part x agrees with helper y, which has the value b.
fn agree(state: &mut State, clauses: &mut [u8], run: Run, x: u16, y: u16, b: bool)
    requires good_some { GoodSome state.old clauses.old }
    requires long_enough { LongEnough state.old.limits (length clauses.old) 16384 }
    requires number_nonzero { (0 < run.number) × (x < state.old.limits.variables) × (y < state.old.limits.variables) }
    ensures { Adds run (agrees x y b) state.old clauses.old state.new clauses.new }
{
    setting::add_forbid(state, clauses, run, x, Literal::new(y, b));
}

// Helper y, for bit j, and the tracked part at a place, which is part i of its name.
fn helper_clause(
    state: &mut State,
    clauses: &mut [u8],
    run: Run,
    y: u16,
    j: usize,
    i: u16,
    at: usize,
)
    requires good_some { GoodSome state.old clauses.old }
    requires long_enough { LongEnough state.old.limits (length clauses.old) 16384 }
    requires all_known { AllKnown (variables_of state.old) (tracked_in state.old) }
    requires number_nonzero { (0 < run.number) × (y < state.old.limits.variables) × (j < 10) × (at < state.old.used.tracked) }
    ensures { Adds run (agrees (variable_at state.old at) y (rules.bit j i)) state.old clauses.old state.new clauses.new }
{
    let x = tracked_variable(state, at);
    agree(state, clauses, run, x, y, bit(j, i));
}

// Helper y, for bit j: a clause for each tracked part of the name.
fn helper_clauses(
    tables: &Tables,
    state: &mut State,
    clauses: &mut [u8],
    run: Run,
    name: u16,
    y: u16,
    j: usize,
)
    requires good_some { GoodSome state.old clauses.old }
    requires long_enough { LongEnough state.old.limits (length clauses.old) 16384 }
    requires can_join { CanJoin state.old run }
    requires y_lt_variables { (y < state.old.limits.variables) × (j < 10) }
    ensures { AddsAll run (helper_clauses y j 0 (tracked_variables tables.now.counts tables.now.area.now state.old name)) state.old clauses.old state.new clauses.new }
{
    let mut i = 0;
    for at in 0..state.used.tracked {
        if is_of(tables, state, name, at) {
            helper_clause(state, clauses, run, y, j, i, at);
            if state.used.full != 0 {
                return;
            }
            i += 1;
        }
    }
}

// Part x, which is part i, agrees with each helper.
fn part_clauses(state: &mut State, clauses: &mut [u8], run: Run, x: u16, i: u16, helpers: &[u16])
    requires good_some { GoodSome state.old clauses.old }
    requires long_enough { LongEnough state.old.limits (length clauses.old) 16384 }
    requires number_nonzero { (0 < run.number) × (x < state.old.limits.variables) }
    requires helpers_below { HelpersBelow helpers.now i state.old.limits.variables }
    ensures { AddsAll run (part_clauses x i 0 helpers.now) state.old clauses.old state.new clauses.new }
{
    for j in 0..helpers.len() {
        agree(state, clauses, run, x, helpers[j], bit(j, i));
    }
}

// The any clause of part x, if the one-of-name variable is older than the run.
fn one_clause(state: &mut State, clauses: &mut [u8], run: Run, name: u16, x: u16)
    requires good_some { GoodSome state.old clauses.old }
    requires long_enough { LongEnough state.old.limits (length clauses.old) 16384 }
    requires name_bound { (name < 64) × (run.before ≤ state.old.used.variables) }
    ensures { AddsAll run (one_clauses run.before (variables_of state.old) name x) state.old clauses.old state.new clauses.new }
{
    let Some(y) = state.variable(Origin::One(name)) else {
        return;
    };
    if (y as usize) < run.before {
        setting::add_any_one(state, clauses, run, y, x);
    }
}

// A helper that the i parts before this one did not need has a clause for each of them.
fn new_helper(
    tables: &Tables,
    state: &mut State,
    clauses: &mut [u8],
    run: Run,
    name: u16,
    i: u16,
    helpers: &[u16],
)
    requires good_some { GoodSome state.old clauses.old }
    requires long_enough { LongEnough state.old.limits (length clauses.old) 16384 }
    requires can_join { CanJoin state.old run }
    requires i_bound { i < 1024 }
    requires helpers_below { HelpersBelow helpers.now i state.old.limits.variables }
    ensures { AddsAll run (new_helper_clauses i helpers.now (tracked_variables tables.now.counts tables.now.area.now state.old name)) state.old clauses.old state.new clauses.new }
{
    let h = helpers_for(i);
    if h < helpers.len() {
        helper_clauses(tables, state, clauses, run, name, helpers[h], h);
    }
}

// A part of variable x is added behind the i parts that are tracked of its name.
fn add_tracked(
    tables: &Tables,
    state: &mut State,
    clauses: &mut [u8],
    run: Run,
    name: u16,
    x: u16,
    i: u16,
    helpers: &[u16],
)
    requires good_some { GoodSome state.old clauses.old }
    requires long_enough { LongEnough state.old.limits (length clauses.old) 16384 }
    requires can_join { CanJoin state.old run }
    requires i_bound { (i < 1024) × (x < state.old.limits.variables) × (name < 64) }
    requires helpers_below { HelpersBelow helpers.now i state.old.limits.variables }
    ensures { AddsAll run (tracked_clauses run.before (variables_of state.old) name x i helpers.now (tracked_variables tables.now.counts tables.now.area.now state.old name)) state.old clauses.old state.new clauses.new }
{
    new_helper(tables, state, clauses, run, name, i, helpers);
    if state.used.full != 0 {
        return;
    }
    part_clauses(state, clauses, run, x, i, helpers);
    if state.used.full != 0 {
        return;
    }
    one_clause(state, clauses, run, name, x);
}

// ---- a part joins

// Part p and the first h helpers of its name get their variables.
pub fn name_join(state: &mut State, name: u16, p: u16, h: usize)
    requires good_any { GoodAny state.old }
    requires name_bound { (name < 64) × (h ≤ 10) × (p < 1024) }
    ensures { NamesAll (join_origins name p h) state.old state.new }
{
    opening::name_variable(state, Origin::Part(p));
    name_helpers(state, name, h);
}

// The clauses of part p, which has a variable as the h helpers have.
pub fn join_clauses(
    tables: &Tables,
    state: &mut State,
    clauses: &mut [u8],
    run: Run,
    name: u16,
    p: u16,
    i: u16,
    h: usize,
)
    requires good_some { GoodSome state.old clauses.old }
    requires long_enough { LongEnough state.old.limits (length clauses.old) 16384 }
    requires can_join { CanJoin state.old run }
    requires can_add_part { CanAddPart tables.now.counts tables.now.area.now state.old name p i h }
    ensures { AddsAll run (joined_clauses run.before (variables_of state.old) name p (of_name tables.now.counts tables.now.area.now name (tracked_in state.old))) state.old clauses.old state.new clauses.new }
{
    let x = opening::variable_of(state, Origin::Part(p));
    let helpers = helpers_of(state, name, h);
    add_tracked(tables, state, clauses, run, name, x, i, &helpers[..h]);
}

// ---- new one-of-name variables

// One-of-name y for the tracked part at a place.
fn any_clause(state: &mut State, clauses: &mut [u8], run: Run, y: u16, at: usize)
    requires good_some { GoodSome state.old clauses.old }
    requires long_enough { LongEnough state.old.limits (length clauses.old) 16384 }
    requires all_known { AllKnown (variables_of state.old) (tracked_in state.old) }
    requires y_lt_variables { (y < state.old.limits.variables) × (at < state.old.used.tracked) }
    ensures { Adds run (any_one y (variable_at state.old at)) state.old clauses.old state.new clauses.new }
{
    let x = tracked_variable(state, at);
    setting::add_any_one(state, clauses, run, y, x);
}

// One-of-name y for each tracked part of the name.
pub fn any_clauses(
    tables: &Tables,
    state: &mut State,
    clauses: &mut [u8],
    run: Run,
    name: u16,
    y: u16,
)
    requires good_some { GoodSome state.old clauses.old }
    requires long_enough { LongEnough state.old.limits (length clauses.old) 16384 }
    requires can_link { CanLink state.old }
    requires y_lt_variables { y < state.old.limits.variables }
    ensures { AddsAll run (any_clauses y (tracked_variables tables.now.counts tables.now.area.now state.old name)) state.old clauses.old state.new clauses.new }
{
    for at in 0..state.used.tracked {
        if is_of(tables, state, name, at) {
            any_clause(state, clauses, run, y, at);
            if state.used.full != 0 {
                return;
            }
        }
    }
}
