// A constraint's task: a clause for each non-matching part, or, from 4 on, a violation variable.
#![tactic(auto)]

mod outside;

ghost use Rattle.std.specs.Prelude.{◌≡◌, true, [], ◌<◌, length};
ghost use Rattle.rules.specs.Candidates.{non_matching};
ghost use Rattle.rules.specs.Opening.{constraint};
ghost use Rattle.rules.specs.Variables.{chosen, violation, known};
ghost use Rattle.requirement.specs.Requirements.{owner_is};
ghost use Rattle.cache.specs.Lists.{Counted};
ghost use Rattle.encoder.specs.Held.{run_of, LongEnough, KnownUnlessFull};
ghost use Rattle.encoder.specs.Did.{is_full};
ghost use Rattle.encoder.specs.Does.{ClausesDoes, IsGoodWith, variables_of};
ghost use Rattle.owners.specs.Owners.{OwnerNumber, serving};
ghost use Rattle.constraints.specs.Constraints.{Knows, constrain_few, add_violation, constrain_many};
ghost use Rattle.index.specs.Views.{catalogue_of, counts_of, catalogue_in, counts_in};

use cache::Choice;
use encoder::{Run, State};
use index::{Catalogue, Index};
use parts::{Adding, Parts};
use requirement::Owner;
use variable_map::Origin;

// A clause for each non-matching part. The owner has its variable.
fn constrain_each(
    index: &Index,
    state: &mut State,
    clauses: &mut [u8],
    run: Run,
    r: usize,
    owner: Owner,
)
    requires good { IsGoodWith (catalogue_in index.now) state.old clauses.old [] }
    requires long_enough { LongEnough state.old.limits (length clauses.old) 16384 }
    requires number_nonzero { (0 < run.number) × (r < (counts_in index.now).ranges) × OwnerNumber owner }
    requires knows { Knows (is_full state.old.used) (variables_of state.old) (chosen (owner_is owner)) }
    ensures { ClausesDoes (catalogue_in index.now) (λ v. constrain_few (catalogue_in index.now) (run_of run) (owner_is owner) r) state.old clauses.old state.new clauses.new }
{
    outside::name_outside(index, state, r);
    let x = opening::variable_of(state, owners::owner_origin(owner));
    parts::add_each(
        index,
        state,
        clauses,
        run,
        Parts::Chosen {
            range: r,
            choice: Choice::NonMatching,
        },
        Adding::Constrains(x),
    );
}

// Under 4 non-matching parts, `count` of them: one clause each.
fn constrain_few(
    index: &Index,
    state: &mut State,
    clauses: &mut [u8],
    run: Run,
    r: usize,
    owner: Owner,
    count: usize,
)
    requires good { IsGoodWith (catalogue_in index.now) state.old clauses.old [] }
    requires long_enough { LongEnough state.old.limits (length clauses.old) 16384 }
    requires number_nonzero { (0 < run.number) × (r < (counts_in index.now).ranges) × OwnerNumber owner }
    requires knows { Knows (is_full state.old.used) (variables_of state.old) (chosen (owner_is owner)) }
    requires counted { Counted count (non_matching (catalogue_in index.now) r) }
    ensures { ClausesDoes (catalogue_in index.now) (λ v. constrain_few (catalogue_in index.now) (run_of run) (owner_is owner) r) state.old clauses.old state.new clauses.new }
{
    if count != 0 {
        constrain_each(index, state, clauses, run, r, owner);
    }
}

// From 4 on: a violation that is new has a clause for each part, and the owner one.
fn add_violation(
    index: &Index,
    state: &mut State,
    clauses: &mut [u8],
    run: Run,
    r: usize,
    owner: Owner,
    new: bool,
)
    requires good { IsGoodWith (catalogue_in index.now) state.old clauses.old [] }
    requires long_enough { LongEnough state.old.limits (length clauses.old) 16384 }
    requires number_nonzero { (0 < run.number) × (r < (counts_in index.now).ranges) × OwnerNumber owner }
    requires owner_known { (known (variables_of state.old) (chosen (owner_is owner)) ≡ true) × (known (variables_of state.old) (violation r) ≡ true) }
    requires known_unless_full { KnownUnlessFull (is_full state.old.used) (variables_of state.old) (non_matching (catalogue_in index.now) r) }
    ensures { ClausesDoes (catalogue_in index.now) (λ v. add_violation (catalogue_in index.now) (run_of run) (owner_is owner) r new) state.old clauses.old state.new clauses.new }
{
    let y = opening::variable_of(state, Origin::Violation(r as u16));
    let x = opening::variable_of(state, owners::owner_origin(owner));
    if new {
        outside::add_outs(index, state, clauses, run, r, y);
    }
    reporting::add_aux_owner(state, clauses, run, x, y);
}

fn constrain_many(
    index: &Index,
    state: &mut State,
    clauses: &mut [u8],
    run: Run,
    r: usize,
    owner: Owner,
)
    requires good { IsGoodWith (catalogue_in index.now) state.old clauses.old [] }
    requires long_enough { LongEnough state.old.limits (length clauses.old) 16384 }
    requires number_nonzero { (0 < run.number) × (r < (counts_in index.now).ranges) × OwnerNumber owner }
    requires knows { Knows (is_full state.old.used) (variables_of state.old) (chosen (owner_is owner)) }
    ensures { ClausesDoes (catalogue_in index.now) (λ v. constrain_many (catalogue_in index.now) (run_of run) (owner_is owner) r) state.old clauses.old state.new clauses.new }
{
    let new = state.variable(Origin::Violation(r as u16)).is_none();
    opening::name_variable(state, Origin::Violation(r as u16));
    outside::name_outside(index, state, r);
    if state.used.full == 0 {
        add_violation(index, state, clauses, run, r, owner, new);
    }
}

pub fn serve_constraint(
    catalogue: &Catalogue,
    state: &mut State,
    clauses: &mut [u8],
    run: Run,
    i: usize,
)
    requires good { IsGoodWith (catalogue_of catalogue.now) state.old clauses.old [] }
    requires long_enough { LongEnough state.old.limits (length clauses.old) 16384 }
    requires number_nonzero { 0 < run.number }
    requires i_lt_constraints { i < (counts_of catalogue.now).constraints }
    ensures { ClausesDoes (catalogue_of catalogue.now) (λ v. serving (catalogue_of catalogue.now) (run_of run) (constraint i)) state.old clauses.old state.new clauses.new }
{
    let it = catalogue.index.areas.tables.constraint_at(i);
    let r = it.range as usize;
    opening::name_variable(state, owners::owner_origin(it.owner));
    let count = catalogue.index.non_matching_count(r);
    if count < 4 {
        constrain_few(&catalogue.index, state, clauses, run, r, it.owner, count);
    } else {
        constrain_many(&catalogue.index, state, clauses, run, r, it.owner);
    }
}
