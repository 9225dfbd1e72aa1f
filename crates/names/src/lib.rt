// A name's task: a locked part makes every other part of the name false beside the root; then each excluded part is false.
#![tactic(auto)]

ghost use Rattle.std.specs.Prelude.{◌≡◌, [], ◌++◌, ◌<◌, length, slice_get};
ghost use Rattle.rules.specs.Lists.{fold};
ghost use Rattle.rules.specs.Candidates.{locked_part, locked_out, excluded_parts};
ghost use Rattle.rules.specs.Opening.{serve_name};
ghost use Rattle.rules.specs.Opening as rules;
ghost use Rattle.encoder.specs.Held.{run_of, LongEnough, KnownUnlessFull};
ghost use Rattle.encoder.specs.Did.{on_opening, is_full};
ghost use Rattle.encoder.specs.Does.{StateDoes, ClausesDoes, IsGood, IsGoodWith, variables_of};
ghost use Rattle.parts.specs.declared.Naming.TheVariants.{Variable};
ghost use Rattle.parts.specs.declared.Adding.TheVariants as Adding;
ghost use Rattle.parts.specs.Parts.{naming_of, adding_of};
ghost use Rattle.owners.specs.Owners.{serving};
ghost use Rattle.names.specs.Names.{NamesParts, add_clauses};
ghost use Rattle.index.specs.Views.{catalogue_of, catalogue_in};

use encoder::{Run, State};
use index::{Catalogue, Index};
use parts::{Adding, Naming, Parts};

// The locked part of a name, if it has one.
fn locked_part(index: &Index, name: u16) -> Option<usize>
    ensures { result ≡ slice_get (locked_part (catalogue_in index.now) name) 0 }
{
    let which = Parts::Locked(name);
    let mut p = which.first(index);
    while p < index.areas.tables.counts.parts {
        if which.selects(index, p) {
            return Some(p);
        }
        p = which.next(index, p);
    }
    None
}

fn serve_several(index: &Index, state: &mut State, name: u16)
    requires good { IsGood (catalogue_in index.now) state.old }
    ensures { StateDoes (catalogue_in index.now) (λ v. on_opening (serve_name (catalogue_in index.now) name)) state.old state.new }
{
    if index.areas.tables.several_allowed(name as usize) {
        opening::push_several(state, name);
    }
}

// If there is a locked part, it and then the others get their variables.
fn name_locked(index: &Index, state: &mut State, name: u16, locked: Option<usize>)
    requires good { IsGood (catalogue_in index.now) state.old }
    requires locked_value { locked ≡ slice_get (locked_part (catalogue_in index.now) name) 0 }
    ensures { StateDoes (catalogue_in index.now) (λ v. fold (naming_of (catalogue_in index.now) Variable) (locked_part (catalogue_in index.now) name ++ locked_out (catalogue_in index.now) name)) state.old state.new }
{
    match locked {
        Some(locked) => {
            parts::name_each(index, state, Parts::Locked(name), Naming::Variable);
            parts::name_each(
                index,
                state,
                Parts::Others { name, locked },
                Naming::Variable,
            );
        }
        None => {}
    }
}

// The locked part, the others and the excluded parts get their variables.
fn name_parts(index: &Index, state: &mut State, name: u16, locked: Option<usize>)
    requires good { IsGood (catalogue_in index.now) state.old }
    requires locked_value { locked ≡ slice_get (locked_part (catalogue_in index.now) name) 0 }
    ensures { NamesParts (catalogue_in index.now) name state.old state.new }
{
    serve_several(index, state, name);
    name_locked(index, state, name, locked);
    parts::name_each(index, state, Parts::Excluded(name), Naming::Variable);
}

// If there is a locked part, the others are locked out.
fn lock_others(
    index: &Index,
    state: &mut State,
    clauses: &mut [u8],
    run: Run,
    name: u16,
    locked: Option<usize>,
)
    requires good { IsGoodWith (catalogue_in index.now) state.old clauses.old [] }
    requires long_enough { LongEnough state.old.limits (length clauses.old) 16384 }
    requires number_nonzero { 0 < run.number }
    requires locked_value { locked ≡ slice_get (locked_part (catalogue_in index.now) name) 0 }
    requires known_unless_full { KnownUnlessFull (is_full state.old.used) (variables_of state.old) (locked_out (catalogue_in index.now) name) }
    ensures { ClausesDoes (catalogue_in index.now) (λ v. fold (adding_of (run_of run) Adding.Lock) (locked_out (catalogue_in index.now) name)) state.old clauses.old state.new clauses.new }
{
    match locked {
        Some(locked) => parts::add_each(
            index,
            state,
            clauses,
            run,
            Parts::Others { name, locked },
            Adding::Lock,
        ),
        None => {}
    }
}

// The clauses of a name whose parts have their variables.
fn add_clauses(
    index: &Index,
    state: &mut State,
    clauses: &mut [u8],
    run: Run,
    name: u16,
    locked: Option<usize>,
)
    requires good { IsGoodWith (catalogue_in index.now) state.old clauses.old [] }
    requires long_enough { LongEnough state.old.limits (length clauses.old) 16384 }
    requires number_nonzero { 0 < run.number }
    requires locked_value { locked ≡ slice_get (locked_part (catalogue_in index.now) name) 0 }
    requires known_unless_full { KnownUnlessFull (is_full state.old.used) (variables_of state.old) (locked_out (catalogue_in index.now) name) }
    requires known_unless_full_2 { KnownUnlessFull (is_full state.old.used) (variables_of state.old) (excluded_parts (catalogue_in index.now) name) }
    ensures { ClausesDoes (catalogue_in index.now) (λ v. add_clauses (catalogue_in index.now) (run_of run) name) state.old clauses.old state.new clauses.new }
{
    lock_others(index, state, clauses, run, name, locked);
    parts::add_each(
        index,
        state,
        clauses,
        run,
        Parts::Excluded(name),
        Adding::Excluded,
    );
}

pub fn serve_name(catalogue: &Catalogue, state: &mut State, clauses: &mut [u8], run: Run, name: u16)
    requires good { IsGoodWith (catalogue_of catalogue.now) state.old clauses.old [] }
    requires long_enough { LongEnough state.old.limits (length clauses.old) 16384 }
    requires number_nonzero { 0 < run.number }
    ensures { ClausesDoes (catalogue_of catalogue.now) (λ v. serving (catalogue_of catalogue.now) (run_of run) (rules.name name)) state.old clauses.old state.new clauses.new }
{
    let locked = locked_part(&catalogue.index, name);
    name_parts(&catalogue.index, state, name, locked);
    add_clauses(&catalogue.index, state, clauses, run, name, locked);
}
