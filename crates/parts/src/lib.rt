// Parts of a rule, one after another in file order: they get variables, are named for tracking and opened, or a clause is added for each.
#![tactic(auto)]

ghost use Rattle.std.specs.Prelude.{◌≡◌, true, not, ◌&&◌, [], ◌∷◌, ◌+◌, ◌<◌, eqb, length, get_or};
ghost use Rattle.rules.specs.Lists.{fold, when};
ghost use Rattle.rules.specs.Catalogue.{no_part};
ghost use Rattle.rules.specs.Opening.{open_ready, name_for_tracking};
ghost use Rattle.rules.specs.Variables.{known, part_origin};
ghost use Rattle.tables.specs.Tables.{flag_of};
ghost use Rattle.index.specs.Chains.{Skips};
ghost use Rattle.encoder.specs.Held.{run_of, LongEnough, KnownUnlessFull};
ghost use Rattle.encoder.specs.Does.{StateDoes, ClausesDoes, IsGood, IsGoodWith, IsMapped, variables_of};
ghost use Rattle.encoder.specs.Did.{on_opening, is_full};
ghost use Rattle.parts.specs.declared.Naming.TheVariants.{Tracked, Candidate};
ghost use Rattle.parts.specs.Parts.{selected_of, parts_for, naming_of, adding_of, CanAdd, Settled, Due};
ghost use Rattle.index.specs.Views.{catalogue_in, counts_in};
ghost use Rattle.tables.specs.Views.{tables_of as tables_at};

use cache::Choice;
use encoder::{Run, State};
use index::Index;
use marked::MarkedList;
use tables::{Flag, Tables};
use variable_map::Origin;

// Which parts: those chosen of a range; of a name the locked one, all but the locked one, or the excluded ones.
#[derive(Clone, Copy)]
pub enum Parts {
    Chosen { range: usize, choice: Choice },
    Locked(u16),
    Others { name: u16, locked: usize },
    Excluded(u16),
}

// What is named: a variable; for a part that is also tracked; for a candidate, which is also opened if it is ready.
// Kept: no plainer: over a trait or closures, in place of this enum and of `Adding`, each of these arms would need an impl or a contract of its own over the state and the clauses.
#[derive(Clone, Copy)]
pub enum Naming {
    Variable,
    Tracked,
    Candidate,
}

// The clause that is added: lock, excluded, constrains of an owner's variable, aux-out of a violation.
#[derive(Clone, Copy)]
pub enum Adding {
    Lock,
    Excluded,
    Constrains(u16),
    AuxOut(u16),
}

// Is part p of this name, with this flag?
fn is_flagged(tables: &Tables, name: u16, flag: Flag, p: usize) -> bool
    ensures { result ≡ (eqb (get_or (tables_at tables.now).parts p no_part).name name && flag_of flag (get_or (tables_at tables.now).parts p no_part)) }
{
    tables.part_name(p) == name && tables.has(flag, p)
}

// Is part p of this name, and not the locked one?
fn is_other(tables: &Tables, name: u16, locked: usize, p: usize) -> bool
    ensures { result ≡ (eqb (get_or (tables_at tables.now).parts p no_part).name name && not (eqb p locked)) }
{
    tables.part_name(p) == name && p != locked
}

impl Parts {
    // Is part p one of these?
    pub fn selects(self, index: &Index, p: usize) -> bool
        ensures { result ≡ selected_of (catalogue_in index.now) self p }
    {
        let tables = &index.areas.tables;
        match self {
            Parts::Chosen { range, choice } => index.areas.chosen(range, choice, p),
            Parts::Locked(name) => is_flagged(tables, name, Flag::Locked, p),
            Parts::Others { name, locked } => is_other(tables, name, locked, p),
            Parts::Excluded(name) => is_flagged(tables, name, Flag::Excluded, p),
        }
    }

    // The first of them, or a part before it.
    pub fn first(self, index: &Index) -> usize
        ensures { Skips (counts_in index.now).parts (selected_of (catalogue_in index.now) self) 0 result }
    {
        match self {
            Parts::Chosen { range, choice } => index.first_chosen(range, choice),
            Parts::Locked(name) => index.first_part(name),
            Parts::Others { name, locked: _ } => index.first_part(name),
            Parts::Excluded(name) => index.first_part(name),
        }
    }

    // The next one behind part p, or a part before it.
    pub fn next(self, index: &Index, p: usize) -> usize
        requires { p < (counts_in index.now).parts }
        ensures { Skips (counts_in index.now).parts (selected_of (catalogue_in index.now) self) (p + 1) result }
    {
        match self {
            Parts::Chosen { range, choice } => index.next_chosen(range, choice, p),
            Parts::Locked(name) => index.next_part(name, p),
            Parts::Others { name, locked: _ } => index.next_part(name, p),
            Parts::Excluded(name) => index.next_part(name, p),
        }
    }
}

// ---- naming

// Part p has its variable.
fn has_variable(state: &State, p: u16) -> bool
    requires { IsMapped state.now × (p < 1024) }
    ensures { result ≡ true → known (variables_of state.now) (part_origin p) ≡ true }
{
    state.variable(Origin::Part(p)).is_some()
}

fn open_ready(index: &Index, state: &mut State, p: u16)
    requires good { IsGood (catalogue_in index.now) state.old }
    requires p_bound { p < 1024 }
    ensures { StateDoes (catalogue_in index.now) (λ v. on_opening (open_ready (catalogue_in index.now) p)) state.old state.new }
{
    if index.areas.tables.has(Flag::Ready, p as usize) {
        opening::open_owner(state, p);
    }
}

fn name_tracked(index: &Index, state: &mut State, p: u16)
    requires good { IsGood (catalogue_in index.now) state.old }
    requires p_bound { p < 1024 }
    ensures { StateDoes (catalogue_in index.now) (λ v. naming_of (catalogue_in index.now) Tracked p) state.old state.new }
{
    if has_variable(state, p) {
        opening::name_for_tracking(&index.areas.tables, state, p);
        return;
    }
    opening::name_variable(state, Origin::Part(p));
    opening::name_for_tracking(&index.areas.tables, state, p);
}

fn name_candidate(index: &Index, state: &mut State, p: u16)
    requires good { IsGood (catalogue_in index.now) state.old }
    requires p_bound { p < 1024 }
    ensures { StateDoes (catalogue_in index.now) (λ v. naming_of (catalogue_in index.now) Candidate p) state.old state.new }
{
    name_tracked(index, state, p);
    open_ready(index, state, p);
}

fn name_part(index: &Index, state: &mut State, naming: Naming, p: u16)
    requires good { IsGood (catalogue_in index.now) state.old }
    requires p_bound { p < 1024 }
    ensures { StateDoes (catalogue_in index.now) (λ v. naming_of (catalogue_in index.now) naming p) state.old state.new }
{
    match naming {
        Naming::Variable => opening::name_variable(state, Origin::Part(p)),
        Naming::Tracked => name_tracked(index, state, p),
        Naming::Candidate => name_candidate(index, state, p),
    }
}

// Part p is named for tracking, or its name was served with several allowed: naming it for tracking changes nothing.
fn is_tracked(index: &Index, state: &State, p: u16) -> bool
    requires good { IsGood (catalogue_in index.now) state.now }
    ensures { result ≡ true → StateDoes (catalogue_in index.now) (λ v. on_opening (name_for_tracking (catalogue_in index.now) p)) state.now state.now }
{
    let name = index.areas.tables.part_name(p as usize);
    state.lists(MarkedList::Named, p) || opening::is_several(state, name)
}

// Part p has its variable, is tracked, and is opened if it is ready: no naming of it changes anything.
fn is_settled(index: &Index, state: &State, p: u16) -> bool
    requires good { IsGood (catalogue_in index.now) state.now }
    requires p_bound { p < 1024 }
    ensures { result ≡ true → Settled (catalogue_in index.now) state.now p }
{
    if !has_variable(state, p) {
        return false;
    }
    if !is_tracked(index, state, p) {
        return false;
    }
    if index.areas.tables.has(Flag::Ready, p as usize) {
        return state.lists(MarkedList::Owners, p);
    }
    true
}

// Is part p not settled, and one of these?
fn is_due(index: &Index, state: &State, which: Parts, p: usize) -> bool
    requires good { IsGood (catalogue_in index.now) state.now }
    requires p_bound { p < 1024 }
    ensures { Due (catalogue_in index.now) state.now which p result }
{
    !is_settled(index, state, p as u16) && which.selects(index, p)
}

// Each of these parts is named.
pub fn name_each(index: &Index, state: &mut State, which: Parts, naming: Naming)
    requires { IsGood (catalogue_in index.now) state.old }
    ensures { StateDoes (catalogue_in index.now) (λ v. fold (naming_of (catalogue_in index.now) naming) (parts_for (catalogue_in index.now) which)) state.old state.new }
{
    let mut p = which.first(index);
    while p < index.areas.tables.counts.parts {
        if is_due(index, state, which, p) {
            name_part(index, state, naming, p as u16);
        }
        p = which.next(index, p);
    }
}

// ---- adding

fn add_part(index: &Index, state: &mut State, clauses: &mut [u8], run: Run, adding: Adding, p: u16)
    requires good { IsGoodWith (catalogue_in index.now) state.old clauses.old [] }
    requires long_enough { LongEnough state.old.limits (length clauses.old) 16384 }
    requires can_add { CanAdd state.old.limits run adding }
    requires p_bound { p < 1024 }
    requires known_unless_full { KnownUnlessFull (is_full state.old.used) (variables_of state.old) (p ∷ []) }
    ensures { ClausesDoes (catalogue_in index.now) (λ v. adding_of (run_of run) adding p) state.old clauses.old state.new clauses.new }
{
    let x = opening::variable_of(state, Origin::Part(p));
    match adding {
        Adding::Lock => reporting::add_lock(state, clauses, run, x),
        Adding::Excluded => reporting::add_excluded(state, clauses, run, x, p, false),
        Adding::Constrains(owner) => reporting::add_constrains(state, clauses, run, owner, x),
        Adding::AuxOut(violation) => setting::add_aux_out(state, clauses, run, x, violation),
    }
}

pub fn add_if(
    index: &Index,
    state: &mut State,
    clauses: &mut [u8],
    run: Run,
    which: Parts,
    adding: Adding,
    p: usize,
)
    requires good { IsGoodWith (catalogue_in index.now) state.old clauses.old [] }
    requires long_enough { LongEnough state.old.limits (length clauses.old) 16384 }
    requires can_add { CanAdd state.old.limits run adding }
    requires p_lt_parts { p < (counts_in index.now).parts }
    requires known_unless_full { KnownUnlessFull (is_full state.old.used) (variables_of state.old) (parts_for (catalogue_in index.now) which) }
    ensures { ClausesDoes (catalogue_in index.now) (λ v. when (selected_of (catalogue_in index.now) which p) (adding_of (run_of run) adding p)) state.old clauses.old state.new clauses.new }
{
    if which.selects(index, p) {
        add_part(index, state, clauses, run, adding, p as u16);
    }
}

// A clause is added for each of these parts, which have variables.
pub fn add_each(
    index: &Index,
    state: &mut State,
    clauses: &mut [u8],
    run: Run,
    which: Parts,
    adding: Adding,
)
    requires good { IsGoodWith (catalogue_in index.now) state.old clauses.old [] }
    requires long_enough { LongEnough state.old.limits (length clauses.old) 16384 }
    requires can_add { CanAdd state.old.limits run adding }
    requires known_unless_full { KnownUnlessFull (is_full state.old.used) (variables_of state.old) (parts_for (catalogue_in index.now) which) }
    ensures { ClausesDoes (catalogue_in index.now) (λ v. fold (adding_of (run_of run) adding) (parts_for (catalogue_in index.now) which)) state.old clauses.old state.new clauses.new }
{
    let mut p = which.first(index);
    while p < index.areas.tables.counts.parts {
        add_if(index, state, clauses, run, which, adding, p);
        p = which.next(index, p);
    }
}
