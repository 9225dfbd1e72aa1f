// Tracked parts join their names at a run's end, after binary_encoding.rs, and new one-of-name variables are linked.
// Once it is full nothing more is done.
#![tactic(auto)]

ghost use Rattle.std.specs.Prelude.{◌≡◌, false, [], ◌<◌, length, get_or};
ghost use Rattle.rules.specs.Lists.{elem};
ghost use Rattle.rules.specs.Run.{join_all, link_all};
ghost use Rattle.marked.specs.Marked.{listed, Marked};
ghost use Rattle.encoder.specs.Held.{run_of, LongEnough};
ghost use Rattle.encoder.specs.Does.{ClausesDoes, IsGoodWith, regions_of, variables_of};
ghost use Rattle.goals.specs.Goals.{HandGathers};
ghost use Rattle.tracking.specs.Joining.{AddsAll, GoodOf, GoodSome, part_name, of_name, NamesLow, tracked_in, named_in, link_clauses, joined_clauses, Tracks, MakesOf, track_with, join_step, join_if, join_name, join_names, Forgets, CanJoin, CanAddPart, CanLink};
ghost use Rattle.binary_encoding.specs.Joiners.{flagged, NotesJoiner, JoinersNoted, NotesIf, flagged_names};
ghost use Rattle.index.specs.Views.{catalogue_of, counts_of, catalogue_in};

use encoder::{Run, State};
use index::{Catalogue, Index};
use marked::MarkedList;
use state::Region;
use tables::Tables;
use variable_map::Origin;

// ---- a part joins

// How many parts of this name are tracked.
fn tracked_count(state: &State, name: u16) -> u16
    requires { name < 64 }
    ensures { result ≡ get_or (regions_of state.now 12) name 0 }
{
    state::get(
        state.area,
        state.limits,
        Region::TrackedCounts,
        name as usize,
    )
}

// Part p of this name is tracked, behind i others of it.
fn push_tracked(tables: &Tables, state: &mut State, name: u16, p: u16, i: u16)
    requires marked { Marked 10 11 state.old.used.tracked (regions_of state.old) }
    requires p_bound { (p < 1024) × (i < 1024) × (part_name tables.now.counts tables.now.area.now p ≡ name) }
    requires i_value { i ≡ length (of_name tables.now.counts tables.now.area.now name (tracked_in state.old)) }
    requires untracked { elem p (tracked_in state.old) ≡ false }
    ensures { Tracks tables.now.counts tables.now.area.now p state.old state.new }
{
    state.used.tracked = marked::push(
        state.area,
        state.limits,
        MarkedList::Tracked,
        state.used.tracked,
        p,
    );
    state::set(
        state.area,
        state.limits,
        Region::TrackedCounts,
        name as usize,
        i + 1,
    );
}

// Part p, which has a variable as the h helpers have, gets its clauses and is tracked.
fn join_named(
    tables: &Tables,
    state: &mut State,
    clauses: &mut [u8],
    run: Run,
    name: u16,
    p: u16,
    i: u16,
    h: usize,
)
    requires good_some { GoodSome state.old clauses.old }
    requires long_enough { LongEnough state.old.limits (length clauses.old) 16384 }
    requires can_join { CanJoin state.old run }
    requires can_add_part { CanAddPart tables.now.counts tables.now.area.now state.old name p i h }
    requires untracked { elem p (tracked_in state.old) ≡ false }
    ensures { MakesOf tables.now.counts tables.now.area.now (track_with (run_of run) (joined_clauses run.before (variables_of state.old) name p (of_name tables.now.counts tables.now.area.now name (tracked_in state.old))) p) state.old clauses.old state.new clauses.new }
{
    tracking::join_clauses(tables, state, clauses, run, name, p, i, h);
    if state.used.full == 0 {
        push_tracked(tables, state, name, p, i);
    }
}

fn join(tables: &Tables, state: &mut State, clauses: &mut [u8], run: Run, name: u16, p: u16)
    requires good_of { GoodOf tables.now.counts tables.now.area.now state.old clauses.old }
    requires long_enough { LongEnough state.old.limits (length clauses.old) 16384 }
    requires can_join { CanJoin state.old run }
    requires p_bound { (p < 1024) × (name < 64) × (part_name tables.now.counts tables.now.area.now p ≡ name) }
    requires untracked { elem p (tracked_in state.old) ≡ false }
    ensures { MakesOf tables.now.counts tables.now.area.now (join_step (run_of run) p) state.old clauses.old state.new clauses.new }
{
    let i = tracked_count(state, name);
    let h = tracking::helpers_for(i + 1);
    tracking::name_join(state, name, p, h);
    if state.used.full == 0 {
        join_named(tables, state, clauses, run, name, p, i, h);
    }
}

// Part p joins if it is of this name and not tracked.
fn join_if(tables: &Tables, state: &mut State, clauses: &mut [u8], run: Run, name: u16, p: u16)
    requires names_low { NamesLow tables.now.counts tables.now.area.now }
    requires good_of { GoodOf tables.now.counts tables.now.area.now state.old clauses.old }
    requires long_enough { LongEnough state.old.limits (length clauses.old) 16384 }
    requires can_join { CanJoin state.old run }
    requires p_bound { p < 1024 }
    ensures { MakesOf tables.now.counts tables.now.area.now (join_if (run_of run) name p) state.old clauses.old state.new clauses.new }
{
    if tables.part_name(p as usize) != name {
        return;
    }
    if state.lists(MarkedList::Tracked, p) {
        return;
    }
    join(tables, state, clauses, run, name, p);
}

// ---- all that join

// The named parts of one name.
fn join_name(tables: &Tables, state: &mut State, clauses: &mut [u8], run: Run, name: u16)
    requires names_low { NamesLow tables.now.counts tables.now.area.now }
    requires good_of { GoodOf tables.now.counts tables.now.area.now state.old clauses.old }
    requires long_enough { LongEnough state.old.limits (length clauses.old) 16384 }
    requires can_join { CanJoin state.old run }
    ensures { MakesOf tables.now.counts tables.now.area.now (join_name (run_of run) name) state.old clauses.old state.new clauses.new }
{
    let named = state.used.named;
    for i in 0..named {
        let p = state.listed(MarkedList::Named, named, i);
        join_if(tables, state, clauses, run, name, p);
        if state.used.full != 0 {
            return;
        }
    }
}

// The names at hand.
fn join_names(tables: &Tables, state: &mut State, clauses: &mut [u8], run: Run, names: usize)
    requires names_low { NamesLow tables.now.counts tables.now.area.now }
    requires good_of { GoodOf tables.now.counts tables.now.area.now state.old clauses.old }
    requires long_enough { LongEnough state.old.limits (length clauses.old) 16384 }
    requires can_join { CanJoin state.old run }
    requires marked { Marked 14 15 names (regions_of state.old) }
    ensures { MakesOf tables.now.counts tables.now.area.now (join_names (run_of run) (listed names 14 (regions_of state.old))) state.old clauses.old state.new clauses.new }
{
    for i in 0..names {
        let name = state.listed(MarkedList::Candidates, names, i);
        join_name(tables, state, clauses, run, name);
        if state.used.full != 0 {
            return;
        }
    }
}

// The name of part p is flagged, if p is not tracked.
fn note_joiner(tables: &Tables, state: &State, joiners: &mut [bool; 64], p: u16)
    requires { NamesLow tables.now.counts tables.now.area.now }
    ensures { NotesJoiner tables.now.counts tables.now.area.now (regions_of state.now) p joiners.old joiners.new }
{
    if state.lists(MarkedList::Tracked, p) {
        return;
    }
    let name = tables.part_name(p as usize);
    joiners[name as usize] = true;
}

// The names are flagged of which some named part is not tracked.
fn note_joiners(tables: &Tables, state: &State, joiners: &mut [bool; 64])
    requires { NamesLow tables.now.counts tables.now.area.now }
    ensures { JoinersNoted tables.now.counts tables.now.area.now state.now.used.named (regions_of state.now) state.now.used.named joiners.new }
{
    for i in 0..state.used.named {
        let p = state.listed(MarkedList::Named, state.used.named, i);
        note_joiner(tables, state, joiners, p);
    }
}

// A name is noted if it is flagged.
fn note_name(state: &mut State, joiners: &[bool; 64], count: usize, name: u16) -> usize
    requires { Marked 14 15 count (regions_of state.old) × (name < 64) }
    ensures { NotesIf (flagged joiners.now name) name count state.old result state.new }
{
    if joiners[name as usize] {
        return goals::note(state, count, name);
    }
    count
}

// The flagged names of the named parts, each once, become the list at hand.
fn gather_names(tables: &Tables, state: &mut State, joiners: &[bool; 64]) -> usize
    requires names_low { NamesLow tables.now.counts tables.now.area.now }
    requires marked { Marked 8 9 state.old.used.named (regions_of state.old) }
    requires marked_2 { Marked 14 15 0 (regions_of state.old) }
    ensures { HandGathers (flagged_names tables.now.counts tables.now.area.now joiners.now (named_in state.old)) state.old result state.new }
{
    let mut count = 0;
    let named = state.used.named;
    for i in 0..named {
        let p = state.listed(MarkedList::Named, named, i);
        count = note_name(state, joiners, count, tables.part_name(p as usize));
    }
    count
}

// No part is named any more.
fn forget_named(state: &mut State)
    requires { Marked 8 9 state.old.used.named (regions_of state.old) }
    ensures { Forgets state.old state.new }
{
    marked::clear(
        state.area,
        state.limits,
        MarkedList::Named,
        state.used.named,
    );
    state.used.named = 0;
}

// The named parts of the flagged names join, name by name as first named; then no part is named any more.
fn join_flagged(
    catalogue: &Catalogue,
    state: &mut State,
    clauses: &mut [u8],
    run: Run,
    joiners: &[bool; 64],
)
    requires good { IsGoodWith (catalogue_of catalogue.now) state.old clauses.old [] }
    requires long_enough { LongEnough state.old.limits (length clauses.old) 16384 }
    requires can_join { CanJoin state.old run }
    requires marked { Marked 14 15 0 (regions_of state.old) }
    requires joiners_noted { JoinersNoted (counts_of catalogue.now) catalogue.now.index.areas.tables.area.now state.old.used.named (regions_of state.old) state.old.used.named joiners.now }
    ensures { ClausesDoes (catalogue_of catalogue.now) (λ v. join_all (catalogue_of catalogue.now) (run_of run)) state.old clauses.old state.new clauses.new }
{
    let tables = &catalogue.index.areas.tables;
    let names = gather_names(tables, state, joiners);
    join_names(tables, state, clauses, run, names);
    goals::release(state, names);
    forget_named(state);
}

// The named parts join, name by name as first named.
pub fn join_all(catalogue: &Catalogue, state: &mut State, clauses: &mut [u8], run: Run)
    requires good { IsGoodWith (catalogue_of catalogue.now) state.old clauses.old [] }
    requires long_enough { LongEnough state.old.limits (length clauses.old) 16384 }
    requires can_join { CanJoin state.old run }
    requires marked { Marked 14 15 0 (regions_of state.old) }
    ensures { ClausesDoes (catalogue_of catalogue.now) (λ v. join_all (catalogue_of catalogue.now) (run_of run)) state.old clauses.old state.new clauses.new }
{
    let mut joiners = [false; 64];
    note_joiners(&catalogue.index.areas.tables, state, &mut joiners);
    join_flagged(catalogue, state, clauses, run, &joiners);
}

// ---- new one-of-name variables

// Variable y is linked if it is one-of-name.
fn link_if(tables: &Tables, state: &mut State, clauses: &mut [u8], run: Run, y: usize)
    requires good_some { GoodSome state.old clauses.old }
    requires long_enough { LongEnough state.old.limits (length clauses.old) 16384 }
    requires can_link { CanLink state.old }
    requires y_lt_variables { y < state.old.used.variables }
    ensures { AddsAll run (link_clauses tables.now.counts tables.now.area.now (variables_of state.old) y (tracked_in state.old)) state.old clauses.old state.new clauses.new }
{
    if let Origin::One(name) = state.origin_at(y) {
        tracking::any_clauses(tables, state, clauses, run, name, y as u16);
    }
}

// The one-of-name variables that the run made, in order of making.
pub fn link_all(index: &Index, state: &mut State, clauses: &mut [u8], run: Run)
    requires good { IsGoodWith (catalogue_in index.now) state.old clauses.old [] }
    requires long_enough { LongEnough state.old.limits (length clauses.old) 16384 }
    requires can_link { CanLink state.old }
    ensures { ClausesDoes (catalogue_in index.now) (λ v. link_all (catalogue_in index.now) (run_of run)) state.old clauses.old state.new clauses.new }
{
    for y in run.before..state.used.variables {
        link_if(&index.areas.tables, state, clauses, run, y);
        if state.used.full != 0 {
            return;
        }
    }
}
