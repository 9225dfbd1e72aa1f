// The variables of a requirement's task: candidates are named for tracking and opened if ready; so are, but for the opening, the other parts of fired ranges.
#![tactic(auto)]

ghost use Rattle.std.specs.Prelude.{◌≡◌, true, false, ◌<◌, length, get_or, set, replicate};
ghost use Rattle.rules.specs.Lists.{fold};
ghost use Rattle.rules.specs.Candidates.{matching, sorted};
ghost use Rattle.rules.specs.Conditions.{disjunct_at, disjuncts_of, unconditional};
ghost use Rattle.cache.specs.Areas.{catalogue};
ghost use Rattle.marked.specs.Marked.{listed, Marked};
ghost use Rattle.encoder.specs.Did.{on_opening};
ghost use Rattle.encoder.specs.Does.{StateDoes, IsGood, regions_of};
ghost use Rattle.parts.specs.declared.Naming.TheVariants.{Candidate};
ghost use Rattle.parts.specs.Parts.{naming_of};
ghost use Rattle.naming.specs.Naming.{FirstOf, is_seen, NamesFirst, name_firsts, name_candidates, name_range, name_disjuncts, GivenIndices};
ghost use Rattle.index.specs.Views.{catalogue_of, counts_of, tables_of};

use cache::Choice;
use encoder::State;
use index::Catalogue;
use marked::MarkedList;
use parts::{Naming, Parts};
use variable_map::Origin;

// ---- candidates

// The candidates of a range.
fn range_candidates(catalogue: &Catalogue, state: &mut State, r: usize)
    requires good { IsGood (catalogue_of catalogue.now) state.old }
    ensures { StateDoes (catalogue_of catalogue.now) (λ v. fold (naming_of (catalogue_of catalogue.now) Candidate) (sorted (catalogue_of catalogue.now) r)) state.old state.new }
{
    let favoured = Parts::Chosen {
        range: r,
        choice: Choice::Favoured,
    };
    let others = Parts::Chosen {
        range: r,
        choice: Choice::Others,
    };
    parts::name_each(&catalogue.index, state, favoured, Naming::Candidate);
    parts::name_each(&catalogue.index, state, others, Naming::Candidate);
}

// Those of the ranges at hand.
fn all_candidates(catalogue: &Catalogue, state: &mut State, ranges: usize)
    requires good { IsGood (catalogue_of catalogue.now) state.old }
    requires marked { Marked 14 15 ranges (regions_of state.old) }
    ensures { StateDoes (catalogue_of catalogue.now) (λ v. fold (λ r. fold (naming_of (catalogue_of catalogue.now) Candidate) (sorted (catalogue_of catalogue.now) r)) (listed ranges 14 (regions_of state.old))) state.old state.new }
{
    for j in 0..ranges {
        let r = state.listed(MarkedList::Candidates, ranges, j);
        range_candidates(catalogue, state, r as usize);
    }
}

// ---- candidates that are settled

// The first matching part of range r; or at least the number of parts, if it has none.
fn first_candidate(catalogue: &Catalogue, r: usize) -> usize
    ensures { FirstOf (matching (catalogue_of catalogue.now) r) (counts_of catalogue.now).parts result }
{
    let mut p = catalogue.index.first_chosen(r, Choice::Matching);
    while p < catalogue.index.areas.tables.counts.parts {
        if catalogue.index.areas.chosen(r, Choice::Matching, p) {
            return p;
        }
        p = catalogue.index.next_chosen(r, Choice::Matching, p);
    }
    p
}

// Is this name flagged? Past the flags none is.
fn is_seen(seen: &[bool], name: u16) -> bool
    ensures { result ≡ is_seen seen.now name }
{
    let i = name as usize;
    i < seen.len() && seen[i]
}

// This name is flagged, if it has a flag.
fn see(seen: &mut [bool], name: u16)
    ensures { seen.new ≡ set seen.old name true }
{
    let i = name as usize;
    if i < seen.len() {
        seen[i] = true;
    }
}

// The first candidate of range r is named for tracking, and the range's name, which is not flagged, is.
fn name_first(catalogue: &Catalogue, state: &mut State, seen: &mut [bool], r: usize, name: u16)
    requires good { IsGood (catalogue_of catalogue.now) state.old }
    requires name_value { (name ≡ get_or (tables_of catalogue.now).ranges r 0) × (false ≡ is_seen seen.old name) }
    ensures { NamesFirst (catalogue_of catalogue.now) r seen.old state.old seen.new state.new }
{
    let p = first_candidate(catalogue, r);
    if p < catalogue.index.areas.tables.counts.parts {
        see(seen, name);
        opening::name_for_tracking(&catalogue.index.areas.tables, state, p as u16);
    }
}

// That of each range at hand: of each name one.
fn first_candidates(catalogue: &Catalogue, state: &mut State, ranges: usize)
    requires good { IsGood (catalogue_of catalogue.now) state.old }
    requires marked { Marked 14 15 ranges (regions_of state.old) }
    ensures { StateDoes (catalogue_of catalogue.now) (λ v. on_opening (name_firsts (catalogue_of catalogue.now) (listed ranges 14 (regions_of state.old)) (replicate 64 false))) state.old state.new }
{
    let mut seen = [false; 64];
    for j in 0..ranges {
        let r = state.listed(MarkedList::Candidates, ranges, j) as usize;
        let name = catalogue.index.areas.tables.range_name(r);
        if !is_seen(&seen, name) {
            name_first(catalogue, state, &mut seen, r, name);
        }
    }
}

// All candidates of the ranges at hand, or, where they are settled, the first of each name.
pub fn name_candidates(catalogue: &Catalogue, state: &mut State, ranges: usize, settled: bool)
    requires good { IsGood (catalogue_of catalogue.now) state.old }
    requires marked { Marked 14 15 ranges (regions_of state.old) }
    ensures { StateDoes (catalogue_of catalogue.now) (λ v. name_candidates (catalogue_of catalogue.now) settled (listed ranges 14 (regions_of state.old))) state.old state.new }
{
    if settled {
        first_candidates(catalogue, state, ranges);
    } else {
        all_candidates(catalogue, state, ranges);
    }
}

// ---- fired disjuncts

// The variables of a fired range: its non-matching parts, which are named for tracking; if none, one-of-name.
fn name_range(catalogue: &Catalogue, state: &mut State, r: usize)
    requires good { IsGood (catalogue_of catalogue.now) state.old }
    requires r_lt_ranges { r < (counts_of catalogue.now).ranges }
    ensures { StateDoes (catalogue_of catalogue.now) (λ v. name_range (catalogue_of catalogue.now) r) state.old state.new }
{
    if catalogue.index.has_non_matching(r) {
        let others = Parts::Chosen {
            range: r,
            choice: Choice::NonMatching,
        };
        parts::name_each(&catalogue.index, state, others, Naming::Tracked);
    } else {
        let name = catalogue.index.areas.tables.range_name(r);
        opening::name_variable(state, Origin::One(name));
    }
}

fn name_disjunct(catalogue: &Catalogue, state: &mut State, q: usize, i: usize)
    requires good { IsGood (catalogue_of catalogue.now) state.old }
    requires q_lt_requirements { (q < (counts_of catalogue.now).requirements) × (unconditional (catalogue_of catalogue.now) q ≡ false) × (i < length (disjuncts_of (catalogue_of catalogue.now) q)) }
    ensures { StateDoes (catalogue_of catalogue.now) (λ v. fold (name_range (catalogue_of catalogue.now)) (disjunct_at (catalogue_of catalogue.now) q i)) state.old state.new }
{
    let it = catalogue.index.areas.tables.requirement_at(q);
    let condition = it.condition.unwrap() as usize;
    let disjunct = catalogue.conditions().disjunct_of(condition, i);
    for range in disjunct.ranges() {
        name_range(catalogue, state, *range as usize);
    }
}

// Those of the disjuncts with these indices.
pub fn name_disjuncts(catalogue: &Catalogue, state: &mut State, q: usize, indices: &[u16])
    requires good { IsGood (catalogue_of catalogue.now) state.old }
    requires q_lt_requirements { (q < (counts_of catalogue.now).requirements) × (unconditional (catalogue_of catalogue.now) q ≡ false) }
    requires given_indices { GivenIndices (catalogue_of catalogue.now) q indices.now }
    ensures { StateDoes (catalogue_of catalogue.now) (λ v. name_disjuncts (catalogue_of catalogue.now) q indices.now) state.old state.new }
{
    for index in indices {
        name_disjunct(catalogue, state, q, *index as usize);
    }
}
