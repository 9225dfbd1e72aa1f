// Goals and disjuncts: the distinct ranges of a goal, how many candidates it has, and what is decided of parts.
#![tactic(auto)]

ghost use Rattle.std.specs.Prelude.{◌≡◌, true, not, [], ◌<◌, ◌≤◌, min, eqb, length, get_or};
ghost use Rattle.rules.specs.Lists.{any, all, concat_map, distinct};
ghost use Rattle.rules.specs.Catalogue.{union};
ghost use Rattle.rules.specs.Candidates.{matching, goal_ranges, candidates};
ghost use Rattle.rules.specs.Conditions.{disjuncts};
ghost use Rattle.rules.specs.Variables.{known, part_origin, part_variable};
ghost use Rattle.rules.specs.Decisions.{is_false};
ghost use Rattle.rules.specs.Opening.{holds_now};
ghost use Rattle.rules.proofs.WellFormed.{GoalGiven};
ghost use Rattle.requirement.specs.Requirements.{goal_of};
ghost use Rattle.cache.specs.Areas.{catalogue};
ghost use Rattle.variable_map.specs.Mapping.{origin_of, AllKnown};
ghost use Rattle.decision_tracker.specs.Tracking.{no_decision};
ghost use Rattle.marked.specs.Marked.{listed, Marked};
ghost use Rattle.encoder.specs.Does.{regions_of, variables_of, decisions_of, IsMapped, IsTracked};
ghost use Rattle.encoder.specs.Assignments.{variables_in, decisions_in, Maps, Tracks};
ghost use Rattle.goals.specs.Goals.{truth_of, truth_in, false_of, true_match, decides_for, HandNotes, HandGathers, HandReleased};
ghost use Rattle.index.specs.Views.{catalogue_of, counts_of, tables_of};

use cache::Choice;
use encoder::{Assignment, State};
use index::Catalogue;
use marked::MarkedList;
use requirement::Requirement;
use variable_map::Origin;

// ---- the list at hand

// One number more, unless it is there.
pub fn note(state: &mut State, count: usize, x: u16) -> usize
    requires marked { Marked 14 15 count (regions_of state.old) × (x < 512) }
    ensures { HandNotes x count state.old result state.new }
{
    if state.lists(MarkedList::Candidates, x) {
        return count;
    }
    marked::push(state.area, state.limits, MarkedList::Candidates, count, x)
}

fn gather_union(catalogue: &Catalogue, state: &mut State, u: u16) -> usize
    requires marked { Marked 14 15 0 (regions_of state.old) × (u < (counts_of catalogue.now).unions) }
    ensures { HandGathers (distinct (goal_ranges (catalogue_of catalogue.now) (union u))) state.old result state.new }
{
    let mut count = 0;
    let mut i = catalogue.index.first_of_union(u);
    while i < catalogue.index.areas.tables.counts.members {
        let member = catalogue.index.areas.as_members().at(i);
        count = note(state, count, member.range);
        i = catalogue.index.next_of_union(i);
    }
    count
}

// The distinct ranges of a goal become the list at hand; how many.
pub fn gather(catalogue: &Catalogue, state: &mut State, goal: Requirement) -> usize
    requires marked { Marked 14 15 0 (regions_of state.old) }
    requires goal_given { GoalGiven (catalogue_of catalogue.now) (goal_of goal) }
    ensures { HandGathers (distinct (goal_ranges (catalogue_of catalogue.now) (goal_of goal))) state.old result state.new }
{
    match goal {
        Requirement::Single(range) => note(state, 0, range),
        Requirement::Union(union) => gather_union(catalogue, state, union),
    }
}

// The list at hand is empty again.
pub fn release(state: &mut State, count: usize)
    requires marked { Marked 14 15 count (regions_of state.old) }
    ensures { HandReleased state.old state.new }
{
    marked::clear(state.area, state.limits, MarkedList::Candidates, count);
}

// ---- how many candidates, counted with repeats

// How many a union has, or `most` if it has more.
fn count_union(catalogue: &Catalogue, u: u16, most: usize) -> usize
    requires most_bound { most ≤ 4 }
    ensures { result ≡ min (length (candidates (catalogue_of catalogue.now) (union u))) most }
{
    let mut total = 0;
    let mut i = catalogue.index.first_of_union(u);
    while i < catalogue.index.areas.tables.counts.members {
        let member = catalogue.index.areas.as_members().at(i);
        total += catalogue.index.matching_count(member.range as usize, most);
        if total >= most {
            return most;
        }
        i = catalogue.index.next_of_union(i);
    }
    total
}

// How many candidates a goal has, or `most` if it has more.
pub fn count(catalogue: &Catalogue, goal: Requirement, most: usize) -> usize
    requires most_bound { most ≤ 4 }
    ensures { result ≡ min (length (candidates (catalogue_of catalogue.now) (goal_of goal))) most }
{
    match goal {
        Requirement::Single(range) => catalogue.index.matching_count(range as usize, most),
        Requirement::Union(union) => count_union(catalogue, union, most),
    }
}

// ---- what is decided of parts

// Part p has a variable that is decided true.
pub fn decided_true(assignment: &Assignment, p: u16) -> bool
    requires mapped { Maps assignment.now × Tracks assignment.now × (p < 1024) }
    ensures { result ≡ truth_in assignment.now p }
{
    match assignment.variable(Origin::Part(p)) {
        Some(variable) => assignment.is_true(variable),
        None => false,
    }
}

// Is part p a matching part of range r that is decided true?
fn true_match(catalogue: &Catalogue, assignment: &Assignment, r: usize, p: u16) -> bool
    requires mapped { Maps assignment.now × Tracks assignment.now }
    ensures { result ≡ true_match (catalogue_of catalogue.now) (variables_in assignment.now) (decisions_in assignment.now) r p }
{
    if p as usize >= catalogue.index.areas.tables.counts.parts {
        return false;
    }
    if !catalogue
        .index
        .areas
        .chosen(r, Choice::Matching, p as usize)
    {
        return false;
    }
    decided_true(assignment, p)
}

// Does decision i make such a part true?
fn decides_for(catalogue: &Catalogue, assignment: &Assignment, r: usize, i: usize) -> bool
    requires mapped { Maps assignment.now × Tracks assignment.now }
    requires i_lt_decisions { i < assignment.now.decisions }
    ensures { result ≡ decides_for (catalogue_of catalogue.now) (variables_in assignment.now) (decisions_in assignment.now) r (get_or (decisions_in assignment.now) i no_decision) }
{
    let decision = assignment.decision_at(i);
    if !decision.value {
        return false;
    }
    match assignment.origin_at(decision.variable as usize) {
        Origin::Part(part) => true_match(catalogue, assignment, r, part),
        _ => false,
    }
}

// Some matching part of range r is decided true: by the decisions.
fn some_decides(catalogue: &Catalogue, assignment: &Assignment, r: usize) -> bool
    requires mapped { Maps assignment.now × Tracks assignment.now }
    ensures { result ≡ any (truth_in assignment.now) (matching (catalogue_of catalogue.now) r) }
{
    for i in 0..assignment.decisions {
        if decides_for(catalogue, assignment, r, i) {
            return true;
        }
    }
    false
}

// Some matching part of range r is decided true. Where it has more of them than there are decisions it is asked by the decisions.
pub fn range_holds(catalogue: &Catalogue, assignment: &Assignment, r: usize) -> bool
    requires mapped { Maps assignment.now × Tracks assignment.now }
    ensures { result ≡ any (truth_in assignment.now) (matching (catalogue_of catalogue.now) r) }
{
    let mut left = assignment.decisions;
    let mut p = catalogue.index.first_chosen(r, Choice::Matching);
    while p < catalogue.index.areas.tables.counts.parts {
        if left == 0 {
            return some_decides(catalogue, assignment, r);
        }
        left -= 1;
        if catalogue.index.areas.chosen(r, Choice::Matching, p) {
            if decided_true(assignment, p as u16) {
                return true;
            }
        }
        p = catalogue.index.next_chosen(r, Choice::Matching, p);
    }
    false
}

// Each range of disjunct i of condition c has a matching part decided true.
pub fn disjunct_holds(catalogue: &Catalogue, state: &State, c: usize, i: usize) -> bool
    requires mapped { IsMapped state.now × IsTracked state.now }
    requires c_lt_conditions { (c < (counts_of catalogue.now).conditions) × (i < length (disjuncts (tables_of catalogue.now).conditions c)) }
    ensures { result ≡ holds_now (catalogue_of catalogue.now) (truth_of state.now)
        (get_or (disjuncts (tables_of catalogue.now).conditions c) i []) }
{
    let assignment = state.assignment();
    let disjunct = catalogue.conditions().disjunct_of(c, i);
    for range in disjunct.ranges() {
        if !range_holds(catalogue, &assignment, *range as usize) {
            return false;
        }
    }
    true
}

// ---- what is decided of the candidates of the list at hand

// Part p's variable is decided false.
fn decided_false(state: &State, p: u16) -> bool
    requires mapped { IsMapped state.now × IsTracked state.now × (p < 1024) }
    requires p_value { known (variables_of state.now) (part_origin p) ≡ true }
    ensures { result ≡ is_false (decisions_of state.now) (part_variable (variables_of state.now) p) }
{
    state.is_false(opening::variable_of(state, Origin::Part(p)))
}

// Every matching part of range r is decided false.
fn range_false(catalogue: &Catalogue, state: &State, r: usize) -> bool
    requires mapped { IsMapped state.now × IsTracked state.now }
    requires all_known { AllKnown (variables_of state.now) (matching (catalogue_of catalogue.now) r) }
    ensures { result ≡ all (false_of (variables_of state.now) (decisions_of state.now))
        (matching (catalogue_of catalogue.now) r) }
{
    let mut p = catalogue.index.first_chosen(r, Choice::Matching);
    while p < catalogue.index.areas.tables.counts.parts {
        if catalogue.index.areas.chosen(r, Choice::Matching, p) {
            if !decided_false(state, p as u16) {
                return false;
            }
        }
        p = catalogue.index.next_chosen(r, Choice::Matching, p);
    }
    true
}

// Every candidate of the ranges at hand, so many, is decided false.
pub fn all_false(catalogue: &Catalogue, state: &State, ranges: usize) -> bool
    requires mapped { IsMapped state.now × IsTracked state.now }
    requires marked { Marked 14 15 ranges (regions_of state.now) }
    requires all_known { AllKnown (variables_of state.now)
        (concat_map (matching (catalogue_of catalogue.now)) (listed ranges 14 (regions_of state.now))) }
    ensures { result ≡ all (false_of (variables_of state.now) (decisions_of state.now))
        (concat_map (matching (catalogue_of catalogue.now)) (listed ranges 14 (regions_of state.now))) }
{
    for j in 0..ranges {
        let r = state.listed(MarkedList::Candidates, ranges, j);
        if !range_false(catalogue, state, r as usize) {
            return false;
        }
    }
    true
}

// One of the ranges at hand, so many, has a matching part.
pub fn some_candidate(catalogue: &Catalogue, state: &State, ranges: usize) -> bool
    requires marked { Marked 14 15 ranges (regions_of state.now) }
    ensures { result ≡ not (eqb (length (concat_map (matching (catalogue_of catalogue.now)) (listed ranges 14 (regions_of state.now)))) 0) }
{
    for j in 0..ranges {
        let r = state.listed(MarkedList::Candidates, ranges, j);
        if catalogue.index.matching_count(r as usize, 1) > 0 {
            return true;
        }
    }
    false
}
