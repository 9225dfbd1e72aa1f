// The literals of a disjunct that fired, kept behind those of the stored clauses, and what is decided of them and of a goal's candidates.
// Past the limit a literal is only counted.
#![tactic(auto)]

ghost use Rattle.std.specs.Prelude.{◌≡◌, true, false, [], ◌∷◌, ◌++◌, map, ◌+◌, ◌<◌, ◌≤◌, length};
ghost use Rattle.rules.specs.Lists.{all, list_if};
ghost use Rattle.rules.specs.Literal.{pos};
ghost use Rattle.rules.specs.Catalogue.{goal_at, range_name};
ghost use Rattle.rules.specs.Candidates.{non_matching, candidates};
ghost use Rattle.rules.specs.Conditions.{disjunct_at, disjuncts_of, unconditional};
ghost use Rattle.rules.specs.Decisions.{all_false};
ghost use Rattle.rules.specs.Encoding.{range_literals, disjunct_literals};
ghost use Rattle.rules.specs.Variables.{known, variable_of, part_variable};
ghost use Rattle.cache.specs.Areas.{catalogue};
ghost use Rattle.cache.specs.Lists.{chosen};
ghost use Rattle.cache.specs.declared.Choice.TheVariants.{NonMatching};
ghost use Rattle.clause.specs.Literals.{signed, literal_of};
ghost use Rattle.variable_map.specs.Mapping.{origin_of, in_tables, AllKnown};
ghost use Rattle.encoder.specs.Held.{literals_in};
ghost use Rattle.encoder.specs.Does.{regions_of, variables_of, decisions_of, IsMapped, IsTracked, IsGoodState};
ghost use Rattle.condition_literals.specs.Literals.{StatePushes, part_literals, literal_false, AtHand, Named, RangeKnown, DisjunctKnown};
ghost use Rattle.index.specs.Views.{catalogue_of, counts_of};

use cache::Choice;
use clause::Literal;
use encoder::State;
use index::Catalogue;
use state::Region;
use variable_map::Origin;

// ---- condition literals, behind those of the stored clauses

// One behind the `count` at hand; past the limit it is only counted.
fn push_literal(state: &mut State, count: usize, literal: Literal) -> usize
    requires literals_le_literals { (state.old.used.literals ≤ state.old.limits.literals) × (count < 65536) }
    ensures { StatePushes state.old count (literal_of literal ∷ []) result state.new }
{
    let at = state.used.literals + count;
    state::set(state.area, state.limits, Region::Literals, at, literal.code);
    count + 1
}

// The literal of an origin that has a variable.
fn literal_of(state: &State, o: Origin, positive: bool) -> Literal
    requires mapped { IsMapped state.now }
    requires o_value { (in_tables (origin_of o) ≡ true) × (known (variables_of state.now) (origin_of o) ≡ true) }
    ensures { literal_of result ≡ signed (variable_of (variables_of state.now) (origin_of o)) positive }
{
    Literal::new(opening::variable_of(state, o), positive)
}

// A part, if it is one of the range's non-matching.
fn push_if(catalogue: &Catalogue, state: &mut State, count: usize, r: usize, p: usize) -> usize
    requires good_state { IsGoodState (catalogue_of catalogue.now) state.old }
    requires count_bound { (count < 65536) × (p < 1024) }
    requires all_known { AllKnown (variables_of state.old) (list_if (chosen (catalogue_of catalogue.now) r NonMatching p) (p ∷ [])) }
    ensures { StatePushes state.old count (part_literals (variables_of state.old) (list_if (chosen (catalogue_of catalogue.now) r NonMatching p) (p ∷ []))) result state.new }
{
    if catalogue.index.areas.chosen(r, Choice::NonMatching, p) {
        let literal = literal_of(state, Origin::Part(p as u16), true);
        return push_literal(state, count, literal);
    }
    count
}

fn part_literals(catalogue: &Catalogue, state: &mut State, count: usize, r: usize) -> usize
    requires good_state { IsGoodState (catalogue_of catalogue.now) state.old }
    requires count_bound { count < 32768 }
    requires all_known { AllKnown (variables_of state.old) (non_matching (catalogue_of catalogue.now) r) }
    ensures { StatePushes state.old count (part_literals (variables_of state.old) (non_matching (catalogue_of catalogue.now) r)) result state.new }
{
    let mut all = count;
    let mut p = catalogue.index.first_chosen(r, Choice::NonMatching);
    while p < catalogue.index.areas.tables.counts.parts {
        all = push_if(catalogue, state, all, r, p);
        p = catalogue.index.next_chosen(r, Choice::NonMatching, p);
    }
    all
}

// The literals of a fired range: its non-matching parts; if none, "not one-of-name".
fn range_literals(catalogue: &Catalogue, state: &mut State, count: usize, r: usize) -> usize
    requires count_bound { (count < 32768) × (r < (counts_of catalogue.now).ranges) }
    requires good_state { IsGoodState (catalogue_of catalogue.now) state.old }
    requires range_known { RangeKnown (catalogue_of catalogue.now) (variables_of state.old) r }
    ensures { StatePushes state.old count (range_literals (variables_of state.old) (range_name (catalogue_of catalogue.now) r) (non_matching (catalogue_of catalogue.now) r)) result state.new }
{
    if catalogue.index.has_non_matching(r) {
        return part_literals(catalogue, state, count, r);
    }
    let name = catalogue.index.areas.tables.range_name(r);
    let literal = literal_of(state, Origin::One(name), false);
    push_literal(state, count, literal)
}

pub fn disjunct_literals(catalogue: &Catalogue, state: &mut State, q: usize, i: usize) -> usize
    requires good_state { IsGoodState (catalogue_of catalogue.now) state.old }
    requires q_lt_requirements { (q < (counts_of catalogue.now).requirements) × (unconditional (catalogue_of catalogue.now) q ≡ false) × (i < length (disjuncts_of (catalogue_of catalogue.now) q)) }
    requires disjunct_known { DisjunctKnown (catalogue_of catalogue.now) (variables_of state.old) (disjunct_at (catalogue_of catalogue.now) q i) }
    ensures { StatePushes state.old 0 (disjunct_literals (catalogue_of catalogue.now) (variables_of state.old) (disjunct_at (catalogue_of catalogue.now) q i)) result state.new }
{
    let it = catalogue.index.areas.tables.requirement_at(q);
    let condition = it.condition.unwrap() as usize;
    let disjunct = catalogue.conditions().disjunct_of(condition, i);
    let mut count = 0;
    for range in disjunct.ranges() {
        count = range_literals(catalogue, state, count, *range as usize);
    }
    count
}

// ---- what is decided

// The `count` literals at hand are all decided false.
fn literals_false(state: &State, count: usize) -> bool
    requires kept { IsTracked state.now × (state.now.used.literals + count ≤ state.now.limits.literals) }
    ensures { result ≡ all (literal_false (decisions_of state.now)) (literals_in (regions_of state.now 19) state.now.used.literals count) }
{
    for j in 0..count {
        let literal = Literal {
            code: state::get(
                state.area,
                state.limits,
                Region::Literals,
                state.used.literals + j,
            ),
        };
        if !state.falsified(literal) {
            return false;
        }
    }
    true
}

// There are literals besides the owner's, `count` of the condition and the candidates, and all are decided false.
pub fn rest_false(
    catalogue: &Catalogue,
    state: &State,
    q: usize,
    ranges: usize,
    count: usize,
) -> bool
    requires good_state { IsGoodState (catalogue_of catalogue.now) state.now }
    requires q_lt_requirements { q < (counts_of catalogue.now).requirements }
    requires at_hand { AtHand (catalogue_of catalogue.now) q ranges (regions_of state.now) }
    requires named { Named (catalogue_of catalogue.now) q (variables_of state.now) }
    requires count_bound { state.now.used.literals + count ≤ state.now.limits.literals }
    ensures { result ≡ all_false (decisions_of state.now) (literals_in (regions_of state.now 19) state.now.used.literals count ++ map pos (map (part_variable (variables_of state.now)) (candidates (catalogue_of catalogue.now) (goal_at (catalogue_of catalogue.now) q)))) }
{
    if count == 0 {
        return goals::all_false(catalogue, state, ranges)
            && goals::some_candidate(catalogue, state, ranges);
    }
    literals_false(state, count) && goals::all_false(catalogue, state, ranges)
}
