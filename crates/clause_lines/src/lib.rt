// The listing's lines of clauses and of the variables that a clause asserts false, whose candidates the catalogue has.
// The same functions measure and write (`text::Writer`).
#![tactic(auto)]

mod spans;

ghost use Rattle.std.specs.Prelude.{◌≡◌, false, ◌∷◌, map, ◌+◌, ◌<◌, ◌≤◌, eqb, length, get_or};
ghost use Rattle.rules.specs.Clause.{install};
ghost use Rattle.rules.specs.Candidates.{sorted, candidates};
ghost use Rattle.rules.specs.Listing.{ascii, signed, clause_fields};
ghost use Rattle.text.specs.Text.{fields, literal_of};
ghost use Rattle.text.specs.Writing.{Writes};
ghost use Rattle.requirement.specs.Requirements.{goal_of};
ghost use Rattle.cache.specs.Lists as lists;
ghost use Rattle.variable_map.specs.Mapping.{AllKnown};
ghost use Rattle.solver.specs.Rows.{row_of};
ghost use Rattle.encoder.specs.Held.{literals_in, clause_in, Sound};
ghost use Rattle.encoder.specs.StateRefs.{regions_at, variables_at, IsMappedAt};
ghost use Rattle.clause_lines.specs.Spans.{goal_text, Stand};
ghost use Rattle.clause_lines.specs.Asserted.{asserted_by};
ghost use Rattle.line_fields.specs.Listed.{texts, part_text, chosen_text, literal_text, clause_text, assertion_text, clauses_stored, HasGoodRows};
ghost use Rattle.index.specs.Views.{catalogue_of, counts_of};

use cache::Choice;
use clause::Literal;
use encoder::StateRef;
use index::Catalogue;
use requirement::Requirement;
use solver::{Clause, Stored};
use spans::Spans;
use state::Region;
use tables::Reason;
use text::Writer;
use variable_map::Origin;

// ---- clauses

// A positive literal for part p of a range, if it is chosen.
fn chosen_literal(
    writer: &mut Writer,
    catalogue: &Catalogue,
    state: &StateRef,
    range: u16,
    choice: Choice,
    p: usize,
)
    requires mapped { IsMappedAt state.now }
    requires p_lt_parts { p < (counts_of catalogue.now).parts }
    requires all_known { AllKnown (variables_at state.now) (lists.choice (catalogue_of catalogue.now) range choice) }
    ensures { Writes writer.old writer.new (chosen_text (catalogue_of catalogue.now) (variables_at state.now) range choice p) }
{
    if catalogue.index.areas.chosen(range as usize, choice, p) {
        let x = state.variable(Origin::Part(p as u16)).unwrap_or(0);
        writer.field_literal(x as usize, true);
    }
}

// A positive literal for each chosen part of a range.
fn chosen_literals(
    writer: &mut Writer,
    catalogue: &Catalogue,
    state: &StateRef,
    range: u16,
    choice: Choice,
)
    requires mapped { IsMappedAt state.now }
    requires all_known { AllKnown (variables_at state.now) (lists.choice (catalogue_of catalogue.now) range choice) }
    ensures { Writes writer.old writer.new (part_text (variables_at state.now) (lists.choice (catalogue_of catalogue.now) range choice)) }
{
    let mut p = catalogue.index.first_chosen(range as usize, choice);
    while p < catalogue.index.areas.tables.counts.parts {
        chosen_literal(writer, catalogue, state, range, choice, p);
        p = catalogue.index.next_chosen(range as usize, choice, p);
    }
}

fn range_literals(writer: &mut Writer, catalogue: &Catalogue, state: &StateRef, range: u16)
    requires mapped { IsMappedAt state.now }
    requires all_known { AllKnown (variables_at state.now) (sorted (catalogue_of catalogue.now) range) }
    ensures { Writes writer.old writer.new (part_text (variables_at state.now) (sorted (catalogue_of catalogue.now) range)) }
{
    chosen_literals(writer, catalogue, state, range, Choice::Favoured);
    chosen_literals(writer, catalogue, state, range, Choice::Others);
}

// The literals of a range, copied if they stand in the listing already; where they stand is kept.
fn shared_range(
    writer: &mut Writer,
    spans: &mut Spans,
    catalogue: &Catalogue,
    state: &StateRef,
    range: u16,
)
    requires mapped { IsMappedAt state.now }
    requires all_known { AllKnown (variables_at state.now) (candidates (catalogue_of catalogue.now) (goal_of (Requirement.Single range))) }
    requires spans { Stand (catalogue_of catalogue.now) (variables_at state.now) spans.old writer.old }
    ensures wrote { Writes writer.old writer.new (goal_text (catalogue_of catalogue.now) (variables_at state.now) (Requirement.Single range)) }
    ensures spans_2 { Stand (catalogue_of catalogue.now) (variables_at state.now) spans.new writer.new }
{
    let goal = Requirement::Single(range);
    if spans.again(writer, goal) {
        return;
    }
    let begin = writer.at;
    range_literals(writer, catalogue, state, range);
    spans.keep(goal, begin, writer);
}

// The literals of a union, row by row, if it has a candidate: rows that repeat others too, since their literals stand again in the clause.
fn union_literals(
    writer: &mut Writer,
    spans: &mut Spans,
    catalogue: &Catalogue,
    state: &StateRef,
    union: u16,
)
    requires mapped { IsMappedAt state.now }
    requires all_known { AllKnown (variables_at state.now) (candidates (catalogue_of catalogue.now) (goal_of (Requirement.Union union))) }
    requires spans { Stand (catalogue_of catalogue.now) (variables_at state.now) spans.old writer.old }
    ensures wrote { Writes writer.old writer.new (goal_text (catalogue_of catalogue.now) (variables_at state.now) (Requirement.Union union)) }
    ensures spans_2 { Stand (catalogue_of catalogue.now) (variables_at state.now) spans.new writer.new }
{
    if no_candidate(catalogue, Requirement::Union(union)) {
        return;
    }
    let mut i = catalogue.index.first_of_union(union);
    while i < catalogue.index.areas.tables.counts.members {
        if writer.is_over() {
            return;
        }
        let member = catalogue.index.areas.as_members().at(i);
        shared_range(writer, spans, catalogue, state, member.range);
        i = catalogue.index.areas.as_members().next_of(union, i + 1);
    }
}

// The same, copied if they stand in the listing already; where they stand is kept.
fn shared_union(
    writer: &mut Writer,
    spans: &mut Spans,
    catalogue: &Catalogue,
    state: &StateRef,
    union: u16,
)
    requires mapped { IsMappedAt state.now }
    requires all_known { AllKnown (variables_at state.now) (candidates (catalogue_of catalogue.now) (goal_of (Requirement.Union union))) }
    requires spans { Stand (catalogue_of catalogue.now) (variables_at state.now) spans.old writer.old }
    ensures wrote { Writes writer.old writer.new (goal_text (catalogue_of catalogue.now) (variables_at state.now) (Requirement.Union union)) }
    ensures spans_2 { Stand (catalogue_of catalogue.now) (variables_at state.now) spans.new writer.new }
{
    let goal = Requirement::Union(union);
    if spans.again(writer, goal) {
        return;
    }
    let begin = writer.at;
    union_literals(writer, spans, catalogue, state, union);
    spans.keep(goal, begin, writer);
}

fn candidate_literals(
    writer: &mut Writer,
    spans: &mut Spans,
    catalogue: &Catalogue,
    state: &StateRef,
    goal: Requirement,
)
    requires mapped { IsMappedAt state.now }
    requires all_known { AllKnown (variables_at state.now) (candidates (catalogue_of catalogue.now) (goal_of goal)) }
    requires spans { Stand (catalogue_of catalogue.now) (variables_at state.now) spans.old writer.old }
    ensures wrote { Writes writer.old writer.new (goal_text (catalogue_of catalogue.now) (variables_at state.now) goal) }
    ensures spans_2 { Stand (catalogue_of catalogue.now) (variables_at state.now) spans.new writer.new }
{
    match goal {
        Requirement::Single(range) => shared_range(writer, spans, catalogue, state, range),
        Requirement::Union(union) => shared_union(writer, spans, catalogue, state, union),
    }
}

// The j-th condition literal from `start` on.
fn condition_literal(writer: &mut Writer, state: &StateRef, start: usize, j: usize)
    requires { start + j < state.now.limits.literals }
    ensures { Writes writer.old writer.new (literal_text (regions_at state.now 19) start j) }
{
    let code = state::get(state.area, state.limits, Region::Literals, start + j);
    let literal = Literal { code };
    writer.field_literal(literal.variable() as usize, literal.positive());
}

fn condition_literals(writer: &mut Writer, state: &StateRef, start: usize, count: usize)
    requires { start + count ≤ state.now.limits.literals }
    ensures { Writes writer.old writer.new (fields (map signed (literals_in (regions_at state.now 19) start count))) }
{
    for j in 0..count {
        condition_literal(writer, state, start, j);
    }
}

// The word, the literal of the owner, and the condition literals.
fn conditional_head(writer: &mut Writer, state: &StateRef, owner: u16, start: usize, count: usize)
    requires { start + count ≤ state.now.limits.literals }
    ensures { Writes writer.old writer.new (fields (ascii "requires" ∷ signed (literal_of owner false) ∷ map signed (literals_in (regions_at state.now 19) start count))) }
{
    line_fields::requires_head(writer, owner);
    condition_literals(writer, state, start, count);
}

// The fields of a stored clause.
fn clause_fields(
    writer: &mut Writer,
    spans: &mut Spans,
    catalogue: &Catalogue,
    state: &StateRef,
    row: Stored,
)
    requires mapped { IsMappedAt state.now }
    requires sound { Sound (catalogue_of catalogue.now) (variables_at state.now) state.now.used.literals (row_of row) }
    requires literals_le_literals { state.now.used.literals ≤ state.now.limits.literals }
    requires spans { Stand (catalogue_of catalogue.now) (variables_at state.now) spans.old writer.old }
    ensures wrote { Writes writer.old writer.new (fields (clause_fields (catalogue_of catalogue.now) (clause_in (catalogue_of catalogue.now) (variables_at state.now) (regions_at state.now 19) (row_of row)))) }
    ensures spans_2 { Stand (catalogue_of catalogue.now) (variables_at state.now) spans.new writer.new }
{
    match row.clause() {
        Clause::Install => {
            writer.field_word(b"install");
            writer.field_literal(0, true);
        }
        Clause::Requires {
            owner,
            start,
            count,
            goal,
        } => {
            conditional_head(writer, state, owner, start as usize, count as usize);
            candidate_literals(writer, spans, catalogue, state, goal);
        }
        Clause::Gated { gate, goal } => {
            line_fields::requires_head(writer, gate);
            candidate_literals(writer, spans, catalogue, state, goal);
        }
        Clause::Excluded { variable, part } => {
            let reason = catalogue
                .index
                .areas
                .tables
                .reason(Reason::Exclusion, part as usize);
            line_fields::excluded_fields(writer, reason, variable);
        }
        Clause::Unknown { variable, part } => {
            let reason = catalogue
                .index
                .areas
                .tables
                .reason(Reason::Unknown, part as usize);
            line_fields::excluded_fields(writer, reason, variable);
        }
        Clause::Constrains { owner, variable } => {
            line_fields::two_literals(writer, b"constrains", owner, false, variable, false);
        }
        Clause::Forbid { variable, helper } => {
            line_fields::two_literals(
                writer,
                b"forbid",
                variable,
                false,
                helper.variable(),
                helper.positive(),
            );
        }
        Clause::AuxOut {
            variable,
            violation,
        } => {
            line_fields::two_literals(writer, b"aux-out", variable, false, violation, true);
        }
        Clause::AuxOwner { owner, violation } => {
            line_fields::two_literals(writer, b"aux-owner", owner, false, violation, false);
        }
        Clause::Lock(variable) => {
            line_fields::two_literals(writer, b"lock", 0, false, variable, false);
        }
        Clause::AnyGate { gate, owner } => {
            line_fields::two_literals(writer, b"any", gate, true, owner, false);
        }
        Clause::AnyOne { one, variable } => {
            line_fields::two_literals(writer, b"any", one, true, variable, false);
        }
    }
}

fn row_fields(
    writer: &mut Writer,
    spans: &mut Spans,
    catalogue: &Catalogue,
    state: &StateRef,
    clauses: &[u8],
    i: usize,
)
    requires mapped { IsMappedAt state.now }
    requires good_rows { HasGoodRows (catalogue_of catalogue.now) state.now clauses.now }
    requires i_lt_clauses { i < state.now.used.clauses }
    requires spans { Stand (catalogue_of catalogue.now) (variables_at state.now) spans.old writer.old }
    ensures wrote { Writes writer.old writer.new (fields (clause_fields (catalogue_of catalogue.now) (get_or (clauses_stored (catalogue_of catalogue.now) state.now clauses.now) i install))) }
    ensures spans_2 { Stand (catalogue_of catalogue.now) (variables_at state.now) spans.new writer.new }
{
    let row = solver::row_at(clauses, state.used.clauses, i);
    clause_fields(writer, spans, catalogue, state, row);
}

fn clause_line(
    writer: &mut Writer,
    spans: &mut Spans,
    catalogue: &Catalogue,
    state: &StateRef,
    clauses: &[u8],
    i: usize,
)
    requires mapped { IsMappedAt state.now }
    requires good_rows { HasGoodRows (catalogue_of catalogue.now) state.now clauses.now }
    requires i_lt_clauses { i < state.now.used.clauses }
    requires spans { Stand (catalogue_of catalogue.now) (variables_at state.now) spans.old writer.old }
    ensures wrote { Writes writer.old writer.new (clause_text (catalogue_of catalogue.now) (clauses_stored (catalogue_of catalogue.now) state.now clauses.now) i) }
    ensures spans_2 { Stand (catalogue_of catalogue.now) (variables_at state.now) spans.new writer.new }
{
    writer.put(b'c');
    writer.field_number(i);
    row_fields(writer, spans, catalogue, state, clauses, i);
    writer.line_feed();
}

// A line for each clause; at first no literals stand anywhere.
pub fn clause_lines(writer: &mut Writer, catalogue: &Catalogue, state: &StateRef, clauses: &[u8])
    requires mapped { IsMappedAt state.now }
    requires good_rows { HasGoodRows (catalogue_of catalogue.now) state.now clauses.now }
    ensures { Writes writer.old writer.new (texts (clause_text (catalogue_of catalogue.now) (clauses_stored (catalogue_of catalogue.now) state.now clauses.now)) state.now.used.clauses) }
{
    let mut spans = Spans::new();
    for i in 0..state.used.clauses {
        if writer.is_over() {
            return;
        }
        clause_line(writer, &mut spans, catalogue, state, clauses, i);
    }
}

// ---- conflicts and asserted variables

// Has the goal no candidate?
fn no_candidate(catalogue: &Catalogue, goal: Requirement) -> bool
    ensures { result ≡ eqb (length (candidates (catalogue_of catalogue.now) (goal_of goal))) 0 }
{
    goals::count(catalogue, goal, 1) == 0
}

// The variable that a clause asserts false, if it does.
#[tactic(auto, unfolding(crate::specs::Asserted::asserted_by))]
fn asserted(catalogue: &Catalogue, clause: Clause) -> Option<u16>
    ensures { result ≡ asserted_by (catalogue_of catalogue.now) clause }
{
    match clause {
        Clause::Requires {
            owner,
            count,
            goal,
            ..
        } => {
            if count != 0 {
                return None;
            }
            no_candidate(catalogue, goal).then_some(owner)
        }
        Clause::Excluded { variable, .. } => Some(variable),
        Clause::Unknown { variable, .. } => Some(variable),
        _ => None,
    }
}

fn assertion_line(
    writer: &mut Writer,
    catalogue: &Catalogue,
    state: &StateRef,
    clauses: &[u8],
    i: usize,
)
    requires good_rows { HasGoodRows (catalogue_of catalogue.now) state.now clauses.now }
    requires i_lt_clauses { i < state.now.used.clauses }
    ensures { Writes writer.old writer.new (assertion_text (clauses_stored (catalogue_of catalogue.now) state.now clauses.now) i) }
{
    let row = solver::row_at(clauses, state.used.clauses, i);
    if let Some(variable) = asserted(catalogue, row.clause()) {
        state_lines::pair_line(writer, b'n', variable as usize, i);
    }
}

pub fn assertion_lines(writer: &mut Writer, catalogue: &Catalogue, state: &StateRef, clauses: &[u8])
    requires { HasGoodRows (catalogue_of catalogue.now) state.now clauses.now }
    ensures { Writes writer.old writer.new (texts (assertion_text (clauses_stored (catalogue_of catalogue.now) state.now clauses.now)) state.now.used.clauses) }
{
    for i in 0..state.used.clauses {
        assertion_line(writer, catalogue, state, clauses, i);
    }
}
