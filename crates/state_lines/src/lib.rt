// The listing's lines of variables, opened owners and names, conflicts and decisions: all that needs no catalogue.
// The same functions measure and write (`text::Writer`).
#![tactic(auto)]

ghost use Rattle.std.specs.Prelude.{[], ◌∷◌, ◌*◌, ◌<◌, ◌≤◌, length};
ghost use Rattle.rules.specs.Listing.{decimal, line};
ghost use Rattle.text.specs.Writing.{Writes};
ghost use Rattle.marked.specs.Marked.{listed};
ghost use Rattle.solver.specs.Rows.{rows};
ghost use Rattle.encoder.specs.StateRefs.{regions_at, variables_at, decisions_at};
ghost use Rattle.line_fields.specs.Listed.{texts, variable_text, owner_text, name_text, conflict_text, decision_text};

use encoder::StateRef;
use marked::MarkedList;
use text::Writer;

// Kept: no plainer: one loop for all five would take its line as a closure, with a ghost text and clauses of what each call may be given and writes, in place of two lines.

// ---- variables

fn variable_line(writer: &mut Writer, state: &StateRef, x: usize)
    requires { state.now.used.variables ≤ state.now.limits.variables }
    ensures { Writes writer.old writer.new (variable_text (variables_at state.now) x) }
{
    writer.put(b'v');
    writer.field_number(x);
    let origin = state.origin_at(x);
    line_fields::origin_fields(writer, origin);
    writer.line_feed();
}

pub fn variable_lines(writer: &mut Writer, state: &StateRef)
    requires { state.now.used.variables ≤ state.now.limits.variables }
    ensures { Writes writer.old writer.new (texts (variable_text (variables_at state.now)) state.now.used.variables) }
{
    for i in 0..state.used.variables {
        variable_line(writer, state, i);
    }
}

// ---- opened owners and names

fn owner_line(writer: &mut Writer, state: &StateRef, i: usize)
    requires { i < state.now.used.owners }
    ensures { Writes writer.old writer.new (owner_text (listed state.now.used.owners 1 (regions_at state.now)) i) }
{
    let number = state.listed(MarkedList::Owners, state.used.owners, i);
    writer.put(b'o');
    line_fields::field_owner(writer, owners::owner_by_number(number));
    writer.line_feed();
}

pub fn owner_lines(writer: &mut Writer, state: &StateRef)
    ensures { Writes writer.old writer.new (texts (owner_text (listed state.now.used.owners 1 (regions_at state.now))) state.now.used.owners) }
{
    for i in 0..state.used.owners {
        owner_line(writer, state, i);
    }
}

fn name_line(writer: &mut Writer, state: &StateRef, i: usize)
    requires { i < state.now.used.names }
    ensures { Writes writer.old writer.new (name_text (listed state.now.used.names 3 (regions_at state.now)) i) }
{
    let name = state.listed(MarkedList::Names, state.used.names, i);
    writer.put(b'p');
    writer.field_number(name as usize);
    writer.line_feed();
}

pub fn name_lines(writer: &mut Writer, state: &StateRef)
    ensures { Writes writer.old writer.new (texts (name_text (listed state.now.used.names 3 (regions_at state.now))) state.now.used.names) }
{
    for i in 0..state.used.names {
        name_line(writer, state, i);
    }
}

// ---- conflicts and asserted variables

// A letter and two numbers.
pub fn pair_line(writer: &mut Writer, letter: u8, x: usize, y: usize)
    ensures { Writes writer.old writer.new (line ((letter ∷ []) ∷ decimal x ∷ decimal y ∷ [])) }
{
    writer.put(letter);
    writer.field_number(x);
    writer.field_number(y);
    writer.line_feed();
}

fn conflict_line(writer: &mut Writer, clauses: &[u8], count: usize, i: usize)
    requires clauses_bound { (count ≤ 16384) × (count * 20 ≤ length clauses.now) }
    requires i_lt_clauses { i < count }
    ensures { Writes writer.old writer.new (conflict_text (rows count clauses.now) i) }
{
    let row = solver::row_at(clauses, count, i);
    if let Some(run) = row.conflict() {
        pair_line(writer, b'x', run as usize, i);
    }
}

// A line for each of the first `count` clauses that was a conflict.
pub fn conflict_lines(writer: &mut Writer, clauses: &[u8], count: usize)
    requires { (count ≤ 16384) × (count * 20 ≤ length clauses.now) }
    ensures { Writes writer.old writer.new (texts (conflict_text (rows count clauses.now)) count) }
{
    for i in 0..count {
        conflict_line(writer, clauses, count, i);
    }
}

// ---- decisions

fn decision_line(writer: &mut Writer, state: &StateRef, i: usize)
    requires { (state.now.used.decisions ≤ state.now.limits.variables) × (i < state.now.used.decisions) }
    ensures { Writes writer.old writer.new (decision_text (decisions_at state.now) i) }
{
    let decision = state.decision_at(i);
    writer.put(b'd');
    line_fields::decision_fields(writer, decision);
    writer.line_feed();
}

pub fn decision_lines(writer: &mut Writer, state: &StateRef)
    requires { state.now.used.decisions ≤ state.now.limits.variables }
    ensures { Writes writer.old writer.new (texts (decision_text (decisions_at state.now)) state.now.used.decisions) }
{
    for i in 0..state.used.decisions {
        decision_line(writer, state, i);
    }
}
