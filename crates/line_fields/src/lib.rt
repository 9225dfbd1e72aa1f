// Fields of the listing's lines, from numbers alone; and what the listing's pieces are to be (`Listed`).
// The same functions measure and write (`text::Writer`).
#![tactic(auto)]

ghost use Rattle.std.specs.Prelude.{false, [], ◌∷◌, map};
ghost use Rattle.rules.specs.Listing.{ascii, decimal, signed, owner_field, goal_fields, origin_fields, clause_field};
ghost use Rattle.requirement.specs.Requirements.{owner_is, goal_of};
ghost use Rattle.text.specs.Text.{fields, literal_of};
ghost use Rattle.text.specs.Writing.{Writes};
ghost use Rattle.variable_map.specs.Mapping.{origin_of};
ghost use Rattle.decision_tracker.specs.Tracking.{decision_of, clause_of};
ghost use Rattle.conditions.specs.Disjuncts.{ranges_of};
ghost use Rattle.line_fields.specs.Listed.{decision_fields};

use conditions::Disjunct;
use decision_tracker::Decision;
use requirement::{Owner, Requirement};
use text::Writer;
use variable_map::Origin;

// ---- fields

// The owner: the root, or the part's number.
pub fn field_owner(writer: &mut Writer, owner: Owner)
    ensures { Writes writer.old writer.new (fields (owner_field (owner_is owner) ∷ [])) }
{
    match owner {
        Owner::Root => writer.field_word(b"root"),
        Owner::Part(part) => writer.field_number(part as usize),
    }
}

pub fn goal_fields(writer: &mut Writer, goal: Requirement)
    ensures { Writes writer.old writer.new (fields (goal_fields (goal_of goal))) }
{
    match goal {
        Requirement::Single(range) => word_and_number(writer, b"range", range),
        Requirement::Union(union) => word_and_number(writer, b"union", union),
    }
}

// ---- variables

fn word_and_number(writer: &mut Writer, word: &[u8], number: u16)
    ensures { Writes writer.old writer.new (fields (word.now ∷ decimal number ∷ [])) }
{
    writer.field_word(word);
    writer.field_number(number as usize);
}

fn gate_fields(writer: &mut Writer, goal: Requirement)
    ensures { Writes writer.old writer.new (fields (ascii "gate" ∷ goal_fields (goal_of goal))) }
{
    writer.field_word(b"gate");
    goal_fields(writer, goal);
}

pub fn origin_fields(writer: &mut Writer, origin: Origin)
    ensures { Writes writer.old writer.new (fields (origin_fields (origin_of origin))) }
{
    match origin {
        Origin::Root => writer.field_word(b"root"),
        Origin::Part(part) => word_and_number(writer, b"part", part),
        Origin::Forbid { name, bit: _ } => word_and_number(writer, b"forbid", name),
        Origin::One(name) => word_and_number(writer, b"one", name),
        Origin::Violation(range) => word_and_number(writer, b"violation", range),
        Origin::Gate(goal) => gate_fields(writer, goal),
    }
}

// ---- clauses

// The word and the literal of the owner or the gate.
pub fn requires_head(writer: &mut Writer, x: u16)
    ensures { Writes writer.old writer.new (fields (ascii "requires" ∷ signed (literal_of x false) ∷ [])) }
{
    writer.field_word(b"requires");
    writer.field_literal(x as usize, false);
}

pub fn excluded_fields(writer: &mut Writer, reason: u16, x: u16)
    ensures { Writes writer.old writer.new (fields (ascii "excluded" ∷ decimal reason ∷ signed (literal_of x false) ∷ [])) }
{
    writer.field_word(b"excluded");
    writer.field_number(reason as usize);
    writer.field_literal(x as usize, false);
}

pub fn two_literals(writer: &mut Writer, word: &[u8], x: u16, a: bool, y: u16, b: bool)
    ensures { Writes writer.old writer.new (fields (word.now ∷ signed (literal_of x a) ∷ signed (literal_of y b) ∷ [])) }
{
    writer.field_word(word);
    writer.field_literal(x as usize, a);
    writer.field_literal(y as usize, b);
}

// ---- decisions

fn field_clause(writer: &mut Writer, clause: Option<u16>)
    ensures { Writes writer.old writer.new (fields (clause_field (clause_of clause) ∷ [])) }
{
    match clause {
        None => writer.field_word(b"-"),
        Some(number) => writer.field_number(number as usize),
    }
}

pub fn decision_fields(writer: &mut Writer, decision: Decision)
    ensures { Writes writer.old writer.new (fields (decision_fields (decision_of decision))) }
{
    writer.field_number(decision.variable as usize);
    writer.field_number(usize::from(decision.value));
    writer.field_number(decision.level as usize);
    field_clause(writer, decision.clause);
}

// ---- waiting entries

// The ranges of a disjunct.
pub fn disjunct_fields(writer: &mut Writer, disjunct: &Disjunct)
    ensures { Writes writer.old writer.new (fields (map decimal (ranges_of disjunct.now))) }
{
    for range in disjunct.ranges() {
        writer.field_number(*range as usize);
    }
}
