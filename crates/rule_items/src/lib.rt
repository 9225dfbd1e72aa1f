// The catalogue's unions, conditions, requirements and constraints: the refusals 3, 4, 5 and 6 of each in their order, and its effect on the areas that it is entered into.
#![tactic(auto)]

ghost use Rattle.std.specs.Prelude.{◌≡◌, ◌&&◌, ◌<◌, eqb, leb, IfOk, OnErr};
ghost use Rattle.rules.specs.Records.{Item};
ghost use Rattle.tables.specs.Tables.{with_union, Added};
ghost use Rattle.tables.specs.Views.{tables_of, tables_mut_of};
ghost use Rattle.unions.specs.Views.{rows_in_mut};
ghost use Rattle.conditions.specs.Sizes.{Sized};
ghost use Rattle.kept.specs.Kept.{Given};
ghost use Rattle.kept.specs.Entering.{EnteredTables, EnteredMembers, EnteredCounts, StillKept};
ghost use Rattle.rule_items.specs.Such.{past, past_condition, unknown_in, Joined};

use conditions::Conditions;
use refusal::{Contradiction, Refusal, Thing};
use requirement::{ConditionalRequirement, Owner, Requirement, condition_of};
use tables::{Condition, Constraint, Counts, Flag, Size, Tables, TablesMut};
use unions::{Member, MembersMut};

// ---- unions

// The counts with the union: nothing is written for it.
pub fn add_union(tables: &Tables) -> Result<Counts, Refusal>
    ensures entered { EnteredCounts tables.now Item.union result }
    ensures added { IfOk result (λ counts. Added tables.now.counts counts tables.now.area.now (with_union (tables_of tables.now))) }
{
    if 128 <= tables.counts.unions {
        return Err(Refusal::TooMany(Thing::Union));
    }
    Ok(tables.with_union())
}

pub fn add_union_member(
    members: &mut MembersMut,
    tables: &Tables,
    union: u16,
    range: u16,
) -> Result<(), Refusal>
    requires { members.old.count < 13107 }
    ensures entered { EnteredMembers tables.now members.old (Item.union_member union range) result members.new }
    ensures given { Given tables.now.counts.unions (rows_in_mut members.old) → Given tables.now.counts.unions (rows_in_mut members.new) }
    ensures refused { OnErr result (members.new ≡ members.old) }
    ensures same_area { members.new.area.ghost_name ≡ members.old.area.ghost_name }
{
    if tables.counts.unions <= union as usize {
        return Err(Refusal::Missing(Thing::Union, 1));
    }
    if tables.counts.ranges <= range as usize {
        return Err(Refusal::Missing(Thing::Range, 3));
    }
    members.push(Member { union, range });
    Ok(())
}

// ---- conditions

#[tactic(auto, using(kept::proofs::Entered::kept_same))]
pub fn add_leaf(tables: &mut TablesMut, range: u16) -> Result<(), Refusal>
    ensures entered { EnteredTables tables.old (Item.leaf range) result tables.new }
    ensures kept { StillKept tables.old tables.new }
    ensures refused { OnErr result (tables.new ≡ tables.old) }
    ensures same_area { tables.new.area.ghost_name ≡ tables.old.area.ghost_name }
{
    if 256 <= tables.counts.conditions {
        return Err(Refusal::TooMany(Thing::Condition));
    }
    if tables.counts.ranges <= range as usize {
        return Err(Refusal::Missing(Thing::Range, 1));
    }
    let size = Size {
        count: 1,
        longest: 1,
    };
    tables.push_condition(Condition::Range(range), size);
    Ok(())
}

// The condition with these halves.
#[tactic(auto, unfolding(rules::specs::Items::operator_of))]
fn joined(operator: u8, left: u16, right: u16) -> Result<Condition, Refusal>
    ensures { Joined operator left right result }
{
    match operator {
        0 => Ok(Condition::And { left, right }),
        1 => Ok(Condition::Or { left, right }),
        _ => Err(Refusal::Contradicts(Contradiction::OtherOperator)),
    }
}

#[tactic(auto, using(kept::proofs::Entered::kept_same))]
pub fn add_joined(
    tables: &mut TablesMut,
    operator: u8,
    left: u16,
    right: u16,
) -> Result<(), Refusal>
    requires { Sized (tables_mut_of tables.old) }
    ensures entered { EnteredTables tables.old (Item.joined operator left right) result tables.new }
    ensures kept { StillKept tables.old tables.new }
    ensures refused { OnErr result (tables.new ≡ tables.old) }
    ensures same_area { tables.new.area.ghost_name ≡ tables.old.area.ghost_name }
{
    if 256 <= tables.counts.conditions {
        return Err(Refusal::TooMany(Thing::Condition));
    }
    if tables.counts.conditions <= left as usize {
        return Err(Refusal::Missing(Thing::Condition, 2));
    }
    if tables.counts.conditions <= right as usize {
        return Err(Refusal::Missing(Thing::Condition, 4));
    }
    let condition = joined(operator, left, right)?;
    let conditions = Conditions {
        tables: tables.as_tables(),
    };
    let size = conditions.next_size(condition);
    if 64 < size.count {
        return Err(Refusal::DisjunctsOver);
    }
    if 16 < size.longest {
        return Err(Refusal::RangesOver);
    }
    tables.push_condition(condition, size);
    Ok(())
}

// ---- requirements and constraints

// A part that was not given, of this many.
fn is_past(count: usize, owner: Owner) -> bool
    ensures { result ≡ past count owner }
{
    match owner {
        Owner::Root => false,
        Owner::Part(part) => count <= part as usize,
    }
}

// A condition that was not given, of this many.
fn is_past_condition(count: usize, condition: Option<u16>) -> bool
    ensures { result ≡ past_condition count condition }
{
    condition.is_some_and(|condition| count <= condition as usize)
}

// A goal of this form that was not given, of this many.
fn is_past_goal(form: u8, this: u8, count: usize, number: u16) -> bool
    ensures { result ≡ (eqb form this && leb count number) }
{
    form == this && count <= number as usize
}

fn is_unknown(tables: &Tables, owner: Owner) -> bool
    ensures { result ≡ unknown_in (tables_of tables.now).parts owner }
{
    match owner {
        Owner::Root => false,
        Owner::Part(part) => tables.has(Flag::Unknown, part as usize),
    }
}

#[tactic(auto, using(kept::proofs::Entered::kept_same))]
pub fn add_requirement(
    tables: &mut TablesMut,
    owner: u16,
    form: u8,
    number: u16,
    condition: u16,
) -> Result<(), Refusal>
    ensures entered { EnteredTables tables.old (Item.requirement owner form number condition) result tables.new }
    ensures kept { StillKept tables.old tables.new }
    ensures refused { OnErr result (tables.new ≡ tables.old) }
    ensures same_area { tables.new.area.ghost_name ≡ tables.old.area.ghost_name }
{
    let counts = tables.counts;
    let owner = Owner::from(owner);
    let condition = condition_of(condition);
    if 1024 <= counts.requirements {
        return Err(Refusal::TooMany(Thing::Requirement));
    }
    if is_past(counts.parts, owner) {
        return Err(Refusal::Missing(Thing::Part, 1));
    }
    if is_past_goal(form, 0, counts.ranges, number) {
        return Err(Refusal::Missing(Thing::Range, 4));
    }
    if is_past_goal(form, 1, counts.unions, number) {
        return Err(Refusal::Missing(Thing::Union, 4));
    }
    if is_past_condition(counts.conditions, condition) {
        return Err(Refusal::Missing(Thing::Condition, 6));
    }
    if 1 < form {
        return Err(Refusal::Contradicts(Contradiction::OtherForm));
    }
    if is_unknown(&tables.as_tables(), owner) {
        return Err(Refusal::Contradicts(Contradiction::OwnerUnknown));
    }
    tables.push_requirement(ConditionalRequirement {
        owner,
        requirement: Requirement::from_parts(form as u16, number),
        condition,
    });
    Ok(())
}

#[tactic(auto, using(kept::proofs::Entered::kept_same))]
pub fn add_constraint(tables: &mut TablesMut, owner: u16, range: u16) -> Result<(), Refusal>
    ensures entered { EnteredTables tables.old (Item.constraint owner range) result tables.new }
    ensures kept { StillKept tables.old tables.new }
    ensures refused { OnErr result (tables.new ≡ tables.old) }
    ensures same_area { tables.new.area.ghost_name ≡ tables.old.area.ghost_name }
{
    let counts = tables.counts;
    let owner = Owner::from(owner);
    if 512 <= counts.constraints {
        return Err(Refusal::TooMany(Thing::Constraint));
    }
    if is_past(counts.parts, owner) {
        return Err(Refusal::Missing(Thing::Part, 1));
    }
    if counts.ranges <= range as usize {
        return Err(Refusal::Missing(Thing::Range, 3));
    }
    if is_unknown(&tables.as_tables(), owner) {
        return Err(Refusal::Contradicts(Contradiction::OwnerUnknown));
    }
    tables.push_constraint(Constraint { owner, range });
    Ok(())
}
