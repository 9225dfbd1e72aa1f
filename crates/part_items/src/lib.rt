// The catalogue's names, parts, ranges and members: the refusals 3, 4 and 5 of each in their order, and its effect on the areas that it is entered into.
// A part that is the second locked or favoured one of its name is told by what is known of the name, and where that does not tell by a search.
#![tactic(auto)]

ghost use Rattle.std.specs.Prelude.{◌≡◌, ◌<◌, get_or, OnErr};
ghost use Rattle.rules.specs.Records.{Item};
ghost use Rattle.rules.specs.Lists.{any};
ghost use Rattle.rules.specs.Catalogue.{no_part};
ghost use Rattle.tables.specs.Views.{tables_of, tables_mut_of};
ghost use Rattle.kept.specs.Vacancies.{Vacant};
ghost use Rattle.kept.specs.Entering.{EnteredTables, EnteredMarksAndTables, EnteredMarks, StillKept};
ghost use Rattle.part_items.specs.Second.{such, is_second, Known};
ghost use Rattle.part_items.specs.Claimed.{Claimed};

use kept::{Vacancy, has_flag};
use marks::MarksMut;
use refusal::{Contradiction, Refusal, Thing};
use tables::{Flag, Tables, TablesMut};

#[tactic(auto, using(kept::proofs::Entered::kept_same))]
pub fn add_name(tables: &mut TablesMut, flags: u8) -> Result<(), Refusal>
    ensures entered { EnteredTables tables.old (Item.name flags) result tables.new }
    ensures kept { StillKept tables.old tables.new }
    ensures refused { OnErr result (tables.new ≡ tables.old) }
    ensures same_area { tables.new.area.ghost_name ≡ tables.old.area.ghost_name }
{
    if 64 <= tables.counts.names {
        return Err(Refusal::TooMany(Thing::Name));
    }
    if 1 < flags {
        return Err(Refusal::Contradicts(Contradiction::OtherBits));
    }
    tables.push_name(flags);
    Ok(())
}

// ---- parts

// Is a part of this name, and has it the flag?
fn is_such(tables: &Tables, flag: Flag, name: u16, part: usize) -> bool
    ensures { result ≡ such flag name (get_or (tables_of tables.now).parts part no_part) }
{
    tables.part_name(part) == name && tables.has(flag, part)
}

// Has a part of this name the flag?
fn has_such(tables: &Tables, flag: Flag, name: u16) -> bool
    ensures { result ≡ any (such flag name) (tables_of tables.now).parts }
{
    for part in 0..tables.counts.parts {
        if is_such(tables, flag, name, part) {
            return true;
        }
    }
    false
}

// Would a part of these flags be the second one of its name that has the flag? So much is known of the name.
fn is_second(tables: &TablesMut, known: Vacancy, flag: Flag, name: u16, flags: u8) -> bool
    requires { Known known name (tables_mut_of tables.now).parts }
    ensures { result ≡ is_second (tables_mut_of tables.now).parts flag name flags }
{
    has_flag(flags, flag) && !known.is_of(flag) && has_such(&tables.as_tables(), flag, name)
}

// Refuses a part that is the second locked or favoured one of its name; of any other it is noted what flags it has. Most parts are neither.
#[inline(always)]
fn claim(
    tables: &TablesMut,
    vacancies: &mut [Vacancy; 64],
    name: u16,
    flags: u8,
) -> Result<(), Refusal>
    requires named { name < 64 }
    requires vacant { Vacant vacancies.old (tables_mut_of tables.now).parts }
    ensures claimed { Claimed (tables_mut_of tables.now).parts name flags result vacancies.new }
    ensures refused { OnErr result (vacancies.new ≡ vacancies.old) }
{
    if !has_flag(flags, Flag::Locked) && !has_flag(flags, Flag::Favoured) {
        return Ok(());
    }
    let known = vacancies[name as usize];
    if is_second(tables, known, Flag::Locked, name, flags) {
        return Err(Refusal::Contradicts(Contradiction::SecondLocked));
    }
    if is_second(tables, known, Flag::Favoured, name, flags) {
        return Err(Refusal::Contradicts(Contradiction::SecondFavoured));
    }
    vacancies[name as usize].note(flags);
    Ok(())
}

// A part. What is known of names is so before it, and after it.
#[inline(always)]
#[tactic(auto, using(kept::proofs::Entered::kept_same))]
pub fn add_part_knowing(
    tables: &mut TablesMut,
    vacancies: &mut [Vacancy; 64],
    name: u16,
    flags: u8,
    unknown: u16,
    exclusion: u16,
) -> Result<(), Refusal>
    requires { Vacant vacancies.old (tables_mut_of tables.old).parts }
    ensures entered { EnteredTables tables.old (Item.part name flags unknown exclusion) result tables.new }
    ensures vacant { Vacant vacancies.new (tables_mut_of tables.new).parts }
    ensures kept { StillKept tables.old tables.new }
    ensures refused { OnErr result ((tables.new ≡ tables.old) × (vacancies.new ≡ vacancies.old)) }
    ensures same_area { tables.new.area.ghost_name ≡ tables.old.area.ghost_name }
{
    if 1024 <= tables.counts.parts {
        return Err(Refusal::TooMany(Thing::Part));
    }
    if tables.counts.names <= name as usize {
        return Err(Refusal::Missing(Thing::Name, 1));
    }
    if 31 < flags {
        return Err(Refusal::Contradicts(Contradiction::OtherBits));
    }
    claim(tables, vacancies, name, flags)?;
    tables.push_part(name, flags, unknown, exclusion);
    Ok(())
}

// A part, where nothing is known of names.
pub fn add_part(
    tables: &mut TablesMut,
    name: u16,
    flags: u8,
    unknown: u16,
    exclusion: u16,
) -> Result<(), Refusal>
    ensures entered { EnteredTables tables.old (Item.part name flags unknown exclusion) result tables.new }
    ensures kept { StillKept tables.old tables.new }
    ensures refused { OnErr result (tables.new ≡ tables.old) }
    ensures same_area { tables.new.area.ghost_name ≡ tables.old.area.ghost_name }
{
    let mut vacancies = [Vacancy {
        locked: false,
        favoured: false,
    }; 64];
    add_part_knowing(tables, &mut vacancies, name, flags, unknown, exclusion)
}

// ---- ranges and their members

#[tactic(auto, using(kept::proofs::Entered::kept_same))]
pub fn add_range(marks: &mut MarksMut, tables: &mut TablesMut, name: u16) -> Result<(), Refusal>
    ensures entered { EnteredMarksAndTables marks.old tables.old (Item.range name) result marks.new tables.new }
    ensures kept { StillKept tables.old tables.new }
    ensures refused { OnErr result ((marks.new ≡ marks.old) × (tables.new ≡ tables.old)) }
    ensures same_areas { (marks.new.area.ghost_name ≡ marks.old.area.ghost_name)
        × (tables.new.area.ghost_name ≡ tables.old.area.ghost_name) }
{
    if 512 <= tables.counts.ranges {
        return Err(Refusal::TooMany(Thing::Range));
    }
    if tables.counts.names <= name as usize {
        return Err(Refusal::Missing(Thing::Name, 1));
    }
    marks.clear_row(tables.counts.ranges);
    tables.push_range(name);
    Ok(())
}

pub fn add_member(
    marks: &mut MarksMut,
    tables: &Tables,
    range: u16,
    part: u16,
) -> Result<(), Refusal>
    ensures entered { EnteredMarks tables.now marks.old (Item.member range part) result marks.new }
    ensures refused { OnErr result (marks.new ≡ marks.old) }
    ensures same_area { marks.new.area.ghost_name ≡ marks.old.area.ghost_name }
{
    let range = range as usize;
    let part = part as usize;
    if tables.counts.ranges <= range {
        return Err(Refusal::Missing(Thing::Range, 1));
    }
    if tables.counts.parts <= part {
        return Err(Refusal::Missing(Thing::Part, 3));
    }
    if tables.part_name(part) != tables.range_name(range) {
        return Err(Refusal::Contradicts(Contradiction::PartOfAnotherName));
    }
    if marks.as_marks().marked(range, part) {
        return Err(Refusal::Contradicts(Contradiction::MemberTwice));
    }
    marks.mark(range, part);
    Ok(())
}
