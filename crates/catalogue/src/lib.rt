// Reading a catalogue into its areas: each record's item is entered or refused, up to the first sheet record.
// What is left of the definitions' walks stays the same at every record.
#![tactic(auto)]

ghost use Rattle.std.specs.Prelude.{◌≡◌, ◌+◌, ◌*◌, ◌<◌, ◌≤◌, Ok, None, length, take, drop, IsTrue, IfOk, OnErr};
ghost use Rattle.rules.specs.Bytes.{word_at};
ghost use Rattle.reader.specs.Naming.{item_length};
ghost use Rattle.reader.specs.Reading.{item_read};
ghost use Rattle.reader.specs.declared.ItemKind.TheVariants.{Part};
ghost use Rattle.tables.specs.Views.{tables_mut_of};
ghost use Rattle.unions.specs.Views.{rows_in_mut};
ghost use Rattle.conditions.specs.Sizes.{Sized};
ghost use Rattle.kept.specs.Kept.{Given};
ghost use Rattle.kept.specs.Entered.{rows_of, Entered};
ghost use Rattle.kept.specs.Entering.{catalogue_of};
ghost use Rattle.kept.specs.Drafts.{catalogue_in, EnteredInto, Unchanged, SameAreas};
ghost use Rattle.catalogue.specs.Staying.{Stay};
ghost use Rattle.catalogue.specs.Walking.{RecordRead, PartAt, PartsRead, RecordsRead, ReadUp};

use kept::{Draft, Vacancy};
use marks::MarksMut;
use reader::{ItemKind, Kind, Reader, item_kind};
use refusal::{Refusal, RefusedAt};
use tables::{Counts, TablesMut};
use unions::MembersMut;

// A whole catalogue: the place of the first sheet record or the end, and how many of each thing it gives.
#[derive(Clone, Copy)]
pub struct Read {
    pub at: usize,
    pub counts: Counts,
}

// The two-byte number at i, which the body has: its length is not looked at.
#[tactic(auto, unfolding(rules::specs::Bytes::byte_at, rules::specs::Bytes::word_at))]
fn number(body: &[u8], i: usize) -> u16
    requires { i + 1 < length body.now }
    ensures { result ≡ word_at body.now i }
{
    u16::from(body[i]) + 256 * u16::from(body[i + 1])
}

// The item of the record, which is whole, by its kind. The body is cut by a number of its kind, so that it waits for no table of lengths.
#[tactic(auto, unfolding(rules::specs::Bytes::byte_at, reader::specs::Reading::item_read, kept::specs::Entered::rows_of))]
pub fn add_item(
    reader: Reader,
    kind: ItemKind,
    marks: &mut MarksMut,
    members: &mut MembersMut,
    tables: &mut TablesMut,
) -> Result<(), Refusal>
    requires whole { reader.at + 1 + item_length kind ≤ length reader.job.now }
    requires room { members.old.count + rows_of (item_read kind (take (item_length kind) (drop (reader.at + 1) reader.job.now))) ≤ 13107 }
    requires given { Given tables.old.counts.unions (rows_in_mut members.old) }
    requires sized { Sized (tables_mut_of tables.old) }
    ensures entered { Entered (catalogue_of marks.old members.old tables.old) members.old.count
        (item_read kind (take (item_length kind) (drop (reader.entry.at + 1) reader.entry.job.now)))
        result (catalogue_of marks.new members.new tables.new) members.new.count }
    ensures given { Given tables.new.counts.unions (rows_in_mut members.new) }
    ensures sized { Sized (tables_mut_of tables.new) }
    ensures refused { OnErr result ((marks.new ≡ marks.old) × (members.new ≡ members.old) × (tables.new ≡ tables.old)) }
    ensures stay { Stay kind marks.old marks.new members.old members.new tables.old tables.new }
    ensures same_areas { (marks.new.area.ghost_name ≡ marks.old.area.ghost_name)
        × (members.new.area.ghost_name ≡ members.old.area.ghost_name)
        × (tables.new.area.ghost_name ≡ tables.old.area.ghost_name) }
{
    match kind {
        ItemKind::Name => part_items::add_name(tables, reader.body(1)[0]),
        ItemKind::Part => {
            let body = reader.body(7);
            part_items::add_part(
                tables,
                number(body, 0),
                body[2],
                number(body, 3),
                number(body, 5),
            )
        }
        ItemKind::Range => part_items::add_range(marks, tables, number(reader.body(2), 0)),
        ItemKind::Member => {
            let body = reader.body(4);
            part_items::add_member(marks, &tables.as_tables(), number(body, 0), number(body, 2))
        }
        ItemKind::Union => {
            tables.counts = rule_items::add_union(&tables.as_tables())?;
            Ok(())
        }
        ItemKind::UnionMember => {
            let body = reader.body(4);
            rule_items::add_union_member(
                members,
                &tables.as_tables(),
                number(body, 0),
                number(body, 2),
            )
        }
        ItemKind::Leaf => rule_items::add_leaf(tables, number(reader.body(2), 0)),
        ItemKind::Joined => {
            let body = reader.body(5);
            rule_items::add_joined(tables, body[0], number(body, 1), number(body, 3))
        }
        ItemKind::Requirement => {
            let body = reader.body(7);
            rule_items::add_requirement(
                tables,
                number(body, 0),
                body[2],
                number(body, 3),
                number(body, 5),
            )
        }
        ItemKind::Constraint => {
            let body = reader.body(4);
            rule_items::add_constraint(tables, number(body, 0), number(body, 2))
        }
    }
}

// The record, if it is the catalogue's: the place behind it. A sheet record is left as it is, its body not looked at.
pub fn read_record(reader: Reader, draft: &mut Draft) -> Result<Option<usize>, Refusal>
    requires { (5 * draft.old.members.now.count ≤ reader.at) × (length reader.job.now ≤ 65536) }
    ensures record { RecordRead reader.entry.job.now reader.entry.at (catalogue_in draft.old) result (catalogue_in draft.new) draft.new.members.now.count }
    ensures unread { (result ≡ Ok None) → Unchanged draft.old draft.new }
    ensures same_areas { SameAreas draft.old draft.new }
{
    match reader.kind()? {
        Kind::Command(_) => Ok(None),
        Kind::Item(kind) => {
            reader.behind(kind.body_length())?;
            add_item(reader, kind, draft.marks, draft.members, draft.tables)?;
            // Behind a part that was entered alone it is no longer known what any name has.
            if kind == ItemKind::Part {
                *draft.vacancies = [Vacancy {
                    locked: false,
                    favoured: false,
                }; 64];
            }
            // The length once more, where the kind is known: the next place waits for no table.
            Ok(Some(reader.at + 1 + kind.body_length()))
        }
    }
}

// ---- parts that follow one another

// Does a part stand at `at`, whole?
fn is_part(job: &[u8], at: usize) -> bool
    requires { at ≤ length job.now }
    ensures { IsTrue result → PartAt job.now at }
{
    8 <= job.len() - at && item_kind(job[at]) == Some(ItemKind::Part)
}

// The part whose record, which is whole, has this body.
#[inline(always)]
#[tactic(auto, unfolding(rules::specs::Bytes::byte_at, reader::specs::Reading::item_read))]
fn add_part(body: &[u8], draft: &mut Draft) -> Result<(), Refusal>
    requires { length body.now ≡ 7 }
    ensures entered { EnteredInto draft.old (item_read Part body.now) result draft.new }
    ensures refused { OnErr result (Unchanged draft.old draft.new) }
    ensures same_areas { SameAreas draft.old draft.new }
{
    part_items::add_part_knowing(
        draft.tables,
        draft.vacancies,
        number(body, 0),
        body[2],
        number(body, 3),
        number(body, 5),
    )
}

// The parts from `from` on, where one stands, up to a record of another kind: the place behind them.
fn add_parts(job: &[u8], from: usize, draft: &mut Draft) -> Result<usize, RefusedAt>
    requires first { PartAt job.now from }
    requires within { (from ≤ length job.now) × (5 * draft.old.members.now.count ≤ from) × (length job.now ≤ 65536) }
    ensures parts { PartsRead job.now from (catalogue_in draft.old) result (catalogue_in draft.new) draft.new.members.now.count }
    ensures onward { IfOk result (λ next. from < next) }
    ensures same_areas { SameAreas draft.old draft.new }
{
    let mut at = from;
    loop {
        let reader = Reader { job, at };
        if let Err(refusal) = add_part(reader.body(7), draft) {
            return Err(RefusedAt { refusal, at });
        }
        at += 8;
        if !is_part(job, at) {
            return Ok(at);
        }
    }
}

// The records from the start of the job on: the place of the first sheet record, or the end.
fn read_records(job: &[u8], draft: &mut Draft) -> Result<usize, RefusedAt>
    requires { (draft.old.members.now.count ≡ 0) × (length job.now ≤ 65536) }
    ensures records { RecordsRead job.now (catalogue_in draft.old) result (catalogue_in draft.new) }
    ensures same_areas { SameAreas draft.old draft.new }
{
    let mut at = 0;
    while at < job.len() {
        if is_part(job, at) {
            at = add_parts(job, at, draft)?;
            continue;
        }
        match read_record(Reader { job, at }, draft) {
            Ok(Some(next)) => at = next,
            Ok(None) => break,
            Err(refusal) => return Err(RefusedAt { refusal, at }),
        }
    }
    Ok(at)
}

pub fn read_catalogue<'a>(
    job: &[u8],
    marks: &'a mut [u8],
    unions: &'a mut [u8],
    t: &'a mut [u8],
) -> Result<Read, RefusedAt>
    requires { (65536 ≤ length marks.old) × (52428 ≤ length unions.old) × (50696 ≤ length t.old) × (length job.now ≤ 65536) }
    ensures { ReadUp job.now result marks.new unions.new t.new }
{
    let none = Counts {
        names: 0,
        parts: 0,
        ranges: 0,
        unions: 0,
        members: 0,
        conditions: 0,
        requirements: 0,
        constraints: 0,
    };
    let mut marks = MarksMut { area: marks };
    let mut members = MembersMut {
        area: unions,
        count: 0,
    };
    let mut tables = TablesMut {
        area: t,
        counts: none,
    };
    let mut vacancies = [Vacancy {
        locked: true,
        favoured: true,
    }; 64];
    let mut draft = Draft {
        marks: &mut marks,
        members: &mut members,
        tables: &mut tables,
        vacancies: &mut vacancies,
    };
    let at = read_records(job, &mut draft)?;
    let counts = Counts {
        members: members.count,
        ..tables.counts
    };
    Ok(Read { at, counts })
}
