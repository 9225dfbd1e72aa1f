// Making the chains of a catalogue that was read.
ghost use Rattle.std.specs.Prelude.{◌≡◌, ◌+◌, ◌*◌, ◌<◌, ◌≤◌, length, get_or, set};
ghost use Rattle.words.specs.Words.{words};
ghost use Rattle.kept.specs.Kept.{Given};
ghost use Rattle.unions.specs.Unions.{no_row, row_of, rows};
ghost use Rattle.cache.specs.Areas.{Held};
ghost use Rattle.tables.specs.Tables.{tables};
ghost use Rattle.index.specs.Chains.{
  parts_by_name,
  Keyed,
  Linked,
  Heading,
  Linking,
  Keys,
  BoundSet,
  Bounding,
  Favoured,
  Favouring,
  is_non_matching,
  FirstNonMatching,
  Noting,
  Chained,
};
ghost use Rattle.index.specs.Members.{
  Links,
  Threaded,
  RangeOf,
  SameRow,
  Repeated,
  Unlinked,
  Threading,
  Relinked,
  Shortened,
  Passed,
  Built,
};

use crate::chain::{
    self, Chain, ConstraintsByOwner, NAME_ROW, PartsByName, RANGE_ROW, RANGES, RequirementsByOwner,
    UNION_ROW, UNIONS,
};
use marks::Marks;
use tables::{Counts, Flag, Tables};
use unions::{Member, Members};

// A row goes before those that the head leads to: its link leads to them, and the head to it.
fn put_before(area: &mut [u8], head: usize, link: usize, row: u16)
    requires { (head * 2 + 1 < length area.old) × (link * 2 + 1 < length area.old) }
    ensures { words area.new ≡ set (set (words area.old) link (get_or (words area.old) head 0)) head row }
{
    let next = words::get(area, head);
    words::put(area, link, next);
    words::put(area, head, row);
}

// The lent areas of a catalogue, to be given chains.
#[derive(Drop)]
struct Building<'a> {
    marks: &'a [u8],
    unions: &'a mut [u8],
    area: &'a mut [u8],
    counts: Counts,
    ghost held: { Held counts (length marks.now) (length unions.now) (length area.now) },
}

impl Building<'_> {
    ghost use Rattle.index.specs.Building.{SameAreas, TablesOnly, UnionsOnly, rows_of};

    fn tables(&self) -> Tables<'_>
        ensures counts { result.counts ≡ self.now.counts }
        ensures area { result.area.now ≡ self.now.area.now }
    {
        Tables {
            area: self.area,
            counts: self.counts,
        }
    }

    // Row i of the members of unions.
    fn member(&self, i: usize) -> Member
        ensures { row_of result ≡ get_or (rows_of self.now) i no_row }
    {
        let members = Members {
            area: self.unions,
            count: self.counts.members,
        };
        members.at(i)
    }

    // The row that row i leads to.
    fn next(&self, i: usize) -> u16
        requires { i < self.now.counts.members }
        ensures { result ≡ get_or (words self.now.unions.now) (2 * i + 1) 0 }
    {
        words::get(self.unions, 2 * i + 1)
    }

    fn marks(&self) -> Marks<'_>
        ensures { result.area.now ≡ self.now.marks.now }
    {
        Marks { area: self.marks }
    }

    // The number that stands at an index of the tables' area.
    fn number(&self, at: usize) -> u16
        requires { at * 2 + 1 < length self.now.area.now }
        ensures { result ≡ get_or (words self.now.area.now) at 0 }
    {
        words::get(self.area, at)
    }

    // ---- chains through the tables

    // No key has a row yet.
    fn start<C: Chain>(&mut self)
        ensures heading { Heading C.chain self.old.counts (C.rows self.old.counts) (C.keys self.old.counts) (C.keys self.old.counts) self.old.area.now self.new.area.now }
        ensures others { TablesOnly self.old self.new }
    {
        let none = C::rows(self.counts) as u16;
        for key in 0..C::keys(self.counts) {
            words::put(self.area, C::head_at(key), none);
        }
    }

    // Row i goes before those that its key's head leads to, which are those behind it.
    fn link<C: Chain>(&mut self, i: usize)
        requires keyed { Keyed C.chain (C.rows self.old.counts) (C.keys self.old.counts) (words self.old.area.now) }
        requires linked { Linked C.chain (C.rows self.old.counts) (C.keys self.old.counts) (i + 1) (words self.old.area.now) }
        requires i_in_bounds { i < C.rows self.old.counts }
        ensures linking { Linking C.chain self.old.counts (C.rows self.old.counts) (C.keys self.old.counts) i self.old.area.now self.new.area.now }
        ensures others { TablesOnly self.old self.new }
    {
        let key = C::key(self.number(C::key_at(i)));
        let head = C::head_at(key);
        let link = C::link_at(i);
        put_before(self.area, head, link, i as u16);
    }

    // All rows.
    fn link_all<C: Chain>(&mut self)
        requires { Keyed C.chain (C.rows self.old.counts) (C.keys self.old.counts) (words self.old.area.now) }
        ensures linking { Linking C.chain self.old.counts (C.rows self.old.counts) (C.keys self.old.counts) 0 self.old.area.now self.new.area.now }
        ensures others { TablesOnly self.old self.new }
    {
        self.start::<C>();
        for i in (0..C::rows(self.counts)).rev() {
            self.link::<C>(i);
        }
    }

    // The first member of a range and the end of its members.
    fn bound_range(&mut self, range: usize)
        requires { range < self.old.counts.ranges }
        ensures bounds { BoundSet self.old.counts self.old.marks.now range (words self.old.area.now) (words self.new.area.now) }
        ensures others { TablesOnly self.old self.new }
    {
        let parts = self.counts.parts;
        let first = self.marks().next(range, 0, parts);
        let end = self.marks().end(range, parts);
        words::put(self.area, RANGES + RANGE_ROW * range + 2, first as u16);
        words::put(self.area, RANGES + RANGE_ROW * range + 3, end as u16);
    }

    // Those of all ranges.
    fn bound_ranges(&mut self)
        ensures bounding { Bounding self.old.counts self.old.marks.now self.old.counts.ranges self.old.area.now self.new.area.now }
        ensures others { TablesOnly self.old self.new }
    {
        for range in 0..self.counts.ranges {
            self.bound_range(range);
        }
    }

    // No name has a favoured part yet.
    fn start_favoured(&mut self)
        ensures favouring { Favouring self.old.counts self.old.counts.parts self.old.area.now self.new.area.now }
        ensures others { TablesOnly self.old self.new }
    {
        for name in 0..self.counts.names {
            words::put(self.area, NAME_ROW * name + 5, 0);
        }
    }

    // Part i, which is favoured, lies within the bounds of its name.
    fn bound_favoured(&mut self, i: usize)
        requires keyed { Keyed parts_by_name self.old.counts.parts self.old.counts.names (words self.old.area.now) }
        requires favoured { Favoured self.old.counts (i + 1) self.old.area.now × (i < self.old.counts.parts) }
        ensures favouring { Favouring self.old.counts i self.old.area.now self.new.area.now }
        ensures others { TablesOnly self.old self.new }
    {
        let name = self.number(PartsByName::key_at(i)) as usize;
        let end = self.number(NAME_ROW * name + 5);
        words::put(self.area, NAME_ROW * name + 4, i as u16);
        if end <= i as u16 {
            words::put(self.area, NAME_ROW * name + 5, i as u16 + 1);
        }
    }

    // Part i, if it is favoured.
    fn bound_part(&mut self, i: usize)
        requires keyed { Keyed parts_by_name self.old.counts.parts self.old.counts.names (words self.old.area.now) }
        requires favoured { Favoured self.old.counts (i + 1) self.old.area.now × (i < self.old.counts.parts) }
        ensures favouring { Favouring self.old.counts i self.old.area.now self.new.area.now }
        ensures others { TablesOnly self.old self.new }
    {
        if self.tables().has(Flag::Favoured, i) {
            self.bound_favoured(i);
        }
    }

    // The favoured parts of all names.
    fn bound_parts(&mut self)
        requires { Keyed parts_by_name self.old.counts.parts self.old.counts.names (words self.old.area.now) }
        ensures favouring { Favouring self.old.counts 0 self.old.area.now self.new.area.now }
        ensures others { TablesOnly self.old self.new }
    {
        self.start_favoured();
        for i in (0..self.counts.parts).rev() {
            self.bound_part(i);
        }
    }

    // Is a part one of the name of a range, and no member?
    fn is_non_matching(&self, range: usize, part: usize) -> bool
        requires { range < self.now.counts.ranges }
        ensures { result ≡ is_non_matching (tables self.now.counts self.now.area.now) self.now.marks.now range part }
    {
        self.tables().part_name(part) == self.tables().range_name(range)
            && !self.marks().marked(range, part)
    }

    // The first non-matching part of a range, or how many parts there are: along the parts of its name while they are members.
    fn find_non_matching(&self, range: usize) -> usize
        requires linked { Linked parts_by_name self.now.counts.parts self.now.counts.names 0 (words self.now.area.now) }
        requires range_in_bounds { range < self.now.counts.ranges }
        ensures { FirstNonMatching self.now.counts.parts (tables self.now.counts self.now.area.now) self.now.marks.now range result }
    {
        let tables = self.tables();
        let name = tables.range_name(range) as usize;
        let mut part = chain::first::<PartsByName>(&tables, name);
        while part < self.counts.parts {
            if self.is_non_matching(range, part) {
                return part;
            }
            part = chain::next::<PartsByName>(&tables, name, part);
        }
        self.counts.parts
    }

    // Those of all ranges, kept in their rows.
    fn note_non_matching(&mut self)
        requires { Linked parts_by_name self.old.counts.parts self.old.counts.names 0 (words self.old.area.now) }
        ensures noting { Noting self.old.counts self.old.marks.now self.old.counts.ranges self.old.area.now self.new.area.now }
        ensures others { TablesOnly self.old self.new }
    {
        for range in 0..self.counts.ranges {
            let first = self.find_non_matching(range);
            words::put(self.area, RANGES + RANGE_ROW * range + 1, first as u16);
        }
    }

    // All of the tables.
    fn chain_tables(&mut self)
        requires { Keys self.old.counts self.old.area.now }
        ensures chained { Chained self.old.counts self.old.marks.now self.old.area.now self.new.area.now }
        ensures others { TablesOnly self.old self.new }
    {
        self.link_all::<PartsByName>();
        self.link_all::<RequirementsByOwner>();
        self.link_all::<ConstraintsByOwner>();
        self.bound_ranges();
        self.bound_parts();
        self.note_non_matching();
    }

    // ---- the members of unions

    // No union has a row yet.
    fn start_unions(&mut self)
        ensures unlinked { Unlinked self.old.counts self.old.counts.unions self.old.area.now self.new.area.now }
        ensures others { TablesOnly self.old self.new }
    {
        let none = self.counts.members as u16;
        for union in 0..self.counts.unions {
            words::put(self.area, UNIONS + UNION_ROW * union, none);
        }
    }

    // Do rows i and j have the same union and range?
    fn same_row(&self, i: usize, j: usize) -> bool
        requires { (i < self.now.counts.members) × (j < self.now.counts.members) }
        ensures { SameRow (rows_of self.now) i j result }
    {
        words::get(self.unions, 2 * i) == words::get(self.unions, 2 * j)
    }

    // Has row i the union and range of the four rows before it?
    fn is_repeated(&self, i: usize) -> bool
        requires { i < self.now.counts.members }
        ensures { Repeated (rows_of self.now) i result }
    {
        if i < 4 {
            return false;
        }
        for back in 1..5 {
            if !self.same_row(i, i - back) {
                return false;
            }
        }
        true
    }

    // Row i is linked to a row; no row changes.
    fn set_next(&mut self, i: usize, next: u16)
        requires { i < self.old.counts.members }
        ensures linked { words self.new.unions.now ≡ set (words self.old.unions.now) (2 * i + 1) next }
        ensures others { UnionsOnly self.old self.new }
    {
        words::put(self.unions, 2 * i + 1, next);
    }

    // Row i, those behind it being linked. One that is repeated is idle: no row leads to it.
    fn link_member(&mut self, i: usize)
        requires given { Given self.old.counts.unions (rows_of self.old) }
        requires threaded { Threaded self.old.counts (rows_of self.old) (i + 1) (words self.old.area.now) (words self.old.unions.now) }
        requires i_in_bounds { i < self.old.counts.members }
        ensures threading { Threading self.old.counts i self.old.unions.now self.old.area.now self.new.unions.now self.new.area.now }
        ensures others { SameAreas self.old self.new }
    {
        let union = self.member(i).union as usize;
        let idle = self.is_repeated(i);
        let first = self.number(UNIONS + UNION_ROW * union);
        self.set_next(i, first);
        if !idle {
            words::put(self.area, UNIONS + UNION_ROW * union, i as u16);
        }
    }

    // All rows by their unions.
    fn link_members(&mut self)
        requires { Given self.old.counts.unions (rows_of self.old) }
        ensures threading { Threading self.old.counts 0 self.old.unions.now self.old.area.now self.new.unions.now self.new.area.now }
        ensures others { SameAreas self.old self.new }
    {
        self.start_unions();
        for i in (0..self.counts.members).rev() {
            self.link_member(i);
        }
    }

    // The range of row i.
    fn range_of(&self, i: usize) -> usize
        requires { i < self.now.counts.members }
        ensures { RangeOf (rows_of self.now) i result }
    {
        self.member(i).range as usize
    }

    // The chain from row `last` leads to row i: if that is idle, on to the one behind it. The last row that the chain keeps.
    fn pass_row(&mut self, seen: &mut [u8; 512], last: usize, i: usize) -> usize
        requires { (i < self.old.counts.members) × Shortened self.old.counts self.old.unions.now last i self.old.unions.now seen.old }
        ensures passed { Passed self.old.counts self.old.unions.now i result self.new.unions.now seen.new }
        ensures others { UnionsOnly self.old self.new }
    {
        let range = self.range_of(i);
        let n = seen[range];
        if n < 4 {
            seen[range] = n + 1;
            return i;
        }
        let next = self.next(i);
        self.set_next(last, next);
        last
    }

    // The chain from its first row on passes idle rows.
    fn shorten(&mut self, first: usize)
        requires links { Links self.old.counts (rows_of self.old) 0 (words self.old.unions.now) × (first < self.old.counts.members) }
        ensures relinked { Relinked self.old.counts self.old.unions.now self.new.unions.now }
        ensures others { UnionsOnly self.old self.new }
    {
        let mut seen = [0; 512];
        let range = self.range_of(first);
        seen[range] = 1;
        let mut last = first;
        let mut i = self.next(first) as usize;
        while i < self.counts.members {
            last = self.pass_row(&mut seen, last, i);
            i = self.next(last) as usize;
        }
    }

    // The chain of a union.
    fn shorten_union(&mut self, union: usize)
        requires links { Links self.old.counts (rows_of self.old) 0 (words self.old.unions.now) × (union < self.old.counts.unions) }
        ensures relinked { Relinked self.old.counts self.old.unions.now self.new.unions.now }
        ensures others { UnionsOnly self.old self.new }
    {
        let first = self.number(UNIONS + UNION_ROW * union) as usize;
        if first < self.counts.members {
            self.shorten(first);
        }
    }

    // The chains of all unions.
    fn shorten_unions(&mut self)
        requires { Links self.old.counts (rows_of self.old) 0 (words self.old.unions.now) }
        ensures relinked { Relinked self.old.counts self.old.unions.now self.new.unions.now }
        ensures others { UnionsOnly self.old self.new }
    {
        for union in 0..self.counts.unions {
            self.shorten_union(union);
        }
    }
}

// The chains of a catalogue that was read.
pub fn build(marks: &[u8], unions: &mut [u8], area: &mut [u8], counts: Counts)
    requires held { Held counts (length marks.now) (length unions.old) (length area.old) }
    requires keys { Keys counts area.old }
    requires given { Given counts.unions (rows counts.members unions.old) }
    ensures { Built counts marks.now unions.old area.old unions.new area.new }
{
    let mut building = Building {
        marks,
        unions,
        area,
        counts,
    };
    building.chain_tables();
    building.link_members();
    building.shorten_unions();
}
