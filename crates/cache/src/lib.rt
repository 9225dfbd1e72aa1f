// The lists that follow from a catalogue, after cache.rs: is a part one of the matching, non-matching or favoured parts of a range?
// Membership is a look-up in the marks. The unions are not read here: they are part of the catalogue that the contracts speak of.
#![tactic(auto)]

ghost use Rattle.std.specs.Prelude.{◌≡◌, length};
ghost use Rattle.rules.specs.Candidates.{member};
ghost use Rattle.cache.specs.Areas.{Held};

use marks::Marks;
use tables::{Flag, Tables};
use unions::Members;

// Which parts of a range's name are asked for: its members, the rest, its favoured members, its other members.
#[derive(Clone, Copy)]
pub enum Choice {
    Matching,
    NonMatching,
    Favoured,
    Others,
}

impl Choice {
    ghost use Rattle.cache.specs.Lists.{asked};

    // Of a part of the range's name: is it asked for?
    fn asks(self, member: bool, favoured: bool) -> bool
        ensures { result ≡ asked self member favoured }
    {
        match self {
            Choice::Matching => member,
            Choice::NonMatching => !member,
            Choice::Favoured => member && favoured,
            Choice::Others => member && !favoured,
        }
    }
}

// The lent areas of a catalogue: marks, members of unions, and the other tables.
#[derive(Clone, Copy)]
pub struct Areas<'a> {
    pub marks: &'a [u8],
    pub unions: &'a [u8],
    pub tables: Tables<'a>,
    pub ghost held: { Held tables.counts (length marks.now) (length unions.now) (length tables.area.now) },
}

impl<'a> Areas<'a> {
    ghost use Rattle.cache.specs.Lists.{chosen};
    ghost use Rattle.cache.specs.Views.{areas_catalogue};

    pub fn as_marks(&self) -> Marks<'a>
        ensures { result.area.now ≡ self.now.marks.now }
    {
        Marks { area: self.marks }
    }

    pub fn as_members(&self) -> Members<'a>
        ensures area { result.area.now ≡ self.now.unions.now }
        ensures count { result.count ≡ self.now.tables.counts.members }
    {
        Members {
            area: self.unions,
            count: self.tables.counts.members,
        }
    }

    // Is a part a member of a range?
    pub fn member(&self, range: usize, part: usize) -> bool
        ensures { result ≡ member (areas_catalogue self.now) range part }
    {
        range < self.tables.counts.ranges && self.as_marks().marked(range, part)
    }

    // Is a part of the range's name, and asked for?
    pub fn chosen(&self, range: usize, choice: Choice, part: usize) -> bool
        ensures { result ≡ chosen (areas_catalogue self.now) range choice part }
    {
        if self.tables.part_name(part) != self.tables.range_name(range) {
            return false;
        }
        let member = self.member(range, part);
        let favoured = self.tables.has(Flag::Favoured, part);
        choice.asks(member, favoured)
    }
}
