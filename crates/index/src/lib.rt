// Chains through the catalogue's areas, made once when the catalogue is read: the parts of a name, the requirements and the constraints of an owner,
// the members of a union. A walk along a chain meets the rows of one key, in file order, and no others; idle rows of a union it passes over.
// Beside them: bounds of a range's members and of a name's favoured parts, and a range's first non-matching part.
#![tactic(auto)]

mod building;
mod chain;

ghost use Rattle.std.specs.Prelude.{◌≡◌, [], ◌∷◌, ◌+◌, ◌<◌, ◌≤◌, ltb, length, get_or};
ghost use Rattle.rules.specs.Lists.{list_if};
ghost use Rattle.rules.specs.Candidates.{matching, non_matching};
ghost use Rattle.words.specs.Words.{words};
ghost use Rattle.kept.specs.Kept.{Given};
ghost use Rattle.unions.specs.Unions.{no_row, rows};
ghost use Rattle.marks.specs.Marks.{NextMember, EndOfMembers};
ghost use Rattle.tables.specs.Tables.{tables};
ghost use Rattle.cache.specs.Lists.{chosen, Counted, CountedTo};
ghost use Rattle.cache.specs.Lists as lists;
ghost use Rattle.cache.specs.declared.Choice.TheVariants.{Matching, NonMatching};
ghost use Rattle.index.specs.Chains.{
  Chains,
  First,
  parts_by_name,
  requirements_by_owner,
  constraints_by_owner,
  key_of,
  favoured_of,
  FirstNonMatching,
  Skips,
};
ghost use Rattle.index.specs.Members.{Passes, Threaded};
ghost use Rattle.rules.proofs.WellFormed.{WellFormed};
ghost use Rattle.cache.specs.Views.{areas_catalogue};
ghost use Rattle.index.specs.Indexed.{Indexed};
ghost use Rattle.index.specs.Props.{chains_prop, indexed_prop, formed_prop};

pub use building::build;
use cache::{Areas, Choice};
pub use chain::{Chain, ConstraintsByOwner, PartsByName, RequirementsByOwner, first, next};
use chain::{NAME_ROW, RANGE_ROW, RANGES, UNION_ROW, UNIONS};
use conditions::Conditions;

// A catalogue's areas, with the chains of its tables.
#[derive(Clone, Copy)]
pub struct Index<'a> {
    pub areas: Areas<'a>,
    pub ghost chains: { Chains areas.tables.counts areas.marks.now areas.tables.area.now } by { chains_prop areas.tables.counts areas.marks.now areas.tables.area.now },
}

// A catalogue that was read, in which every number names something given.
#[derive(Clone, Copy)]
pub struct Catalogue<'a> {
    pub index: Index<'a>,
    pub ghost indexed: { Indexed index.areas.tables.counts index.areas.marks.now index.areas.unions.now index.areas.tables.area.now } by { indexed_prop index.areas.tables.counts index.areas.marks.now index.areas.unions.now index.areas.tables.area.now },
    pub ghost formed: { WellFormed (areas_catalogue index.areas) } by { formed_prop (areas_catalogue index.areas) },
}

impl<'a> Index<'a> {
    ghost use Rattle.index.specs.Views.{catalogue_in, counts_in, bytes_in, rows_in};

    // ---- walking along the chains

    // The first part of a name, or how many parts there are.
    pub fn first_part(&self, name: u16) -> usize
        ensures { First (counts_in self.now).parts (key_of parts_by_name (words (bytes_in self.now))) name 0 result }
    {
        first::<PartsByName>(&self.areas.tables, name as usize)
    }

    // The next one behind a part, which need not be of the name.
    pub fn next_part(&self, name: u16, part: usize) -> usize
        requires { part < (counts_in self.now).parts }
        ensures { First (counts_in self.now).parts (key_of parts_by_name (words (bytes_in self.now))) name (part + 1) result }
    {
        next::<PartsByName>(&self.areas.tables, name as usize, part)
    }

    // The first requirement of an owner by its row, or how many requirements there are.
    pub fn first_requirement(&self, row: usize) -> usize
        ensures { First (counts_in self.now).requirements (key_of requirements_by_owner (words (bytes_in self.now))) row 0 result }
    {
        first::<RequirementsByOwner>(&self.areas.tables, row)
    }

    // The next one behind a requirement, which need not be of the owner.
    pub fn next_requirement(&self, row: usize, requirement: usize) -> usize
        requires { requirement < (counts_in self.now).requirements }
        ensures { First (counts_in self.now).requirements (key_of requirements_by_owner (words (bytes_in self.now))) row (requirement + 1) result }
    {
        next::<RequirementsByOwner>(&self.areas.tables, row, requirement)
    }

    // The first constraint of an owner by its row, or how many constraints there are.
    pub fn first_constraint(&self, row: usize) -> usize
        ensures { First (counts_in self.now).constraints (key_of constraints_by_owner (words (bytes_in self.now))) row 0 result }
    {
        first::<ConstraintsByOwner>(&self.areas.tables, row)
    }

    // The next one behind a constraint, which need not be of the owner.
    pub fn next_constraint(&self, row: usize, constraint: usize) -> usize
        requires { constraint < (counts_in self.now).constraints }
        ensures { First (counts_in self.now).constraints (key_of constraints_by_owner (words (bytes_in self.now))) row (constraint + 1) result }
    {
        next::<ConstraintsByOwner>(&self.areas.tables, row, constraint)
    }

    // The first row of a union, or one behind it if that is idle; or how many rows there are.
    pub fn first_of_union(&self, union: u16) -> usize
        requires given { Given (counts_in self.now).unions (rows_in self.now) }
        requires threaded { Threaded (counts_in self.now) (rows_in self.now) 0 (words (bytes_in self.now)) (words self.now.areas.unions.now) }
        ensures { Passes (counts_in self.now) (rows_in self.now) union 0 result }
    {
        let union = union as usize;
        if union < self.areas.tables.counts.unions {
            words::get(self.areas.tables.area, UNIONS + UNION_ROW * union) as usize
        } else {
            self.areas.tables.counts.members
        }
    }

    // The next one of the union of row i.
    pub fn next_of_union(&self, i: usize) -> usize
        requires threaded { Threaded (counts_in self.now) (rows_in self.now) 0 (words (bytes_in self.now)) (words self.now.areas.unions.now) }
        requires i_lt_members { i < (counts_in self.now).members }
        ensures { Passes (counts_in self.now) (rows_in self.now) (get_or (rows_in self.now) i no_row).union (i + 1) result }
    {
        self.areas.as_members().next(i) as usize
    }

    // ---- the chosen parts of a range, one after another

    // The first member of a range, or the number of parts.
    fn first_member(&self, range: usize) -> usize
        requires { range < (counts_in self.now).ranges }
        ensures { NextMember self.now.areas.marks.now range 0 (counts_in self.now).parts result }
    {
        words::get(self.areas.tables.area, RANGES + RANGE_ROW * range + 2) as usize
    }

    // The end of the members of a range.
    fn member_end(&self, range: usize) -> usize
        requires { range < (counts_in self.now).ranges }
        ensures { EndOfMembers self.now.areas.marks.now range (counts_in self.now).parts result }
    {
        words::get(self.areas.tables.area, RANGES + RANGE_ROW * range + 3) as usize
    }

    // The next member behind part i.
    fn next_member(&self, range: usize, i: usize) -> usize
        requires { (range < (counts_in self.now).ranges) × (i < (counts_in self.now).parts) }
        ensures { NextMember self.now.areas.marks.now range (i + 1) (counts_in self.now).parts result }
    {
        let parts = self.areas.tables.counts.parts;
        let end = self.member_end(range);
        if end <= i + 1 {
            return parts;
        }
        let next = self.areas.as_marks().next(range, i + 1, end);
        if next < end { next } else { parts }
    }

    // The first member of a range from part i on, which is one of its name; or a part before it.
    fn member_from(&self, range: usize, i: usize) -> usize
        requires { (range < (counts_in self.now).ranges) × (i ≤ (counts_in self.now).parts) }
        ensures { NextMember self.now.areas.marks.now range i (counts_in self.now).parts result }
    {
        if self.areas.tables.counts.parts <= i {
            return i;
        }
        if self.areas.as_marks().marked(range, i) {
            return i;
        }
        self.next_member(range, i)
    }

    // The first non-matching part of a range, or the number of parts.
    fn first_non_matching(&self, range: usize) -> usize
        requires { range < (counts_in self.now).ranges }
        ensures { FirstNonMatching (counts_in self.now).parts (tables (counts_in self.now) (bytes_in self.now)) self.now.areas.marks.now range result }
    {
        words::get(self.areas.tables.area, RANGES + RANGE_ROW * range + 1) as usize
    }

    // The first favoured part of a name from `from` on, or a part before it.
    fn favoured_from(&self, name: u16, from: usize) -> usize
        requires { from ≤ (counts_in self.now).parts }
        ensures { Skips (counts_in self.now).parts (favoured_of (counts_in self.now) (bytes_in self.now) name) from result }
    {
        let counts = self.areas.tables.counts;
        let name = name as usize;
        if counts.names <= name {
            return from;
        }
        let end = words::get(self.areas.tables.area, NAME_ROW * name + 5) as usize;
        if end <= from {
            return counts.parts;
        }
        let first = words::get(self.areas.tables.area, NAME_ROW * name + 4) as usize;
        if counts.parts <= first {
            return counts.parts;
        }
        from.max(first)
    }

    // The first of them, or a part before it.
    pub fn first_chosen(&self, range: usize, choice: Choice) -> usize
        ensures { Skips (counts_in self.now).parts (chosen (catalogue_in self.now) range choice) 0 result }
    {
        if range < self.areas.tables.counts.ranges {
            match choice {
                Choice::NonMatching => self.first_non_matching(range),
                Choice::Favoured => self.favoured_from(self.areas.tables.range_name(range), 0),
                Choice::Matching => self.first_member(range),
                Choice::Others => self.first_member(range),
            }
        } else {
            0
        }
    }

    // The next member of a range behind part i, or a part before it: most often it is the next part of the name.
    fn next_of_name(&self, range: usize, i: usize) -> usize
        requires { (range < (counts_in self.now).ranges) × (i < (counts_in self.now).parts) }
        ensures { Skips (counts_in self.now).parts (chosen (catalogue_in self.now) range Matching) (i + 1) result }
    {
        let next = self.next_part(self.areas.tables.range_name(range), i);
        self.member_from(range, next)
    }

    // The next part outside a range behind part i, or a part before it: the next part of its name.
    pub fn next_outside(&self, range: usize, i: usize) -> usize
        requires { (range < (counts_in self.now).ranges) × (i < (counts_in self.now).parts) }
        ensures { Skips (counts_in self.now).parts (chosen (catalogue_in self.now) range NonMatching) (i + 1) result }
    {
        self.next_part(self.areas.tables.range_name(range), i)
    }

    // The next one behind part i, or a part before it.
    pub fn next_chosen(&self, range: usize, choice: Choice, i: usize) -> usize
        requires { i < (counts_in self.now).parts }
        ensures { Skips (counts_in self.now).parts (chosen (catalogue_in self.now) range choice) (i + 1) result }
    {
        if range < self.areas.tables.counts.ranges {
            match choice {
                Choice::NonMatching => self.next_outside(range, i),
                Choice::Favoured => self.favoured_from(self.areas.tables.range_name(range), i + 1),
                Choice::Matching => self.next_of_name(range, i),
                Choice::Others => self.next_of_name(range, i),
            }
        } else {
            i + 1
        }
    }

    // ---- how many there are

    // How many are chosen, or `most` if there are more; none is before part `first`.
    fn count(&self, range: usize, choice: Choice, first: usize, most: usize) -> usize
        requires { Skips (counts_in self.now).parts (chosen (catalogue_in self.now) range choice) 0 first }
        ensures { CountedTo most result (lists.choice (catalogue_in self.now) range choice) }
    {
        let mut n = 0;
        let mut p = first;
        while p < self.areas.tables.counts.parts {
            if self.areas.chosen(range, choice, p) {
                n += 1;
            }
            if n >= most {
                return most;
            }
            p = self.next_chosen(range, choice, p);
        }
        n
    }

    // How many matching parts a range has, or `most` if it has more.
    pub fn matching_count(&self, range: usize, most: usize) -> usize
        ensures { CountedTo most result (matching (catalogue_in self.now) range) }
    {
        let first = self.first_chosen(range, Choice::Matching);
        if first < self.areas.tables.counts.parts {
            return self.count(range, Choice::Matching, first, most);
        }
        0
    }

    // How many non-matching parts.
    pub fn non_matching_count(&self, range: usize) -> usize
        ensures { Counted result (non_matching (catalogue_in self.now) range) }
    {
        let first = self.first_chosen(range, Choice::NonMatching);
        self.count(range, Choice::NonMatching, first, 1024)
    }

    // Has a range a non-matching part? Its row tells.
    pub fn has_non_matching(&self, range: usize) -> bool
        requires { range < (counts_in self.now).ranges }
        ensures { result ≡ ltb 0 (length (non_matching (catalogue_in self.now) range)) }
    {
        self.first_non_matching(range) < self.areas.tables.counts.parts
    }
}

impl<'a> Catalogue<'a> {
    // Its conditions.
    pub fn conditions(&self) -> Conditions<'a>
        ensures { result.tables ≡ self.now.index.areas.tables }
    {
        Conditions {
            tables: self.index.areas.tables,
        }
    }
}
