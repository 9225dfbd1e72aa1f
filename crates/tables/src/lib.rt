// The catalogue's tables in one lent area of bytes: reading a row, and writing one row more.
// A number past a table's end reads as nothing, as in the definitions.
#![tactic(auto)]

ghost use Rattle.std.specs.Prelude.{◌≡◌, ◌+◌, ◌*◌, ◌/◌, ◌%◌, ◌<◌, ◌≤◌, eqb, length, get_or, set, false};
ghost use Rattle.rules.specs.AtMostOne.{bit};
ghost use Rattle.rules.specs.Catalogue.{no_part, no_condition, no_requirement, no_constraint};
ghost use Rattle.rules.specs.Items.{part_of};
ghost use Rattle.words.specs.Words.{words};
ghost use Rattle.requirement.specs.Requirements.{requirement_is};
ghost use Rattle.tables.specs.Tables.{
  tables,
  condition_is,
  condition_from,
  size_is,
  no_size,
  constraint_is,
  stored_requirement,
  stored_constraint,
  flag_of,
  reason_of,
  power_of,
  with_name,
  with_part,
  with_range,
  with_union,
  with_condition,
  with_requirement,
  with_constraint,
  Laid,
  Added,
};

use requirement::{ConditionalRequirement, Owner, Requirement, condition_number, condition_of};

// Where each table begins in the area, and how many numbers a row of it has.
const NAME_ROW: usize = 6;

const PARTS: usize = 384;

const PART_ROW: usize = 5;

const RANGES: usize = 9604;

const RANGE_ROW: usize = 4;

const CONDITIONS: usize = 12036;

const CONDITION_ROW: usize = 6;

const REQUIREMENTS: usize = 13572;

const REQUIREMENT_ROW: usize = 6;

const CONSTRAINTS: usize = 19716;

const CONSTRAINT_ROW: usize = 3;

// How many of each thing a catalogue has given; `members` counts union members.
#[derive(Clone, Copy)]
pub struct Counts {
    pub names: usize,
    pub parts: usize,
    pub ranges: usize,
    pub unions: usize,
    pub members: usize,
    pub conditions: usize,
    pub requirements: usize,
    pub constraints: usize,
}

// What a part may be.
#[derive(Clone, Copy)]
pub enum Flag {
    Ready,
    Unknown,
    Locked,
    Favoured,
    Excluded,
}

impl Flag {
    // The bit of the flag in the number that holds all of a part's.
    pub fn power(self) -> u16
        ensures { result ≡ power_of self }
    {
        match self {
            Flag::Ready => 1,
            Flag::Unknown => 2,
            Flag::Locked => 4,
            Flag::Favoured => 8,
            Flag::Excluded => 16,
        }
    }
}

// Why a part is unknown, or excluded.
#[derive(Clone, Copy)]
pub enum Reason {
    Unknown,
    Exclusion,
}

// A range, or two conditions of which both must hold, or one.
#[derive(Clone, Copy)]
pub enum Condition {
    Range(u16),
    And { left: u16, right: u16 },
    Or { left: u16, right: u16 },
}

impl Condition {
    // Its numbers in the table: an operator and two halves, or 2 and a range.
    fn from_numbers(operator: u16, left: u16, right: u16) -> Condition
        ensures { condition_is result ≡ condition_from operator left right }
    {
        match operator {
            0 => Condition::And { left, right },
            2 => Condition::Range(left),
            _ => Condition::Or { left, right },
        }
    }

    fn numbers(self) -> [u16; 3]
        ensures { condition_from (get_or result 0 0) (get_or result 1 0) (get_or result 2 0) ≡ condition_is self }
    {
        match self {
            Condition::Range(range) => [2, range, 0],
            Condition::And { left, right } => [0, left, right],
            Condition::Or { left, right } => [1, left, right],
        }
    }
}

// Of a condition: how many disjuncts it has, and how many ranges the longest of them.
#[derive(Clone, Copy)]
pub struct Size {
    pub count: u16,
    pub longest: u16,
}

#[derive(Clone, Copy)]
pub struct Constraint {
    pub owner: Owner,
    pub range: u16,
}

// The bit that stands for `power`, one of 1, 2, 4, 8 and so on.
pub fn has_bit(x: u16, power: u16) -> bool
    requires { 0 < power }
    ensures { result ≡ eqb (x / power % 2) 1 }
{
    x / power % 2 == 1
}

// ---- reading

// The tables in a lent area that is long enough for them.
#[derive(Clone, Copy)]
pub struct Tables<'a> {
    pub area: &'a [u8],
    pub counts: Counts,
    pub ghost laid: { Laid counts (length area.now) },
}

impl Tables<'_> {
    ghost use Rattle.tables.specs.Views.{tables_of};

    pub fn several_allowed(&self, name: usize) -> bool
        ensures { result ≡ get_or (tables_of self.now).names name false }
    {
        name < self.counts.names && has_bit(words::get(self.area, NAME_ROW * name), 1)
    }

    pub fn part_name(&self, part: usize) -> u16
        ensures { result ≡ (get_or (tables_of self.now).parts part no_part).name }
    {
        if part < self.counts.parts {
            words::get(self.area, PARTS + PART_ROW * part)
        } else {
            0
        }
    }

    pub fn has(&self, flag: Flag, part: usize) -> bool
        ensures { result ≡ flag_of flag (get_or (tables_of self.now).parts part no_part) }
    {
        if part < self.counts.parts {
            has_bit(
                words::get(self.area, PARTS + PART_ROW * part + 1),
                flag.power(),
            )
        } else {
            false
        }
    }

    pub fn reason(&self, why: Reason, part: usize) -> u16
        ensures { result ≡ reason_of why (get_or (tables_of self.now).parts part no_part) }
    {
        if part < self.counts.parts {
            let at = PARTS + PART_ROW * part;
            match why {
                Reason::Unknown => words::get(self.area, at + 2),
                Reason::Exclusion => words::get(self.area, at + 3),
            }
        } else {
            0
        }
    }

    pub fn range_name(&self, range: usize) -> u16
        ensures { result ≡ get_or (tables_of self.now).ranges range 0 }
    {
        if range < self.counts.ranges {
            words::get(self.area, RANGES + RANGE_ROW * range)
        } else {
            0
        }
    }

    pub fn condition_at(&self, condition: usize) -> Condition
        ensures { condition_is result ≡ get_or (tables_of self.now).conditions condition no_condition }
    {
        if condition < self.counts.conditions {
            let at = CONDITIONS + CONDITION_ROW * condition;
            let left = words::get(self.area, at + 1);
            let right = words::get(self.area, at + 2);
            Condition::from_numbers(words::get(self.area, at), left, right)
        } else {
            Condition::Range(0)
        }
    }

    pub fn condition_size(&self, condition: usize) -> Size
        ensures { size_is result ≡ get_or (tables_of self.now).sizes condition no_size }
    {
        if condition < self.counts.conditions {
            let at = CONDITIONS + CONDITION_ROW * condition;
            let count = words::get(self.area, at + 3);
            let longest = words::get(self.area, at + 4);
            Size { count, longest }
        } else {
            Size {
                count: 0,
                longest: 0,
            }
        }
    }

    pub fn requirement_at(&self, requirement: usize) -> ConditionalRequirement
        ensures { requirement_is result ≡ get_or (tables_of self.now).requirements requirement no_requirement }
    {
        if requirement < self.counts.requirements {
            let at = REQUIREMENTS + REQUIREMENT_ROW * requirement;
            let owner = Owner::from(words::get(self.area, at));
            let form = words::get(self.area, at + 1);
            let number = words::get(self.area, at + 2);
            let condition = condition_of(words::get(self.area, at + 3));
            ConditionalRequirement {
                owner,
                requirement: Requirement::from_parts(form, number),
                condition,
            }
        } else {
            ConditionalRequirement {
                owner: Owner::Root,
                requirement: Requirement::Single(0),
                condition: None,
            }
        }
    }

    pub fn constraint_at(&self, constraint: usize) -> Constraint
        ensures { constraint_is result ≡ get_or (tables_of self.now).constraints constraint no_constraint }
    {
        if constraint < self.counts.constraints {
            let at = CONSTRAINTS + CONSTRAINT_ROW * constraint;
            let owner = Owner::from(words::get(self.area, at));
            let range = words::get(self.area, at + 1);
            Constraint { owner, range }
        } else {
            Constraint {
                owner: Owner::Root,
                range: 0,
            }
        }
    }

    // The counts with a union more, which has no row of its own.
    pub fn with_union(&self) -> Counts
        requires unions_bound { self.now.counts.unions < 128 }
        ensures { Added self.now.counts result self.now.area.now (with_union (tables_of self.now)) }
    {
        Counts {
            unions: self.counts.unions + 1,
            ..self.counts
        }
    }
}

// ---- one thing more

// The tables in a lent area, to be written.
#[derive(Drop)]
pub struct TablesMut<'a> {
    pub area: &'a mut [u8],
    pub counts: Counts,
    pub ghost laid: { Laid counts (length area.now) },
}

impl TablesMut<'_> {
    ghost use Rattle.tables.specs.Views.{tables_mut_of, AddedTo};

    // The same tables, to be read.
    pub fn as_tables(&self) -> Tables<'_>
        ensures counts { result.counts ≡ self.now.counts }
        ensures area { result.area.now ≡ self.now.area.now }
    {
        Tables {
            area: self.area,
            counts: self.counts,
        }
    }

    pub fn push_name(&mut self, flags: u8)
        requires names_bound { self.old.counts.names < 64 }
        ensures added { AddedTo self.old self.new (with_name (tables_mut_of self.old) (bit 0 flags)) }
        ensures same_area { self.new.area.ghost_name ≡ self.old.area.ghost_name }
    {
        words::put(self.area, NAME_ROW * self.counts.names, flags as u16);
        self.counts.names += 1;
    }

    pub fn push_part(&mut self, name: u16, flags: u8, unknown: u16, exclusion: u16)
        requires parts_bound { self.old.counts.parts < 1024 }
        ensures added { AddedTo self.old self.new (with_part (tables_mut_of self.old) (part_of name flags unknown exclusion)) }
        ensures same_area { self.new.area.ghost_name ≡ self.old.area.ghost_name }
    {
        let at = PARTS + PART_ROW * self.counts.parts;
        words::put(self.area, at, name);
        words::put(self.area, at + 1, flags as u16);
        words::put(self.area, at + 2, unknown);
        words::put(self.area, at + 3, exclusion);
        self.counts.parts += 1;
    }

    pub fn push_range(&mut self, name: u16)
        requires ranges_bound { self.old.counts.ranges < 512 }
        ensures added { AddedTo self.old self.new (with_range (tables_mut_of self.old) name) }
        ensures same_area { self.new.area.ghost_name ≡ self.old.area.ghost_name }
    {
        words::put(self.area, RANGES + RANGE_ROW * self.counts.ranges, name);
        self.counts.ranges += 1;
    }

    // Inlined, so that the counts stay in registers while a catalogue is read.
    #[inline(always)]
    pub fn push_condition(&mut self, condition: Condition, size: Size)
        requires conditions_bound { self.old.counts.conditions < 256 }
        ensures added { AddedTo self.old self.new (with_condition (tables_mut_of self.old) (condition_is condition) (size_is size)) }
        ensures same_area { self.new.area.ghost_name ≡ self.old.area.ghost_name }
    {
        let at = CONDITIONS + CONDITION_ROW * self.counts.conditions;
        let [operator, left, right] = condition.numbers();
        words::put(self.area, at, operator);
        words::put(self.area, at + 1, left);
        words::put(self.area, at + 2, right);
        words::put(self.area, at + 3, size.count);
        words::put(self.area, at + 4, size.longest);
        self.counts.conditions += 1;
    }

    // Inlined, so that the counts stay in registers while a catalogue is read.
    #[inline(always)]
    pub fn push_requirement(&mut self, requirement: ConditionalRequirement)
        requires requirements_bound { self.old.counts.requirements < 1024 }
        ensures added { AddedTo self.old self.new (with_requirement (tables_mut_of self.old) (stored_requirement requirement)) }
        ensures same_area { self.new.area.ghost_name ≡ self.old.area.ghost_name }
    {
        let at = REQUIREMENTS + REQUIREMENT_ROW * self.counts.requirements;
        let goal = requirement.requirement;
        words::put(self.area, at, requirement.owner.into());
        words::put(self.area, at + 1, goal.form());
        words::put(self.area, at + 2, goal.number());
        words::put(self.area, at + 3, condition_number(requirement.condition));
        self.counts.requirements += 1;
    }

    pub fn push_constraint(&mut self, constraint: Constraint)
        requires constraints_bound { self.old.counts.constraints < 512 }
        ensures added { AddedTo self.old self.new (with_constraint (tables_mut_of self.old) (stored_constraint constraint)) }
        ensures same_area { self.new.area.ghost_name ≡ self.old.area.ghost_name }
    {
        let at = CONSTRAINTS + CONSTRAINT_ROW * self.counts.constraints;
        words::put(self.area, at, constraint.owner.into());
        words::put(self.area, at + 1, constraint.range);
        self.counts.constraints += 1;
    }
}
