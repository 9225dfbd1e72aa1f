// Conditions as disjuncts of ranges, after conditions.rs: how many disjuncts a condition has, how long they are, and any one of them.
// Nothing is stored but sizes: disjunct i is worked out when it is asked for.
#![tactic(auto)]

ghost use Rattle.std.specs.Prelude.{◌≡◌, [], ◌∷◌, ◌+◌, ◌<◌, ◌≤◌, length, get_or};
ghost use Rattle.rules.specs.Lists.{snoc};
ghost use Rattle.rules.specs.Conditions.{disjuncts};
ghost use Rattle.tables.specs.Tables.{size_is, condition_is};
ghost use Rattle.tables.specs.Views.{tables_of};
ghost use Rattle.conditions.specs.Sizes.{size_of, Earlier, Sized, HasSize, Counted};
ghost use Rattle.conditions.specs.Props.{sized_prop};

use tables::{Condition, Size, Tables};

// A disjunct: its first `len` ranges must all hold.
#[derive(Clone, Copy)]
pub struct Disjunct {
    pub ranges: [u16; 16],
    pub len: usize,
    pub ghost bounded: { len ≤ 16 },
}

impl Disjunct {
    ghost use Rattle.conditions.specs.Disjuncts.{ranges_of, Appended};

    // No range yet.
    pub fn new() -> Disjunct
        ensures { (ranges_of result ≡ []) × (result.len ≡ 0) }
    {
        Disjunct {
            ranges: [0; 16],
            len: 0,
        }
    }

    pub fn ranges(&self) -> &[u16]
        ensures { result.now ≡ ranges_of self.now }
    {
        &self.ranges[..self.len]
    }

    // One range more.
    fn push(&mut self, range: u16)
        requires { self.old.len < 16 }
        ensures { Appended self.old (range ∷ []) self.new }
    {
        self.ranges[self.len] = range;
        self.len += 1;
    }
}

// Where a disjunct comes from: it is one range, or a disjunct of one half, or one of each.
#[derive(Clone, Copy)]
pub enum Source {
    Range(u16),
    Half {
        condition: usize,
        index: usize,
    },
    Halves {
        left: usize,
        first: usize,
        right: usize,
        second: usize,
    },
}

// The conditions in tables whose sizes are right.
#[derive(Clone, Copy)]
pub struct Conditions<'a> {
    pub tables: Tables<'a>,
    pub ghost sized: { Sized (tables_of tables) } by { sized_prop (tables_of tables) },
}

impl Conditions<'_> {
    ghost use Rattle.conditions.specs.Disjuncts.{Carries, Appended, From, conditions_of};

    // ---- sizes

    // The size of a condition.
    fn size(&self, condition: usize) -> Size
        requires { condition < self.now.tables.counts.conditions }
        ensures { HasSize (conditions_of self.now) condition result }
    {
        self.tables.condition_size(condition)
    }

    // How many disjuncts a condition has.
    pub fn count(&self, condition: usize) -> usize
        requires { condition < self.now.tables.counts.conditions }
        ensures { Counted (conditions_of self.now) condition result }
    {
        self.size(condition).count as usize
    }

    // The size of a condition that would be the next one.
    pub fn next_size(&self, next: Condition) -> Size
        requires { Earlier self.now.tables.counts.conditions (condition_is next) }
        ensures { size_is result ≡ size_of (disjuncts (snoc (conditions_of self.now) (condition_is next)) (length (conditions_of self.now))) }
    {
        match next {
            Condition::Range(_) => Size {
                count: 1,
                longest: 1,
            },
            Condition::And { left, right } => {
                let left = self.size(left as usize);
                let right = self.size(right as usize);
                Size {
                    count: left.count * right.count,
                    longest: left.longest + right.longest,
                }
            },
            Condition::Or { left, right } => {
                let left = self.size(left as usize);
                let right = self.size(right as usize);
                Size {
                    count: left.count + right.count,
                    longest: left.longest.max(right.longest),
                }
            },
        }
    }

    // ---- disjuncts

    // Disjunct i of a condition: an `or` has those of its left half and then those of its right one, an `and` all those of its right half
    // behind each of its left one.
    pub fn source_of(&self, condition: usize, i: usize) -> Source
        requires given { condition < self.now.tables.counts.conditions }
        requires there { i < length (disjuncts (conditions_of self.now) condition) }
        ensures { From (conditions_of self.now) condition i result }
    {
        match self.tables.condition_at(condition) {
            Condition::Range(range) => Source::Range(range),
            Condition::And { left, right } => {
                let count = self.count(right as usize);
                Source::Halves {
                    left: left as usize,
                    first: i / count,
                    right: right as usize,
                    second: i % count,
                }
            },
            Condition::Or { left, right } => {
                let count = self.count(left as usize);
                if i < count {
                    Source::Half {
                        condition: left as usize,
                        index: i,
                    }
                } else {
                    Source::Half {
                        condition: right as usize,
                        index: i - count,
                    }
                }
            },
        }
    }

    // Where the disjunct comes from, past the halves of an `or`.
    fn source_past_or(&self, condition: usize, i: usize) -> Source
        requires given { condition < self.now.tables.counts.conditions }
        requires there { i < length (disjuncts (conditions_of self.now) condition) }
        ensures { From (conditions_of self.now) condition i result }
    {
        let mut source = self.source_of(condition, i);
        while let Source::Half { condition, index } = source {
            source = self.source_of(condition, index);
        }
        source
    }

    // The ranges of the disjunct behind those of d. A half has a smaller number, so the number falls at each call.
    pub fn push_disjunct(&self, condition: usize, i: usize, d: &mut Disjunct)
        requires given { condition < self.now.tables.counts.conditions }
        requires there { i < length (disjuncts (conditions_of self.now) condition) }
        requires room { d.old.len + length (get_or (disjuncts (conditions_of self.now) condition) i []) ≤ 16 }
        ensures { Appended d.old (get_or (disjuncts (conditions_of self.now) condition) i []) d.new }
    {
        match self.source_past_or(condition, i) {
            Source::Range(range) => d.push(range),
            Source::Half { condition, index } => self.push_disjunct(condition, index, d),
            Source::Halves {
                left,
                first,
                right,
                second,
            } => {
                self.push_disjunct(left, first, d);
                self.push_disjunct(right, second, d);
            },
        }
    }

    // The disjunct itself.
    pub fn disjunct_of(&self, condition: usize, i: usize) -> Disjunct
        requires given { condition < self.now.tables.counts.conditions }
        requires there { i < length (disjuncts (conditions_of self.now) condition) }
        ensures { Carries result (get_or (disjuncts (conditions_of self.now) condition) i []) }
    {
        let mut d = Disjunct::new();
        self.push_disjunct(condition, i, &mut d);
        d
    }
}
