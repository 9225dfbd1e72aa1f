// Which disjuncts of a condition hold: the conditions that it comes of are worked out one by one, each once, and a range is asked once.
#![tactic(auto)]

ghost use Rattle.std.specs.Prelude.{◌≡◌, ◌+◌, ◌*◌, ◌<◌, ◌≤◌, length, get_or, take};
ghost use Rattle.rules.specs.Conditions.{disjuncts};
ghost use Rattle.encoder.specs.Does.{IsMapped, IsTracked};
ghost use Rattle.goals.specs.Goals.{truth_of};
ghost use Rattle.judging.specs.declared.Verdict.{Verdict};
ghost use Rattle.judging.specs.Judging.{verdict_of, both, says_holds, row_of, Nothing, Pairs, Either, AsksRange, RangeAsked, Asks, WorkedOut, Flags, Judged};
ghost use Rattle.index.specs.Views.{catalogue_of, counts_of, tables_of, bytes_of};

use encoder::State;
use index::Catalogue;
use tables::Condition;

// ---- verdicts

// Whether a range or a disjunct holds, once that is worked out. It has one byte, where an Option<bool> has two: all verdicts are cleared
// for each condition that is judged.
#[derive(Clone, Copy, PartialEq, Eq)]
enum Verdict {
    Unknown,
    Holds,
    Fails,
}

impl From<bool> for Verdict {
    ghost from_gives = { λ holds verdict. verdict ≡ verdict_of holds };

    fn from(holds: bool) -> Verdict {
        if holds {
            Verdict::Holds
        } else {
            Verdict::Fails
        }
    }
}

impl Verdict {
    // The verdict of two disjuncts together.
    fn and(self, other: Verdict) -> Verdict
        ensures { result ≡ both self other }
    {
        match self {
            Verdict::Unknown | Verdict::Holds => other,
            Verdict::Fails => Verdict::Fails,
        }
    }

    // Does it say so?
    fn holds(self) -> bool
        ensures { result ≡ says_holds self }
    {
        matches!(self, Verdict::Holds)
    }
}

// The verdicts of a condition's disjuncts: that of a range alone.
fn leaf_row(v: Verdict) -> [Verdict; 64]
    ensures { get_or result 0 Verdict.Unknown ≡ v }
{
    let mut row = [Verdict::Unknown; 64];
    row[0] = v;
    row
}

// Those of an `and`: that of each disjunct of the left half together with each of the right half's.
fn and_row(left: &[Verdict], right: &[Verdict]) -> [Verdict; 64]
    requires { length left.now * length right.now ≤ 64 }
    ensures { Pairs left.now right.now result }
{
    let mut row = [Verdict::Unknown; 64];
    for (i, v) in left.iter().enumerate() {
        for (j, w) in right.iter().enumerate() {
            row[i * right.len() + j] = v.and(*w);
        }
    }
    row
}

// Those of an `or`: the left half's, and behind them the right half's.
fn or_row(left: &[Verdict], right: &[Verdict]) -> [Verdict; 64]
    requires { length left.now + length right.now ≤ 64 }
    ensures { Either left.now right.now result }
{
    let mut row = [Verdict::Unknown; 64];
    for (i, v) in left.iter().enumerate() {
        row[i] = *v;
    }
    for (j, w) in right.iter().enumerate() {
        row[left.len() + j] = *w;
    }
    row
}

// What is known: the verdicts of each condition's disjuncts, and of each range.
#[derive(Drop)]
struct Known {
    disjuncts: [[Verdict; 64]; 256],
    ranges: [Verdict; 512],
}

impl Known {
    // Nothing was worked out.
    fn nothing() -> Known
        ensures { Nothing result }
    {
        Known {
            disjuncts: [[Verdict::Unknown; 64]; 256],
            ranges: [Verdict::Unknown; 512],
        }
    }

    // The verdict of range r. It is asked once.
    fn range(&mut self, catalogue: &Catalogue, state: &State, r: usize) -> Verdict
        requires { AsksRange (counts_of catalogue.now) catalogue.now.index.areas.marks.now catalogue.now.index.areas.unions.now (bytes_of catalogue.now) state.now self.old r }
        ensures { RangeAsked (catalogue_of catalogue.now) (tables_of catalogue.now).conditions (truth_of state.now) r result self.old self.new }
    {
        match self.ranges[r] {
            Verdict::Unknown => {
                let v = Verdict::from(goals::range_holds(catalogue, &state.assignment(), r));
                self.ranges[r] = v;
                v
            }
            v => v,
        }
    }

    // The verdicts of condition x.
    fn row(&self, catalogue: &Catalogue, x: u16) -> &[Verdict]
        requires { x < (counts_of catalogue.now).conditions }
        ensures count { length result.now ≡ length (disjuncts (tables_of catalogue.now).conditions x) }
        ensures verdicts { result.now ≡ take (length (disjuncts (tables_of catalogue.now).conditions x)) (row_of self.now x) }
    {
        let count = catalogue.conditions().count(x as usize);
        &self.disjuncts[x as usize][..count]
    }

    // Condition x is worked out, unless it was: after its halves, which have smaller numbers.
    fn work_out(&mut self, catalogue: &Catalogue, state: &State, x: usize)
        requires { Asks (counts_of catalogue.now) catalogue.now.index.areas.marks.now catalogue.now.index.areas.unions.now (bytes_of catalogue.now) state.now self.old x }
        ensures { WorkedOut (catalogue_of catalogue.now) (tables_of catalogue.now).conditions (truth_of state.now) x self.old self.new }
    {
        if self.disjuncts[x][0] != Verdict::Unknown {
            return;
        }
        match catalogue.index.areas.tables.condition_at(x) {
            Condition::Range(range) => {
                let v = self.range(catalogue, state, range as usize);
                self.disjuncts[x] = leaf_row(v);
            }
            Condition::And { left, right } => {
                self.work_out(catalogue, state, left as usize);
                self.work_out(catalogue, state, right as usize);
                self.disjuncts[x] = and_row(self.row(catalogue, left), self.row(catalogue, right));
            }
            Condition::Or { left, right } => {
                self.work_out(catalogue, state, left as usize);
                self.work_out(catalogue, state, right as usize);
                self.disjuncts[x] = or_row(self.row(catalogue, left), self.row(catalogue, right));
            }
        }
    }
}

// ---- which disjuncts hold

// Of each verdict of a row, whether it says that the disjunct holds.
fn flags_of(row: &[Verdict; 64]) -> [bool; 64]
    ensures { Flags row.now result }
{
    let mut flags = [false; 64];
    for (i, v) in row.iter().enumerate() {
        flags[i] = v.holds();
    }
    flags
}

// Which disjuncts of condition c hold. Each condition that it comes of is worked out once, and each range asked once.
fn each_holding(catalogue: &Catalogue, state: &State, c: usize) -> [bool; 64]
    requires mapped { IsMapped state.now × IsTracked state.now }
    requires c_lt_conditions { c < (counts_of catalogue.now).conditions }
    ensures { Judged (catalogue_of catalogue.now) (truth_of state.now) (disjuncts (tables_of catalogue.now).conditions c) result }
{
    let mut known = Known::nothing();
    known.work_out(catalogue, state, c);
    flags_of(&known.disjuncts[c])
}

// Which disjuncts of condition c hold. Where there is one alone no verdicts are kept.
pub fn holding(catalogue: &Catalogue, state: &State, c: usize) -> [bool; 64]
    requires mapped { IsMapped state.now × IsTracked state.now }
    requires c_lt_conditions { c < (counts_of catalogue.now).conditions }
    ensures { Judged (catalogue_of catalogue.now) (truth_of state.now) (disjuncts (tables_of catalogue.now).conditions c) result }
{
    if catalogue.conditions().count(c) == 1 {
        let mut flags = [false; 64];
        flags[0] = goals::disjunct_holds(catalogue, state, c, 0);
        return flags;
    }
    each_holding(catalogue, state, c)
}
