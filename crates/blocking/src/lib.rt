// Whether a disjunct of a condition holds; and conditions that are blocked: as long as no watched part is decided true, none of their disjuncts holds.
#![tactic(auto)]

ghost use Rattle.std.specs.Prelude.{◌≡◌, ◌%◌, ◌<◌, ◌≤◌};
ghost use Rattle.marks.specs.Marks.{WithBit};
ghost use Rattle.encoder.specs.Assignments.{Maps, Tracks};
ghost use Rattle.goals.specs.Goals.{truth_in};
ghost use Rattle.blocking.specs.Blocking.{PartsWatched, Blocks, range_blocked, RangeBars, NothingAsked, RangeJudged, of_or, KeptVerdict, Judged, ReleasesRange, ReleasesClass, ReleasesWatched, Releases, NothingListed, shared_of, Listed, AllStand, names_blocked, shared_bars, AskedBars, Named, Row, RowBars, DisjunctBars, EachBars, NothingBlocked};
ghost use Rattle.conditions.specs.Disjuncts.{conditions_of};
ghost use Rattle.index.specs.Views.{catalogue_of, counts_of, tables_of};

use cache::Choice;
use conditions::{Conditions, Disjunct};
use encoder::Assignment;
use index::Catalogue;
use marks::Marks;
use tables::Condition;

// ---- watched parts: range r is of class r % 16, and bit j of what stands at a part tells whether it is watched for a range of class j

// What stands at a part, where v stood, that is watched for range r besides.
fn besides(v: u16, r: usize) -> u16
    ensures { WithBit (r % 16) v result }
{
    v | 1 << (r % 16)
}

// The matching parts of range r are watched: `most` of them at most. Are all of them?
fn watch_parts(catalogue: &Catalogue, r: usize, watched: &mut [u16; 1024], most: usize) -> bool
    requires r_lt_ranges { r < (counts_of catalogue.now).ranges }
    ensures { PartsWatched (catalogue_of catalogue.now) r result watched.old watched.new }
{
    let mut left = most;
    let mut p = catalogue.index.first_chosen(r, Choice::Matching);
    while p < catalogue.index.areas.tables.counts.parts {
        if left == 0 {
            return false;
        }
        left -= 1;
        if catalogue.index.areas.chosen(r, Choice::Matching, p) {
            watched[p] = besides(watched[p], r);
        }
        p = catalogue.index.next_chosen(r, Choice::Matching, p);
    }
    true
}

// ---- the disjuncts of a condition

// Two ranges, if they are known, that each disjunct of a condition has.
#[derive(Clone, Copy)]
pub struct Shared {
    pub first: Option<u16>,
    pub second: Option<u16>,
}

// The condition that was judged last by its halves, and how often again in a row.
#[derive(Clone, Copy)]
pub struct Streak {
    pub condition: u16,
    pub times: u16,
}

// What is known of conditions whatever is decided: the disjuncts of one that was often judged, if one is listed, and of each what its disjuncts share.
// The latter is looked for once a condition was judged.
#[derive(Drop)]
pub struct Listing {
    pub listed: Option<u16>,
    pub disjuncts: [Disjunct; 64],
    pub judged: Option<Streak>,
    pub shared: [Shared; 256],
}

impl Listing {
    // Nothing is listed.
    pub fn new() -> Listing
        ensures { NothingListed result }
    {
        Listing {
            listed: None,
            disjuncts: [Disjunct::new(); 64],
            judged: None,
            shared: [Shared {
                first: None,
                second: None,
            }; 256],
        }
    }

    // Condition c is listed.
    fn list_condition(&mut self, conditions: &Conditions, c: usize)
        requires c_lt_conditions { c < conditions.now.tables.counts.conditions }
        requires listed { Listed (conditions_of conditions.now) self.old }
        ensures { Listed (conditions_of conditions.now) self.new }
    {
        self.listed = None;
        for i in 0..conditions.count(c) {
            self.disjuncts[i] = conditions.disjunct_of(c, i);
        }
        self.listed = Some(c as u16);
    }

    // What the disjuncts of condition x share: its range, or what those of its halves share if it is an `and`.
    fn note_shared(&mut self, conditions: &Conditions, x: usize)
        requires x_lt_conditions { x < conditions.now.tables.counts.conditions }
        requires listed { Listed (conditions_of conditions.now) self.old }
        ensures { Listed (conditions_of conditions.now) self.new }
    {
        match conditions.tables.condition_at(x) {
            Condition::Range(range) => {
                if range < 512 {
                    self.shared[x] = Shared {
                        first: Some(range),
                        second: None,
                    };
                }
            }
            Condition::And { left, right } => {
                let first = self.shared[left as usize].first;
                let second = self.shared[right as usize].first;
                self.shared[x] = Shared { first, second };
            }
            Condition::Or { .. } => {}
        }
    }

    // That of all conditions.
    fn note_all_shared(&mut self, conditions: &Conditions)
        requires listed { Listed (conditions_of conditions.now) self.old }
        ensures { Listed (conditions_of conditions.now) self.new }
    {
        for x in 0..conditions.tables.counts.conditions {
            self.note_shared(conditions, x);
        }
    }

    // Condition c was judged by its halves. The first time ranges that are shared are looked for. The 32nd time again in a row it is listed: that takes as
    // long as many a draw.
    fn note_judged(&mut self, conditions: &Conditions, c: usize)
        requires c_lt_conditions { c < conditions.now.tables.counts.conditions }
        requires listed { Listed (conditions_of conditions.now) self.old }
        ensures { Listed (conditions_of conditions.now) self.new }
    {
        let condition = c as u16;
        let times = match self.judged {
            Some(judged) if judged.condition == condition && judged.times < 31 => judged.times + 1,
            Some(judged) if judged.condition == condition => {
                if self.listed != Some(condition) {
                    self.list_condition(conditions, c);
                }
                0
            }
            Some(_) => 0,
            None => {
                self.note_all_shared(conditions);
                0
            }
        };
        self.judged = Some(Streak { condition, times });
    }
}

// ---- verdicts

// Whether a range or a condition holds, once it was asked. A range is barred if it is blocked, and a condition if each disjunct has a blocked range.
// It has one byte, where an Option has two: all verdicts are cleared for each draw that is judged.
#[derive(Clone, Copy, PartialEq, Eq)]
pub enum Verdict {
    Unasked,
    Holds,
    Barred,
    Fails,
}

impl Verdict {
    // The verdict of an `or` whose left half does not hold: that of the right one. But it is barred only if both are.
    fn or(self, second: Verdict) -> Verdict
        ensures { result ≡ of_or self second }
    {
        match second {
            Verdict::Barred => self,
            Verdict::Unasked | Verdict::Holds | Verdict::Fails => second,
        }
    }
}

// What was asked. Of a range that is barred, what is blocked alone says so.
#[derive(Drop)]
struct Known {
    conditions: [Verdict; 256],
    ranges: [Verdict; 512],
}

impl Known {
    // Nothing was.
    fn nothing() -> Known
        ensures { NothingAsked result }
    {
        Known {
            conditions: [Verdict::Unasked; 256],
            ranges: [Verdict::Unasked; 512],
        }
    }

    // The verdict of condition x is kept.
    fn keep(&mut self, x: usize, verdict: Verdict) -> Verdict
        requires { x < 256 }
        ensures verdict { result ≡ verdict }
        ensures kept { KeptVerdict x verdict self.old self.new }
    {
        self.conditions[x] = verdict;
        verdict
    }
}

// ---- what is blocked

// Whether a range is blocked, or has too many matching parts to be watched.
#[derive(Clone, Copy, PartialEq, Eq)]
pub enum Barrier {
    Open,
    Blocked,
    TooWide,
}

// The conditions and ranges that are blocked, and the parts that are watched for them.
#[derive(Drop)]
pub struct Blocking {
    pub conditions: [bool; 256],
    pub ranges: [Barrier; 512],
    pub watched: [u16; 1024],
}

impl Blocking {
    // Nothing is blocked or watched.
    pub fn new() -> Blocking
        ensures { NothingBlocked result }
    {
        Blocking {
            conditions: [false; 256],
            ranges: [Barrier::Open; 512],
            watched: [0; 1024],
        }
    }

    // ---- a range

    // Is range r blocked?
    #[tactic(auto, unfolding(crate::specs::Blocking::range_blocked))]
    fn range_blocked(&self, r: usize) -> bool
        requires { r < 512 }
        ensures { result ≡ range_blocked self.now r }
    {
        matches!(self.ranges[r], Barrier::Blocked)
    }

    // Is range r blocked, which does not hold? It is from now on if it has 64 matching parts at most.
    fn bar_range(&mut self, catalogue: &Catalogue, r: usize) -> bool
        requires r_lt_ranges { r < (counts_of catalogue.now).ranges }
        ensures { RangeBars (catalogue_of catalogue.now) r result self.old self.new }
    {
        match self.ranges[r] {
            Barrier::Blocked => true,
            Barrier::TooWide => false,
            Barrier::Open => {
                if !watch_parts(catalogue, r, &mut self.watched, 64) {
                    self.ranges[r] = Barrier::TooWide;
                    return false;
                }
                self.ranges[r] = Barrier::Blocked;
                true
            }
        }
    }

    // The verdict of range r. It is asked once, and blocked if it does not hold and that can be watched.
    fn range_verdict(
        &mut self,
        catalogue: &Catalogue,
        assignment: &Assignment,
        known: &mut Known,
        r: usize,
    ) -> Verdict
        requires sees { Maps assignment.now × Tracks assignment.now }
        requires r_lt_ranges { r < (counts_of catalogue.now).ranges }
        ensures { RangeJudged (catalogue_of catalogue.now) (truth_in assignment.now) r result known.old self.old known.new self.new }
    {
        if self.range_blocked(r) {
            return Verdict::Barred;
        }
        match known.ranges[r] {
            Verdict::Unasked => {
                if goals::range_holds(catalogue, assignment, r) {
                    known.ranges[r] = Verdict::Holds;
                    return Verdict::Holds;
                }
                if self.bar_range(catalogue, r) {
                    return Verdict::Barred;
                }
                known.ranges[r] = Verdict::Fails;
                Verdict::Fails
            }
            verdict => verdict,
        }
    }

    // ---- a condition by its halves

    // The verdict of condition x. Its halves have smaller numbers; the right one is asked only where the left one leaves it open.
    fn condition_verdict(
        &mut self,
        catalogue: &Catalogue,
        assignment: &Assignment,
        known: &mut Known,
        x: usize,
    ) -> Verdict
        requires sees { Maps assignment.now × Tracks assignment.now }
        requires x_lt_conditions { x < (counts_of catalogue.now).conditions }
        ensures { Judged (catalogue_of catalogue.now) (truth_in assignment.now) x result known.old self.old known.new self.new }
    {
        let verdict = known.conditions[x];
        if verdict != Verdict::Unasked {
            return verdict;
        }
        match catalogue.index.areas.tables.condition_at(x) {
            Condition::Range(range) => {
                self.range_verdict(catalogue, assignment, known, range as usize)
            }
            Condition::And { left, right } => {
                let first = self.condition_verdict(catalogue, assignment, known, left as usize);
                if first != Verdict::Holds {
                    return known.keep(x, first);
                }
                let second = self.condition_verdict(catalogue, assignment, known, right as usize);
                known.keep(x, second)
            }
            Condition::Or { left, right } => {
                let first = self.condition_verdict(catalogue, assignment, known, left as usize);
                if first == Verdict::Holds {
                    return known.keep(x, first);
                }
                let second = self.condition_verdict(catalogue, assignment, known, right as usize);
                known.keep(x, first.or(second))
            }
        }
    }

    // ---- a condition by the ranges that its disjuncts share

    // Is this range, if there is one, blocked?
    fn names_blocked(&self, range: Option<u16>) -> bool
        requires { Named 512 range }
        ensures { result ≡ names_blocked self.now range }
    {
        match range {
            Some(r) => self.range_blocked(r as usize),
            None => false,
        }
    }

    // Is a range that the disjuncts of condition x share?
    #[tactic(auto, unfolding(crate::specs::Blocking::shared_bars))]
    pub fn shared_bars(&self, listing: &Listing, x: usize) -> bool
        requires { (x < 256) × Named 512 (shared_of listing.now x).first × Named 512 (shared_of listing.now x).second }
        ensures { result ≡ shared_bars listing.now self.now x }
    {
        let shared = listing.shared[x];
        self.names_blocked(shared.first) || self.names_blocked(shared.second)
    }

    // This range, if there is one, is asked: is it blocked, because it does not hold?
    fn bar_shared(
        &mut self,
        catalogue: &Catalogue,
        assignment: &Assignment,
        range: Option<u16>,
    ) -> bool
        requires sees { Maps assignment.now × Tracks assignment.now }
        ensures { AskedBars (catalogue_of catalogue.now) (truth_in assignment.now) range result self.old self.new }
    {
        let Some(range) = range else {
            return false;
        };
        let r = range as usize;
        if r >= catalogue.index.areas.tables.counts.ranges {
            return false;
        }
        if goals::range_holds(catalogue, assignment, r) {
            return false;
        }
        self.bar_range(catalogue, r)
    }

    // Does no disjunct of condition c hold, because one of the ranges that they share does not?
    pub fn blocks_by_shared(
        &mut self,
        catalogue: &Catalogue,
        assignment: &Assignment,
        c: usize,
        listing: &Listing,
    ) -> bool
        requires sees { Maps assignment.now × Tracks assignment.now }
        requires c_bound { c < 256 }
        requires listed { Listed (tables_of catalogue.now).conditions listing.now }
        ensures { Blocks (catalogue_of catalogue.now) (truth_in assignment.now) c result self.old self.new }
    {
        let shared = listing.shared[c];
        self.bar_shared(catalogue, assignment, shared.first)
            || self.bar_shared(catalogue, assignment, shared.second)
    }

    // ---- a condition by its list

    // Is some range of the disjunct blocked?
    fn some_barred(&self, disjunct: &Disjunct) -> bool
        requires { Row 512 disjunct.now }
        ensures { RowBars disjunct.now self.now result }
    {
        for r in disjunct.ranges() {
            if self.range_blocked(*r as usize) {
                return true;
            }
        }
        false
    }

    // The ranges of the disjunct are asked until one is blocked; whether one is.
    fn bar_some(
        &mut self,
        catalogue: &Catalogue,
        assignment: &Assignment,
        known: &mut Known,
        disjunct: &Disjunct,
    ) -> bool
        requires sees { Maps assignment.now × Tracks assignment.now }
        requires row { Row (counts_of catalogue.now).ranges disjunct.now }
        ensures { DisjunctBars (catalogue_of catalogue.now) (truth_in assignment.now) disjunct.now result known.old self.old known.new self.new }
    {
        for r in disjunct.ranges() {
            let verdict = self.range_verdict(catalogue, assignment, known, *r as usize);
            if verdict == Verdict::Barred {
                return true;
            }
        }
        false
    }

    // Has the disjunct a blocked range? One that has none gets one, if it can.
    fn bar_disjunct(
        &mut self,
        catalogue: &Catalogue,
        assignment: &Assignment,
        known: &mut Known,
        disjunct: &Disjunct,
    ) -> bool
        requires sees { Maps assignment.now × Tracks assignment.now }
        requires row { Row (counts_of catalogue.now).ranges disjunct.now }
        ensures { DisjunctBars (catalogue_of catalogue.now) (truth_in assignment.now) disjunct.now result known.old self.old known.new self.new }
    {
        self.some_barred(disjunct) || self.bar_some(catalogue, assignment, known, disjunct)
    }

    // Has each disjunct of condition c, which is listed, a blocked range?
    fn each_barred(
        &mut self,
        catalogue: &Catalogue,
        assignment: &Assignment,
        c: usize,
        known: &mut Known,
        listing: &Listing,
    ) -> bool
        requires sees { Maps assignment.now × Tracks assignment.now }
        requires c_lt_conditions { c < (counts_of catalogue.now).conditions }
        requires all_stand { AllStand (tables_of catalogue.now).conditions listing.now c }
        ensures { EachBars (catalogue_of catalogue.now) (truth_in assignment.now) c result known.old self.old known.new self.new }
    {
        for i in 0..catalogue.conditions().count(c) {
            if !self.bar_disjunct(catalogue, assignment, known, &listing.disjuncts[i]) {
                return false;
            }
        }
        true
    }

    // The same, of any condition: it is not known of one that is not listed.
    fn barred_by_list(
        &mut self,
        catalogue: &Catalogue,
        assignment: &Assignment,
        c: usize,
        known: &mut Known,
        listing: &Listing,
    ) -> bool
        requires sees { Maps assignment.now × Tracks assignment.now }
        requires c_lt_conditions { c < (counts_of catalogue.now).conditions }
        requires listed { Listed (tables_of catalogue.now).conditions listing.now }
        ensures { EachBars (catalogue_of catalogue.now) (truth_in assignment.now) c result known.old self.old known.new self.new }
    {
        match listing.listed {
            Some(listed) if listed as usize == c => {
                self.each_barred(catalogue, assignment, c, known, listing)
            }
            _ => false,
        }
    }

    // ---- a condition

    // Does no disjunct of condition c hold? It is judged by its list or by its halves, and blocked if it is barred.
    pub fn blocks(
        &mut self,
        catalogue: &Catalogue,
        assignment: &Assignment,
        c: usize,
        listing: &mut Listing,
    ) -> bool
        requires sees { Maps assignment.now × Tracks assignment.now }
        requires c_lt_conditions { c < (counts_of catalogue.now).conditions }
        requires listed { Listed (tables_of catalogue.now).conditions listing.old }
        ensures blocks { Blocks (catalogue_of catalogue.now) (truth_in assignment.now) c result self.old self.new }
        ensures listed_2 { Listed (tables_of catalogue.now).conditions listing.new }
    {
        if self.conditions[c] {
            return true;
        }
        let mut known = Known::nothing();
        if self.barred_by_list(catalogue, assignment, c, &mut known, listing) {
            self.conditions[c] = true;
            return true;
        }
        let verdict = self.condition_verdict(catalogue, assignment, &mut known, c);
        if verdict == Verdict::Barred {
            self.conditions[c] = true;
            listing.note_judged(&catalogue.conditions(), c);
            return true;
        }
        verdict != Verdict::Holds
    }

    // ---- part p is decided true

    // Range r is not blocked any more if p is a member of it.
    fn release_range(&mut self, marks: &Marks, p: usize, r: usize)
        requires { r < 512 }
        ensures { ReleasesRange marks.now.area.now p r self.old self.new }
    {
        if self.range_blocked(r) && marks.marked(r, p) {
            self.ranges[r] = Barrier::Open;
        }
    }

    // The same of every range of class j: j, j + 16, j + 32 and so on.
    fn release_class(&mut self, marks: &Marks, ranges: usize, p: usize, j: usize)
        requires { ranges ≤ 512 }
        ensures { ReleasesClass ranges marks.now.area.now p j self.old self.new }
    {
        for r in (j..ranges).step_by(16) {
            self.release_range(marks, p, r);
        }
    }

    // The same of every class whose bit is set in v: a turn of the loop takes the lowest one away.
    fn release_watched(&mut self, marks: &Marks, ranges: usize, p: usize, v: u16)
        requires { ranges ≤ 512 }
        ensures { ReleasesWatched ranges marks.now.area.now p v self.old self.new }
    {
        let mut rest = v;
        while rest != 0 {
            let j = u16::trailing_zeros(rest) as usize;
            self.release_class(marks, ranges, p, j);
            rest &= rest - 1;
        }
    }

    // Part p is decided true. If it is watched, no condition is blocked any more, and no range that p is watched for; p is not watched any more. What else is
    // blocked or watched stays so. Past the parts none is watched.
    pub fn release(&mut self, marks: &Marks, ranges: usize, p: usize)
        requires { ranges ≤ 512 }
        ensures { Releases ranges marks.now.area.now p self.old self.new }
    {
        if p >= 1024 || self.watched[p] == 0 {
            return;
        }
        self.conditions = [false; 256];
        self.release_watched(marks, ranges, p, self.watched[p]);
        self.watched[p] = 0;
    }
}
