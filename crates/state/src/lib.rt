// The state area of a run: its regions, with reading and storing of one number.
#![tactic(auto)]

ghost use Rattle.std.specs.Prelude.{◌≡◌, ◌+◌, ◌*◌, ◌<◌, ◌≤◌, length, get_or};
ghost use Rattle.regions.specs.Regions.{start_of, size_of, stored};
ghost use Rattle.state.specs.Changed.{Zeroed, Cleared};
ghost use Rattle.state.specs.Layout.{region_number, sizes, held, Fits};

use regions::Part;

// The four limits of a job.
#[derive(Clone, Copy, Debug, PartialEq, Eq)]
pub struct Limits {
    pub variables: usize,
    pub clauses: usize,
    pub literals: usize,
    pub waiting: usize,
}

// The regions of the area, in order.
#[derive(Clone, Copy)]
pub enum Region {
    // Variable of each origin, and one more; 0 for none.
    Slots,
    // Opened owners, in order.
    Owners,
    // 1 for an opened owner.
    OwnerMarks,
    // Opened names, in order.
    Names,
    // 1 for an opened name.
    NameMarks,
    // Names served with several allowed, in order.
    Several,
    // Owners added since the last run.
    Added,
    // 1 for an added owner.
    AddedMarks,
    // Parts named in this run, in order.
    Named,
    // 1 for a named part.
    NamedMarks,
    // Tracked parts, in order of joining.
    Tracked,
    // 1 for a tracked part.
    TrackedMarks,
    // Number of tracked parts of each name.
    TrackedCounts,
    // Reserved for the fired disjuncts of each requirement, a bit each: nothing reads or writes it.
    Fired,
    // Distinct candidates of the goal at hand.
    Candidates,
    // 1 for a range that was walked.
    RangeMarks,
    // Three numbers a variable: kind, number, bit.
    Variables,
    // 0 undecided, 1 false, 2 true.
    Values,
    // Four numbers a decision: variable, value, level, clause and one more.
    Decisions,
    // Condition literals.
    Literals,
    // The task line.
    Line,
}

// Where a region starts, and how many numbers it has.
#[tactic(auto, unfolding(regions::specs::Regions::start_of, regions::specs::Regions::size_of, rules::specs::Lists::sum, crate::specs::Layout::sizes))]
pub fn part(l: Limits, region: Region) -> Part
    requires { (l.variables ≤ 4096) × (l.literals ≤ 8192) × (l.waiting ≤ 2048) }
    ensures start { result.start ≡ start_of (sizes l) (region_number region) }
    ensures within { result.start + result.size ≤ 20614 + 8 * l.variables + l.literals + l.waiting }
    ensures size { result.size ≡ size_of (sizes l) (region_number region) }
{
    let (start, size) = match region {
        Region::Slots => (0, 2881),
        Region::Owners => (2881, 1025),
        Region::OwnerMarks => (3906, 1025),
        Region::Names => (4931, 64),
        Region::NameMarks => (4995, 64),
        Region::Several => (5059, 64),
        Region::Added => (5123, 1025),
        Region::AddedMarks => (6148, 1025),
        Region::Named => (7173, 1024),
        Region::NamedMarks => (8197, 1024),
        Region::Tracked => (9221, 1024),
        Region::TrackedMarks => (10245, 1024),
        Region::TrackedCounts => (11269, 64),
        Region::Fired => (11333, 4096),
        Region::Candidates => (15429, 1024),
        Region::RangeMarks => (16453, 512),
        Region::Variables => (16965, 3 * l.variables),
        Region::Values => (16965 + 3 * l.variables, l.variables),
        Region::Decisions => (16965 + 4 * l.variables, 4 * l.variables),
        Region::Literals => (16965 + 8 * l.variables, l.literals),
        Region::Line => (16965 + 8 * l.variables + l.literals, 3649 + l.waiting),
    };
    Part { start, size }
}

// The number at place i of a region, and 0 past its end.
#[tactic(auto, using(crate::proofs::Laws::got))]
pub fn get(s: &[u8], l: Limits, region: Region, i: usize) -> u16
    requires { Fits l (length s.now) }
    ensures { result ≡ get_or (held l s.now (region_number region)) i 0 }
{
    part(l, region).at(s, i)
}

// Stores v at place i of a region, and nothing past its end.
#[tactic(auto, using(crate::proofs::Laws::put_in_region))]
pub fn set(s: &mut [u8], l: Limits, region: Region, i: usize, v: u16)
    requires { Fits l (length s.old) }
    ensures { held l s.new ≡ stored (held l s.old) (region_number region) i v }
{
    part(l, region).put(s, i, v);
}

// The regions from `from` on, up to `to`, become 0.
#[tactic(auto, using(crate::proofs::Laws::span_rises, crate::proofs::Changed::regions_zeroed))]
fn clear_regions(s: &mut [u8], l: Limits, from: Region, to: Region)
    requires { Fits l (length s.old) × (region_number from < region_number to) }
    ensures { Zeroed (region_number from) (region_number to) (held l s.old) (held l s.new) }
{
    words::clear_part(s, part(l, from).start, part(l, to).start);
}

// The regions that are read before they are written become 0, and some between them.
#[tactic(auto, using(crate::proofs::Changed::cleared))]
pub fn clear(s: &mut [u8], l: Limits)
    requires { Fits l (length s.old) }
    ensures { Cleared (held l s.new) }
{
    clear_regions(s, l, Region::Slots, Region::Fired);
    clear_regions(s, l, Region::RangeMarks, Region::Variables);
    clear_regions(s, l, Region::Values, Region::Decisions);
}
