// Variables by origin, after variable_map.rs: rows of the origins in order, and for each origin a slot with its variable and one more.
#![tactic(auto)]

ghost use Rattle.std.specs.Prelude.{◌≡◌, true, ◌+◌, ◌*◌, ◌<◌, ◌≤◌, length, get_or};
ghost use Rattle.rules.specs.Lists.{snoc};
ghost use Rattle.rules.specs.Catalogue.{root};
ghost use Rattle.rules.specs.Variables.{chosen};
ghost use Rattle.rules.specs.State as rules;
ghost use Rattle.state.specs.Layout.{held, Fits};
ghost use Rattle.state.specs.Changed.{Blank};
ghost use Rattle.variable_map.specs.Mapping.{origin_by, origin_of, slot_of, in_tables, variables, found, Mapped, Free, Rowed, Grown, Naming};

use requirement::Requirement;
use state::{Limits, Region};

// What a variable stands for: the root, a part, a bit of a name's helpers, one-of-name, the violation of a range, the gate of a range or a union.
#[derive(Clone, Copy)]
pub enum Origin {
    Root,
    Part(u16),
    Forbid { name: u16, bit: u16 },
    One(u16),
    Violation(u16),
    Gate(Requirement),
}

// How many variables there are, and which of them was named.
#[derive(Clone, Copy)]
pub struct Named {
    pub count: usize,
    pub variable: u16,
}

impl Origin {
    // Its row: a kind, a number and a bit.
    #[tactic(auto, unfolding(crate::specs::Mapping::origin_by, requirement::specs::Requirements::goal_of))]
    fn row(self) -> [u16; 3]
        ensures { origin_by (get_or result 0 0) (get_or result 1 0) (get_or result 2 0) ≡ origin_of self }
    {
        match self {
            Origin::Root => [0, 0, 0],
            Origin::Part(part) => [1, part, 0],
            Origin::Forbid { name, bit } => [2, name, bit],
            Origin::One(name) => [3, name, 0],
            Origin::Violation(range) => [4, range, 0],
            Origin::Gate(Requirement::Single(range)) => [5, range, 0],
            Origin::Gate(Requirement::Union(union)) => [6, union, 0],
        }
    }

    #[tactic(auto, unfolding(crate::specs::Mapping::origin_by, requirement::specs::Requirements::goal_of))]
    fn from_row(kind: u16, number: u16, bit: u16) -> Self
        ensures { origin_of result ≡ origin_by kind number bit }
    {
        match kind {
            0 => Origin::Root,
            1 => Origin::Part(number),
            2 => Origin::Forbid { name: number, bit },
            3 => Origin::One(number),
            4 => Origin::Violation(number),
            5 => Origin::Gate(Requirement::Single(number)),
            _ => Origin::Gate(Requirement::Union(number)),
        }
    }

    #[tactic(auto, unfolding(crate::specs::Mapping::slot_of, requirement::specs::Requirements::goal_of))]
    pub fn slot(self) -> usize
        ensures { result ≡ slot_of (origin_of self) }
    {
        match self {
            Origin::Root => 0,
            Origin::Part(part) => 1 + part as usize,
            Origin::Forbid { name, bit } => 2241 + 10 * name as usize + bit as usize,
            Origin::One(name) => 1025 + name as usize,
            Origin::Violation(range) => 1089 + range as usize,
            Origin::Gate(Requirement::Single(range)) => 1601 + range as usize,
            Origin::Gate(Requirement::Union(union)) => 2113 + union as usize,
        }
    }
}

// The variable of an origin, if it has one.
pub fn variable(s: &[u8], l: Limits, n: usize, o: Origin) -> Option<u16>
    requires fits { Fits l (length s.now) }
    requires mapped { Mapped l n (held l s.now) }
    requires o_value { in_tables (origin_of o) ≡ true }
    ensures { result ≡ found (variables n (held l s.now)) (origin_of o) }
{
    state::get(s, l, Region::Slots, o.slot()).checked_sub(1)
}

// The origin of variable v; past the variables, the root.
#[tactic(auto, using(crate::proofs::Laws::origin_in_law, crate::proofs::Laws::origin_past))]
pub fn origin_at(s: &[u8], l: Limits, n: usize, v: usize) -> Origin
    requires fits { Fits l (length s.now) }
    requires n_le_variables { n ≤ l.variables }
    ensures { origin_of result ≡ get_or (variables n (held l s.now)) v (chosen root) }
{
    if v < n {
        let kind = state::get(s, l, Region::Variables, 3 * v);
        let number = state::get(s, l, Region::Variables, 3 * v + 1);
        let bit = state::get(s, l, Region::Variables, 3 * v + 2);
        Origin::from_row(kind, number, bit)
    } else {
        Origin::Root
    }
}

// One row more.
fn push_row(s: &mut [u8], l: Limits, n: usize, o: Origin)
    requires fits { Fits l (length s.old) }
    requires n_lt_variables { n < l.variables }
    ensures { Rowed n (origin_of o) (held l s.old) (held l s.new) }
{
    let [kind, number, bit] = o.row();
    state::set(s, l, Region::Variables, 3 * n, kind);
    state::set(s, l, Region::Variables, 3 * n + 1, number);
    state::set(s, l, Region::Variables, 3 * n + 2, bit);
}

// A variable for an origin that has none.
pub fn push(s: &mut [u8], l: Limits, n: usize, o: Origin) -> usize
    requires fits { Fits l (length s.old) }
    requires free { Free l n (origin_of o) (held l s.old) }
    ensures { Grown l result (snoc (variables n (held l s.old)) (origin_of o)) (held l s.old) (held l s.new) }
{
    push_row(s, l, n, o);
    state::set(s, l, Region::Slots, o.slot(), n as u16 + 1);
    n + 1
}

// The variable of an origin, made if it has none; none where there is no room.
pub fn name(s: &mut [u8], l: Limits, n: usize, o: Origin) -> Option<Named>
    requires fits { Fits l (length s.old) }
    requires mapped { Mapped l n (held l s.old) }
    requires o_value { in_tables (origin_of o) ≡ true }
    ensures { Naming l n (origin_of o) (held l s.old) (held l s.new) result }
{
    if let Some(variable) = variable(s, l, n, o) {
        return Some(Named { count: n, variable });
    }
    if n < l.variables {
        let count = push(s, l, n, o);
        return Some(Named {
            count,
            variable: n as u16,
        });
    }
    None
}

// The root's variable, in an area whose slots are all 0.
pub fn start(s: &mut [u8], l: Limits) -> usize
    requires fits { Fits l (length s.old) }
    requires blank { Blank 0 (held l s.old) }
    requires variables_nonzero { 0 < l.variables }
    ensures { Grown l result (rules.start).variables (held l s.old) (held l s.new) }
{
    push(s, l, 0, Origin::Root)
}
