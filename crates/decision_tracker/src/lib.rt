// Decisions, after decision.rs and decision_tracker.rs: rows of the decisions, oldest first, and the value of each variable.
#![tactic(auto)]

ghost use Rattle.std.specs.Prelude.{◌≡◌, ◌+◌, ◌*◌, ◌<◌, ◌≤◌, length, get_or, IfSome};
ghost use Rattle.rules.specs.Lists.{snoc};
ghost use Rattle.rules.specs.Literal.{pos};
ghost use Rattle.rules.specs.Decisions.{evaluate, is_true, is_false, is_falsified, last_level, up_to_level};
ghost use Rattle.rules.proofs.Levels.{Rising};
ghost use Rattle.clause.specs.Literals.{literal_of};
ghost use Rattle.state.specs.Layout.{held, Fits};
ghost use Rattle.decision_tracker.specs.Tracking.{no_decision, clause_number, decision_of, decisions, seen, number_of, Kept, Free, Rowed, Told, Dropped};

use clause::Literal;
use state::{Limits, Region};

// A variable's value, the level, and the number of the clause that forced it, or none where the sheet decided.
#[derive(Clone, Copy)]
pub struct Decision {
    pub variable: u16,
    pub value: bool,
    pub level: u16,
    pub clause: Option<u16>,
}

// What the decisions say of a variable.
#[tactic(auto, using(crate::proofs::Laws::value_undecided, crate::proofs::Laws::value_false, crate::proofs::Laws::value_true))]
pub fn value(s: &[u8], l: Limits, d: usize, variable: usize) -> Option<bool>
    requires fits { Fits l (length s.now) }
    requires kept { Kept l d (held l s.now) }
    ensures { result ≡ seen (evaluate (decisions d (held l s.now)) (pos variable)) }
{
    match state::get(s, l, Region::Values, variable) {
        0 => None,
        1 => Some(false),
        _ => Some(true),
    }
}

// What the decisions say of a literal.
#[tactic(auto, using(crate::proofs::Laws::eval_is))]
pub fn eval(s: &[u8], l: Limits, d: usize, literal: Literal) -> Option<bool>
    requires fits { Fits l (length s.now) }
    requires kept { Kept l d (held l s.now) }
    ensures { result ≡ seen (evaluate (decisions d (held l s.now)) (literal_of literal)) }
{
    let variable = literal.variable();
    literal.eval(value(s, l, d, variable as usize))
}

#[tactic(auto, using(crate::proofs::Values::true_is))]
pub fn is_true(s: &[u8], l: Limits, d: usize, variable: u16) -> bool
    requires fits { Fits l (length s.now) }
    requires kept { Kept l d (held l s.now) }
    ensures { result ≡ is_true (decisions d (held l s.now)) variable }
{
    value(s, l, d, variable as usize) == Some(true)
}

#[tactic(auto, using(crate::proofs::Values::false_is))]
pub fn is_false(s: &[u8], l: Limits, d: usize, variable: u16) -> bool
    requires fits { Fits l (length s.now) }
    requires kept { Kept l d (held l s.now) }
    ensures { result ≡ is_false (decisions d (held l s.now)) variable }
{
    value(s, l, d, variable as usize) == Some(false)
}

// Is a literal decided false?
#[tactic(auto, using(crate::proofs::Values::falsified_is))]
pub fn falsified(s: &[u8], l: Limits, d: usize, literal: Literal) -> bool
    requires fits { Fits l (length s.now) }
    requires kept { Kept l d (held l s.now) }
    ensures { result ≡ is_falsified (evaluate (decisions d (held l s.now)) (literal_of literal)) }
{
    eval(s, l, d, literal) == Some(false)
}

#[tactic(auto, using(crate::proofs::Laws::decision_is))]
pub fn decision_at(s: &[u8], l: Limits, d: usize, i: usize) -> Decision
    requires fits { Fits l (length s.now) }
    requires d_le_variables { (d ≤ l.variables) × (i < d) }
    ensures { decision_of result ≡ get_or (decisions d (held l s.now)) i no_decision }
{
    let variable = state::get(s, l, Region::Decisions, 4 * i);
    let value = state::get(s, l, Region::Decisions, 4 * i + 1) == 1;
    let level = state::get(s, l, Region::Decisions, 4 * i + 2);
    let clause = state::get(s, l, Region::Decisions, 4 * i + 3).checked_sub(1);
    Decision {
        variable,
        value,
        level,
        clause,
    }
}

// The level of the last decision, or 0.
#[tactic(auto, using(crate::proofs::Laws::last_none, crate::proofs::Laws::last_is))]
pub fn last_level(s: &[u8], l: Limits, d: usize) -> u16
    requires fits { Fits l (length s.now) }
    requires d_le_variables { d ≤ l.variables }
    ensures { result ≡ last_level (decisions d (held l s.now)) }
{
    if d == 0 {
        return 0;
    }
    state::get(s, l, Region::Decisions, 4 * d - 2)
}

// A variable's value as the area has it.
#[tactic(auto, unfolding(crate::specs::Tracking::number_of))]
fn number(value: Option<bool>) -> u16
    ensures { result ≡ number_of value }
{
    match value {
        None => 0,
        Some(false) => 1,
        Some(true) => 2,
    }
}

// A clause as the area has it.
#[tactic(auto, unfolding(crate::specs::Tracking::clause_number))]
fn clause_number(clause: Option<u16>) -> u16
    requires { IfSome clause (λ i. i < 65535) }
    ensures { result ≡ clause_number clause }
{
    match clause {
        None => 0,
        Some(i) => i + 1,
    }
}

// One row more.
fn push_row(s: &mut [u8], l: Limits, d: usize, new: Decision)
    requires fits { Fits l (length s.old) }
    requires d_lt_variables { d < l.variables }
    requires clause_fits { IfSome new.clause (λ i. i < 65535) }
    ensures { Rowed d (decision_of new) (held l s.old) (held l s.new) }
{
    state::set(s, l, Region::Decisions, 4 * d, new.variable);
    state::set(s, l, Region::Decisions, 4 * d + 1, u16::from(new.value));
    state::set(s, l, Region::Decisions, 4 * d + 2, new.level);
    state::set(
        s,
        l,
        Region::Decisions,
        4 * d + 3,
        clause_number(new.clause),
    );
}

// Decides a variable that is undecided.
pub fn decide(s: &mut [u8], l: Limits, d: usize, new: Decision) -> usize
    requires fits { Fits l (length s.old) }
    requires free { Free l d new.variable (held l s.old) }
    requires clause_fits { IfSome new.clause (λ i. i < 65535) }
    ensures { Told l result (snoc (decisions d (held l s.old)) (decision_of new)) (held l s.old) (held l s.new) }
{
    push_row(s, l, d, new);
    state::set(
        s,
        l,
        Region::Values,
        new.variable as usize,
        number(Some(new.value)),
    );
    d + 1
}

// Makes the last decision's variable undecided again.
fn drop_last(s: &mut [u8], l: Limits, d: usize) -> usize
    requires fits { Fits l (length s.old) }
    requires d_nonzero { (0 < d) × (d ≤ l.variables) }
    requires kept { Kept l d (held l s.old) }
    ensures { Dropped l d result (held l s.old) (held l s.new) }
{
    let last = d - 1;
    let variable = state::get(s, l, Region::Decisions, 4 * last);
    state::set(s, l, Region::Values, variable as usize, number(None));
    last
}

// Removes the decisions above this level.
pub fn undo(s: &mut [u8], l: Limits, d: usize, level: u16) -> usize
    requires fits { Fits l (length s.old) }
    requires kept { Kept l d (held l s.old) }
    requires rising { Rising (decisions d (held l s.old)) }
    ensures { Told l result (up_to_level level (decisions d (held l s.old))) (held l s.old) (held l s.new) }
{
    let mut k = d;
    while last_level(s, l, k) > level {
        k = drop_last(s, l, k);
    }
    k
}
