// The clause store, after mod.rs: new clauses are written behind those already stored.
#![tactic(auto)]

ghost use Rattle.std.specs.Prelude.{◌≡◌, ◌∷◌, [], ◌+◌, ◌*◌, ◌<◌, ◌≤◌, length, get_or};
ghost use Rattle.std.proofs.lemmas.List.Edits.{sets};
ghost use Rattle.rules.specs.Lists.{snoc};
ghost use Rattle.words.specs.Words.{words};
ghost use Rattle.solver.specs.Rows.{no_row, row_of, row_numbers, rows};
ghost use Rattle.solver.specs.Clauses.{run_number, run_by, pair_row, clause_row, literal_count, Says};

use clause::Literal;
use requirement::Requirement;

// A clause, after clause.rs: the variables that it speaks of, and the part, the condition literals by their place and number, or the goal.
#[derive(Clone, Copy)]
pub enum Clause {
    Install,
    Requires {
        owner: u16,
        start: u16,
        count: u16,
        goal: Requirement,
    },
    // A gate's own requires.
    Gated {
        gate: u16,
        goal: Requirement,
    },
    Excluded {
        variable: u16,
        part: u16,
    },
    // Excluded for unknown dependencies.
    Unknown {
        variable: u16,
        part: u16,
    },
    Constrains {
        owner: u16,
        variable: u16,
    },
    Forbid {
        variable: u16,
        helper: Literal,
    },
    AuxOut {
        variable: u16,
        violation: u16,
    },
    AuxOwner {
        owner: u16,
        violation: u16,
    },
    Lock(u16),
    AnyGate {
        gate: u16,
        owner: u16,
    },
    AnyOne {
        one: u16,
        variable: u16,
    },
}

// A clause as it is stored: its kind, up to two variables or a literal, its condition literals' place and number, its goal, and the run in which it
// was a conflict, or 0.
#[derive(Clone, Copy)]
pub struct Stored {
    pub kind: u16,
    pub first: u16,
    pub second: u16,
    pub start: u16,
    pub count: u16,
    pub form: u16,
    pub number: u16,
    pub conflict: u16,
}

// A row with no literals and no goal.
#[tactic(auto, unfolding(crate::specs::Rows::row_of))]
fn pair(kind: u16, first: u16, second: u16, conflict: u16) -> Stored
    ensures { row_of result ≡ pair_row kind first second conflict }
{
    Stored {
        kind,
        first,
        second,
        start: 0,
        count: 0,
        form: 0,
        number: 0,
        conflict,
    }
}

impl Clause {
    // Its row, with the run in which it was a conflict.
    #[tactic(auto, unfolding(crate::specs::Rows::row_of, crate::specs::Clauses::clause_row))]
    pub fn row(self, conflict: Option<u16>) -> Stored
        ensures { row_of result ≡ clause_row self (run_number conflict) }
    {
        let run = conflict.unwrap_or(0);
        match self {
            Clause::Install => pair(0, 0, 0, run),
            Clause::Requires {
                owner,
                start,
                count,
                goal,
            } => Stored {
                kind: 1,
                first: owner,
                second: 0,
                start,
                count,
                form: goal.form(),
                number: goal.number(),
                conflict: run,
            },
            Clause::Gated { gate, goal } => Stored {
                kind: 2,
                first: gate,
                second: 0,
                start: 0,
                count: 0,
                form: goal.form(),
                number: goal.number(),
                conflict: run,
            },
            Clause::Excluded { variable, part } => pair(3, variable, part, run),
            Clause::Unknown { variable, part } => pair(4, variable, part, run),
            Clause::Constrains { owner, variable } => pair(5, owner, variable, run),
            Clause::Forbid { variable, helper } => pair(6, variable, helper.code, run),
            Clause::AuxOut {
                variable,
                violation,
            } => pair(7, variable, violation, run),
            Clause::AuxOwner { owner, violation } => pair(8, owner, violation, run),
            Clause::Lock(variable) => pair(9, variable, 0, run),
            Clause::AnyGate { gate, owner } => pair(10, gate, owner, run),
            Clause::AnyOne { one, variable } => pair(11, one, variable, run),
        }
    }

    // How many condition literals it has.
    #[tactic(auto, unfolding(crate::specs::Clauses::literal_count, crate::specs::Clauses::clause_row))]
    pub fn condition_literals(self) -> u16
        ensures { result ≡ literal_count self }
    {
        match self {
            Clause::Requires { count, .. } => count,
            _ => 0,
        }
    }
}

impl Stored {
    // The clause of the row.
    #[tactic(auto, unfolding(crate::specs::Rows::row_of, crate::specs::Clauses::clause_row, crate::specs::Clauses::plain))]
    pub fn clause(self) -> Clause
        ensures { Says result (row_of self) }
    {
        let first = self.first;
        let second = self.second;
        match self.kind {
            0 => Clause::Install,
            1 => Clause::Requires {
                owner: first,
                start: self.start,
                count: self.count,
                goal: Requirement::from_parts(self.form, self.number),
            },
            2 => Clause::Gated {
                gate: first,
                goal: Requirement::from_parts(self.form, self.number),
            },
            3 => Clause::Excluded {
                variable: first,
                part: second,
            },
            4 => Clause::Unknown {
                variable: first,
                part: second,
            },
            5 => Clause::Constrains {
                owner: first,
                variable: second,
            },
            6 => Clause::Forbid {
                variable: first,
                helper: Literal { code: second },
            },
            7 => Clause::AuxOut {
                variable: first,
                violation: second,
            },
            8 => Clause::AuxOwner {
                owner: first,
                violation: second,
            },
            9 => Clause::Lock(first),
            10 => Clause::AnyGate {
                gate: first,
                owner: second,
            },
            _ => Clause::AnyOne {
                one: first,
                variable: second,
            },
        }
    }

    // The run in which it was a conflict.
    pub fn conflict(self) -> Option<u16>
        ensures { result ≡ run_by self.conflict }
    {
        (self.conflict != 0).then_some(self.conflict)
    }
}

// Four numbers, from number `at` on.
#[tactic(auto, using(crate::proofs::Laws::four_written))]
pub fn write_four(dst: &mut [u8], at: usize, a: u16, b: u16, c: u16, d: u16)
    requires { (at < 65536) × (at * 2 + 8 ≤ length dst.old) }
    ensures { words dst.new ≡ sets (words dst.old) at (a ∷ b ∷ c ∷ d ∷ []) }
{
    words::put(dst, at, a);
    words::put(dst, at + 1, b);
    words::put(dst, at + 2, c);
    words::put(dst, at + 3, d);
}

// Writes a row at the start of what is lent.
#[tactic(auto, using(crate::proofs::Laws::row_written))]
pub fn write_row(dst: &mut [u8], row: Stored)
    requires { 20 ≤ length dst.old }
    ensures { words dst.new ≡ sets (words dst.old) 0 (row_numbers row) }
{
    write_four(dst, 0, row.kind, row.first, row.second, row.start);
    write_four(dst, 4, row.count, row.form, row.number, row.conflict);
}

// A row behind the n that are stored.
#[tactic(auto, using(crate::proofs::Laws::appended))]
pub fn append(clauses: &mut [u8], n: usize, row: Stored) -> usize
    requires { (n < 16384) × (n * 20 + 20 ≤ length clauses.old) }
    ensures value { result ≡ n + 1 }
    ensures clauses_after { rows result clauses.new ≡ snoc (rows n clauses.old) (row_of row) }
{
    let used = n * 20;
    write_row(&mut clauses[used..], row);
    n + 1
}

// Row i.
#[tactic(auto, using(crate::proofs::Laws::row_is))]
pub fn row_at(clauses: &[u8], n: usize, i: usize) -> Stored
    requires { (n ≤ 16384) × (n * 20 ≤ length clauses.now) × (i < n) }
    ensures { row_of result ≡ get_or (rows n clauses.now) i no_row }
{
    let at = i * 10;
    let kind = words::get(clauses, at);
    let first = words::get(clauses, at + 1);
    let second = words::get(clauses, at + 2);
    let start = words::get(clauses, at + 3);
    let count = words::get(clauses, at + 4);
    let form = words::get(clauses, at + 5);
    let number = words::get(clauses, at + 6);
    let conflict = words::get(clauses, at + 7);
    Stored {
        kind,
        first,
        second,
        start,
        count,
        form,
        number,
        conflict,
    }
}
