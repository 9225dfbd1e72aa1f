// The encoder's state in its areas: how much of each table is used. Steps that change it stand in `opening`, `storing`, `reporting`, `setting` and the crates above them.
#![tactic(auto)]

mod state_ref;

ghost use Rattle.std.specs.Prelude.{◌≡◌, length};
ghost use Rattle.state.specs.Layout.{Fits};
ghost use Rattle.encoder.specs.Did.{filled};

use clause::Literal;
use decision_tracker::Decision;
use marked::MarkedList;
use state::Limits;
pub use state_ref::StateRef;
use variable_map::Origin;

// How much of each table is used; the tasks that the present task has queued begin at `first`. `full` is 1 if a limit would be passed, and else 0: a number
// as the others, because a byte among them leaves a hole, which makes each copy slow.
#[derive(Clone, Copy)]
pub struct Counters {
    pub variables: usize,
    pub clauses: usize,
    pub literals: usize,
    pub decisions: usize,
    pub owners: usize,
    pub names: usize,
    pub several: usize,
    pub added: usize,
    pub named: usize,
    pub tracked: usize,
    pub waiting: usize,
    pub drawn: usize,
    pub first: usize,
    pub tail: usize,
    pub runs: usize,
    pub full: usize,
}

// The state area of a run, its limits, and how much of each table is used.
#[derive(Drop)]
pub struct State<'a> {
    pub area: &'a mut [u8],
    pub limits: Limits,
    pub used: Counters,
    pub ghost fits: { Fits limits (length area.now) },
}

// A run's variables and what is decided of them: its state area, which is only read, its limits, and how many variables and decisions there are.
#[derive(Clone, Copy)]
pub struct Assignment<'a> {
    pub area: &'a [u8],
    pub limits: Limits,
    pub variables: usize,
    pub decisions: usize,
    pub ghost fits: { Fits limits (length area.now) },
}

impl State<'_> {
    ghost use Rattle.std.specs.Prelude.{true, ◌<◌, ◌≤◌, get_or};
    ghost use Rattle.rules.specs.Catalogue.{root};
    ghost use Rattle.rules.specs.Variables.{chosen};
    ghost use Rattle.rules.specs.Decisions.{evaluate, is_true, is_false, is_falsified, last_level};
    ghost use Rattle.clause.specs.Literals.{literal_of};
    ghost use Rattle.marked.specs.Marked.{marks_of, list_of, is_marked, listed};
    ghost use Rattle.variable_map.specs.Mapping.{origin_of, in_tables, found};
    ghost use Rattle.decision_tracker.specs.Tracking.{seen, decision_of, no_decision};
    ghost use Rattle.encoder.specs.Does.{regions_of, variables_of, decisions_of, IsMapped, IsTracked};
    ghost use Rattle.encoder.specs.Assignments.{AssignmentOf};

    // Its variables and what is decided of them.
    pub fn assignment(&self) -> Assignment<'_>
        ensures { AssignmentOf self.now result }
    {
        Assignment {
            area: self.area,
            limits: self.limits,
            variables: self.used.variables,
            decisions: self.used.decisions,
        }
    }

    // Does this list hold x?
    pub fn lists(&self, list: MarkedList, x: u16) -> bool
        ensures { result ≡ is_marked (marks_of list) x (regions_of self.now) }
    {
        marked::contains(self.area, self.limits, list, x)
    }

    // Place i of the n numbers that this list holds.
    pub fn listed(&self, list: MarkedList, n: usize, i: usize) -> u16
        requires { i < n }
        ensures { result ≡ get_or (listed n (list_of list) (regions_of self.now)) i 0 }
    {
        marked::at(self.area, self.limits, list, n, i)
    }

    // The variable of an origin, if it has one.
    pub fn variable(&self, origin: Origin) -> Option<u16>
        requires mapped { IsMapped self.now }
        requires origin_value { in_tables (origin_of origin) ≡ true }
        ensures { result ≡ found (variables_of self.now) (origin_of origin) }
    {
        variable_map::variable(self.area, self.limits, self.used.variables, origin)
    }

    // The origin of a variable; of a number that is none, the root.
    pub fn origin_at(&self, variable: usize) -> Origin
        requires { self.now.used.variables ≤ self.now.limits.variables }
        ensures { origin_of result ≡ get_or (variables_of self.now) variable (chosen root) }
    {
        variable_map::origin_at(self.area, self.limits, self.used.variables, variable)
    }

    // What a literal is decided, if its variable is.
    pub fn eval(&self, literal: Literal) -> Option<bool>
        requires { IsTracked self.now }
        ensures { result ≡ seen (evaluate (decisions_of self.now) (literal_of literal)) }
    {
        decision_tracker::eval(self.area, self.limits, self.used.decisions, literal)
    }

    // Is a literal decided false?
    pub fn falsified(&self, literal: Literal) -> bool
        requires { IsTracked self.now }
        ensures { result ≡ is_falsified (evaluate (decisions_of self.now) (literal_of literal)) }
    {
        decision_tracker::falsified(self.area, self.limits, self.used.decisions, literal)
    }

    pub fn is_true(&self, variable: u16) -> bool
        requires { IsTracked self.now }
        ensures { result ≡ is_true (decisions_of self.now) variable }
    {
        decision_tracker::is_true(self.area, self.limits, self.used.decisions, variable)
    }

    pub fn is_false(&self, variable: u16) -> bool
        requires { IsTracked self.now }
        ensures { result ≡ is_false (decisions_of self.now) variable }
    {
        decision_tracker::is_false(self.area, self.limits, self.used.decisions, variable)
    }

    pub fn decision_at(&self, i: usize) -> Decision
        requires { (self.now.used.decisions ≤ self.now.limits.variables) × (i < self.now.used.decisions) }
        ensures { decision_of result ≡ get_or (decisions_of self.now) i no_decision }
    {
        decision_tracker::decision_at(self.area, self.limits, self.used.decisions, i)
    }

    // The level of the last decision, or 0.
    pub fn last_level(&self) -> u16
        requires { self.now.used.decisions ≤ self.now.limits.variables }
        ensures { result ≡ last_level (decisions_of self.now) }
    {
        decision_tracker::last_level(self.area, self.limits, self.used.decisions)
    }
}

impl Assignment<'_> {
    ghost use Rattle.std.specs.Prelude.{true, ◌<◌, ◌≤◌, get_or};
    ghost use Rattle.rules.specs.Catalogue.{root};
    ghost use Rattle.rules.specs.Variables.{chosen};
    ghost use Rattle.rules.specs.Decisions.{is_true};
    ghost use Rattle.variable_map.specs.Mapping.{origin_of, in_tables, found};
    ghost use Rattle.decision_tracker.specs.Tracking.{decision_of, no_decision};
    ghost use Rattle.encoder.specs.Assignments.{variables_in, decisions_in, Maps, Tracks};

    // The variable of an origin, if it has one.
    pub fn variable(&self, origin: Origin) -> Option<u16>
        requires maps { Maps self.now }
        requires origin_value { in_tables (origin_of origin) ≡ true }
        ensures { result ≡ found (variables_in self.now) (origin_of origin) }
    {
        variable_map::variable(self.area, self.limits, self.variables, origin)
    }

    // The origin of a variable; of a number that is none, the root.
    pub fn origin_at(&self, variable: usize) -> Origin
        requires { self.now.variables ≤ self.now.limits.variables }
        ensures { origin_of result ≡ get_or (variables_in self.now) variable (chosen root) }
    {
        variable_map::origin_at(self.area, self.limits, self.variables, variable)
    }

    pub fn is_true(&self, variable: u16) -> bool
        requires { Tracks self.now }
        ensures { result ≡ is_true (decisions_in self.now) variable }
    {
        decision_tracker::is_true(self.area, self.limits, self.decisions, variable)
    }

    pub fn decision_at(&self, i: usize) -> Decision
        requires { (self.now.decisions ≤ self.now.limits.variables) × (i < self.now.decisions) }
        ensures { decision_of result ≡ get_or (decisions_in self.now) i no_decision }
    {
        decision_tracker::decision_at(self.area, self.limits, self.decisions, i)
    }
}

// A run: its number from 1, its level, and how many variables it began with.
#[derive(Clone, Copy)]
pub struct Run {
    pub number: u16,
    pub level: u16,
    pub before: usize,
}

// A limit would be passed.
pub fn filled(n: Counters) -> Counters
    ensures { result ≡ filled n }
{
    let mut m = n;
    m.full = 1;
    m
}
