// A state whose area is only read, for those who have no more than a shared area.
ghost use Rattle.std.specs.Prelude.{length};
ghost use Rattle.state.specs.Layout.{Fits};

use crate::{Counters, State};
use decision_tracker::Decision;
use marked::MarkedList;
use state::Limits;
use variable_map::Origin;

// The state area of a run, which is only read, its limits, and how much of each table is used.
#[derive(Clone, Copy)]
pub struct StateRef<'a> {
    pub area: &'a [u8],
    pub limits: Limits,
    pub used: Counters,
    pub ghost fits: { Fits limits (length area.now) },
}

impl State<'_> {
    ghost use Rattle.encoder.specs.StateRefs.{RefOf};

    // The same, its area only read.
    pub fn as_state_ref(&self) -> StateRef<'_>
        ensures { RefOf self.now result }
    {
        StateRef {
            area: self.area,
            limits: self.limits,
            used: self.used,
        }
    }
}

impl StateRef<'_> {
    ghost use Rattle.std.specs.Prelude.{◌≡◌, true, ◌<◌, ◌≤◌, get_or};
    ghost use Rattle.rules.specs.Catalogue.{root};
    ghost use Rattle.rules.specs.Variables.{chosen};
    ghost use Rattle.marked.specs.Marked.{list_of, listed};
    ghost use Rattle.variable_map.specs.Mapping.{origin_of, in_tables, found};
    ghost use Rattle.decision_tracker.specs.Tracking.{decision_of, no_decision};
    ghost use Rattle.encoder.specs.StateRefs.{regions_at, variables_at, decisions_at, IsMappedAt};

    // Place i of the n numbers that this list holds.
    pub fn listed(&self, list: MarkedList, n: usize, i: usize) -> u16
        requires { i < n }
        ensures { result ≡ get_or (listed n (list_of list) (regions_at self.now)) i 0 }
    {
        marked::at(self.area, self.limits, list, n, i)
    }

    // The variable of an origin, if it has one.
    pub fn variable(&self, origin: Origin) -> Option<u16>
        requires mapped { IsMappedAt self.now }
        requires origin_value { in_tables (origin_of origin) ≡ true }
        ensures { result ≡ found (variables_at self.now) (origin_of origin) }
    {
        variable_map::variable(self.area, self.limits, self.used.variables, origin)
    }

    // The origin of a variable; of a number that is none, the root.
    pub fn origin_at(&self, variable: usize) -> Origin
        requires { self.now.used.variables ≤ self.now.limits.variables }
        ensures { origin_of result ≡ get_or (variables_at self.now) variable (chosen root) }
    {
        variable_map::origin_at(self.area, self.limits, self.used.variables, variable)
    }

    pub fn decision_at(&self, i: usize) -> Decision
        requires { (self.now.used.decisions ≤ self.now.limits.variables) × (i < self.now.used.decisions) }
        ensures { decision_of result ≡ get_or (decisions_at self.now) i no_decision }
    {
        decision_tracker::decision_at(self.area, self.limits, self.used.decisions, i)
    }
}
