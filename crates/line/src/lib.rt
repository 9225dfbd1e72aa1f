// The task line of a run, and tasks as numbers.
#![tactic(auto)]

ghost use Rattle.std.specs.Prelude.{◌≡◌, ◌+◌, ◌<◌, length};
ghost use Rattle.state.specs.Layout.{held, Fits};
ghost use Rattle.line.specs.Line.{line_at, Queued};
ghost use Rattle.line.specs.Tasks.{task_of, task_number, HasNumber};

use state::{Limits, Region};

// An owner is its part's number, or 1,024 for the root; a drawn entry its place among the drawn ones.
#[derive(Clone, Copy)]
pub enum Task {
    Owner(u16),
    Name(u16),
    Condition(u16),
    Requirement(u16),
    Constraint(u16),
    Drawn(u16),
}

// The numbers at which the tasks of a kind begin: owners, and behind them the others.
const NAMES: u16 = 1025;

const CONDITIONS: u16 = 1089;

const REQUIREMENTS: u16 = 2113;

const CONSTRAINTS: u16 = 3137;

const DRAWN: u16 = 3649;

impl From<u16> for Task {
    ghost from_gives = { λ number task. task ≡ task_of number };

    #[tactic(auto, using(crate::proofs::Tasks::task_owner, crate::proofs::Tasks::task_name, crate::proofs::Tasks::task_condition, crate::proofs::Tasks::task_requirement, crate::proofs::Tasks::task_constraint, crate::proofs::Tasks::task_drawn))]
    fn from(number: u16) -> Task {
        match number {
            ..NAMES => Task::Owner(number),
            NAMES..CONDITIONS => Task::Name(number - NAMES),
            CONDITIONS..REQUIREMENTS => Task::Condition(number - CONDITIONS),
            REQUIREMENTS..CONSTRAINTS => Task::Requirement(number - REQUIREMENTS),
            CONSTRAINTS..DRAWN => Task::Constraint(number - CONSTRAINTS),
            DRAWN.. => Task::Drawn(number - DRAWN),
        }
    }
}

impl Task {
    // The number that stands for it.
    #[tactic(auto, using(crate::proofs::Tasks::number_back))]
    pub fn number(self) -> u16
        requires { task_number self < 65536 }
        ensures value { result ≡ task_number self }
        ensures inverse { HasNumber self → task_of result ≡ self }
    {
        match self {
            Task::Owner(owner) => owner,
            Task::Name(name) => NAMES + name,
            Task::Condition(condition) => CONDITIONS + condition,
            Task::Requirement(requirement) => REQUIREMENTS + requirement,
            Task::Constraint(constraint) => CONSTRAINTS + constraint,
            Task::Drawn(place) => DRAWN + place,
        }
    }
}

// The task at place `head`.
#[tactic(auto, unfolding(crate::specs::Line::line_at))]
pub fn at(s: &[u8], l: Limits, head: usize) -> Task
    requires { Fits l (length s.now) }
    ensures { result ≡ task_of (line_at head (held l s.now)) }
{
    Task::from(state::get(s, l, Region::Line, head))
}

// One task more at the end.
pub fn push(s: &mut [u8], l: Limits, tail: usize, task: Task) -> usize
    requires { Fits l (length s.old) × (tail < 3649 + l.waiting) × (task_number task < 65536) }
    ensures { Queued tail (task_number task) (held l s.old) result (held l s.new) }
{
    state::set(s, l, Region::Line, tail, task.number());
    tail + 1
}
