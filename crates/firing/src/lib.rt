// A condition's task: its disjuncts fire or wait. Drawn entries fire alike.
#![tactic(auto)]

mod disjuncts;

ghost use Rattle.std.specs.Prelude.{◌≡◌, false, ◌<◌, length};
ghost use Rattle.rules.specs.Lists.{filter};
ghost use Rattle.rules.specs.Conditions.{indices, unconditional};
ghost use Rattle.cache.specs.Areas.{catalogue};
ghost use Rattle.entries.specs.Entries.{Long};
ghost use Rattle.line.specs.Tasks.{task_number};
ghost use Rattle.encoder.specs.Held.{task_in};
ghost use Rattle.encoder.specs.Does.{StateDoes, IsGood, IsMapped, IsTracked};
ghost use Rattle.encoder.specs.Did.{on_opening};
ghost use Rattle.opening.specs.Does.{WaitingDoes};
ghost use Rattle.goals.specs.Goals.{truth_of};
ghost use Rattle.firing.specs.Firing.{judging, Judges, Lists, waits, queued, EntriesDo, condition_served};
ghost use Rattle.index.specs.Views.{catalogue_of, counts_of};

pub use disjuncts::Indices;
use disjuncts::Judgement;
use encoder::State;
use entries::Entry;
use index::Catalogue;
use line::Task;

// Which disjuncts of requirement q hold now.
fn judge(catalogue: &Catalogue, state: &State, q: usize) -> Judgement
    requires mapped { IsMapped state.now × IsTracked state.now }
    requires q_lt_requirements { (q < (counts_of catalogue.now).requirements) × (unconditional (catalogue_of catalogue.now) q ≡ false) }
    ensures { Judges (catalogue_of catalogue.now) (truth_of state.now) q result }
{
    let it = catalogue.index.areas.tables.requirement_at(q);
    let condition = it.condition.unwrap() as usize;
    let count = catalogue.conditions().count(condition);
    let flags = judging::holding(catalogue, state, condition);
    Judgement { flags, count }
}

// The disjuncts of requirement q that hold now, or those that do not.
pub fn judged(catalogue: &Catalogue, state: &State, q: usize, holds: bool) -> Indices
    requires mapped { IsMapped state.now × IsTracked state.now }
    requires q_lt_requirements { (q < (counts_of catalogue.now).requirements) × (unconditional (catalogue_of catalogue.now) q ≡ false) }
    ensures { Lists result (filter (judging (catalogue_of catalogue.now) (truth_of state.now) q holds) (indices (catalogue_of catalogue.now) q)) }
{
    judge(catalogue, state, q).flagged(holds)
}

// These disjuncts of requirement q wait.
fn add_waitings(state: &mut State, w: &mut [u8], q: u16, indices: &[u16])
    requires long { Long state.old.limits (length w.old) }
    requires drawn_value { state.old.used.drawn ≡ 0 }
    ensures { WaitingDoes (λ v. waits q indices.now) state.old w.old state.new w.new }
{
    for index in indices {
        opening::add_waiting(
            state,
            w,
            Entry {
                requirement: q,
                disjunct: *index,
            },
        );
    }
}

// Requirement q opens its names, and this task is queued.
pub fn fire(catalogue: &Catalogue, state: &mut State, q: usize, task: Task)
    requires good { IsGood (catalogue_of catalogue.now) state.old }
    requires q_lt_requirements { (q < (counts_of catalogue.now).requirements) × (task_number task < 65536) }
    ensures { StateDoes (catalogue_of catalogue.now) (λ v. on_opening (queued (catalogue_of catalogue.now) q (task_in (catalogue_of catalogue.now) v (task_number task)))) state.old state.new }
{
    let it = catalogue.index.areas.tables.requirement_at(q);
    owners::open_goal(catalogue, state, it.requirement);
    opening::queue(state, task);
}

// The disjuncts of requirement q that hold fire together; the others wait.
pub fn serve_condition(catalogue: &Catalogue, state: &mut State, w: &mut [u8], q: u16)
    requires good { IsGood (catalogue_of catalogue.now) state.old }
    requires long { Long state.old.limits (length w.old) }
    requires q_lt_requirements { (q < (counts_of catalogue.now).requirements) × (unconditional (catalogue_of catalogue.now) q ≡ false) × (state.old.used.drawn ≡ 0) }
    ensures { EntriesDo (catalogue_of catalogue.now) (λ v. condition_served (catalogue_of catalogue.now) v q) state.old w.old state.new w.new }
{
    let judgement = judge(catalogue, state, q as usize);
    let stay = judgement.flagged(false);
    let fired = judgement.flagged(true);
    add_waitings(state, w, q, stay.as_slice());
    if fired.len == 0 {
        return;
    }
    fire(catalogue, state, q as usize, Task::Requirement(q));
}
