// The tasks of a run and the line in which they wait: first in, first out.
#![tactic(auto)]

ghost use Rattle.std.specs.Prelude.{◌≡◌, [], ◌<◌, ◌≤◌, length};
ghost use Rattle.rules.specs.Catalogue.{goal_at};
ghost use Rattle.rules.specs.Opening.{requirement};
ghost use Rattle.cache.specs.Areas.{catalogue};
ghost use Rattle.marked.specs.Marked.{Marked};
ghost use Rattle.line.specs.declared.Task.TheVariants.{Drawn};
ghost use Rattle.line.specs.Line.{line_at};
ghost use Rattle.line.specs.Tasks.{task_of};
ghost use Rattle.entries.specs.Entries.{drawn_in};
ghost use Rattle.encoder.specs.Held.{run_of, LongEnough};
ghost use Rattle.encoder.specs.Does.{IsGoodWith, regions_of};
ghost use Rattle.owners.specs.Owners.{serving};
ghost use Rattle.naming.specs.Naming.{GivenIndices};
ghost use Rattle.naming.specs.Alike.{AlikeDoes, ClausesDoAlike};
ghost use Rattle.serving.specs.Flags.{goal_from, AreFlagged};
ghost use Rattle.serving.specs.Serving.{served_as, served_fired, served_drawn, TaskGiven};
ghost use Rattle.serving.specs.Line.{ServesNext, IsBegun, ServesLine};
ghost use Rattle.index.specs.Views.{catalogue_of, counts_of};

use encoder::{Run, State};
use index::Catalogue;
use line::Task;
use requirement::Requirement;

// ---- goals whose candidates are settled

// The place of a requirement's goal among the flags.
fn goal_place(catalogue: &Catalogue, q: usize) -> usize
    requires q_lt_requirements { q < (counts_of catalogue.now).requirements }
    ensures { (result < 640) × (goal_from result ≡ goal_at (catalogue_of catalogue.now) q) }
{
    let it = catalogue.index.areas.tables.requirement_at(q);
    match it.requirement {
        Requirement::Single(range) => range as usize,
        Requirement::Union(union) => 512 + union as usize,
    }
}

// Requirement q is handled for these disjuncts, and its goal flagged.
fn serve_flagged(
    catalogue: &Catalogue,
    state: &mut State,
    clauses: &mut [u8],
    run: Run,
    q: usize,
    indices: &[u16],
    settled: &mut [bool; 640],
)
    requires good { IsGoodWith (catalogue_of catalogue.now) state.old clauses.old [] }
    requires long_enough { LongEnough state.old.limits (length clauses.old) 16384 }
    requires q_lt_requirements { (q < (counts_of catalogue.now).requirements) × (0 < run.number) }
    requires marked { Marked 14 15 0 (regions_of state.old) }
    requires given_indices { GivenIndices (catalogue_of catalogue.now) q indices.now }
    requires flagged { AreFlagged (catalogue_of catalogue.now) settled.old state.old }
    ensures clauses_alike { ClausesDoAlike (catalogue_of catalogue.now) (λ v. serving (catalogue_of catalogue.now) (run_of run) (requirement q indices.now)) state.old clauses.old state.new clauses.new }
    ensures flagged_2 { AreFlagged (catalogue_of catalogue.now) settled.new state.new }
{
    let i = goal_place(catalogue, q);
    let known = settled[i];
    handling::serve_requirement(catalogue, state, clauses, run, q, indices, known);
    settled[i] = true;
}

// ---- tasks

// Requirement q is handled for the disjuncts that hold now.
fn serve_fired(
    catalogue: &Catalogue,
    state: &mut State,
    clauses: &mut [u8],
    run: Run,
    q: usize,
    settled: &mut [bool; 640],
)
    requires good { IsGoodWith (catalogue_of catalogue.now) state.old clauses.old [] }
    requires long_enough { LongEnough state.old.limits (length clauses.old) 16384 }
    requires q_lt_requirements { (q < (counts_of catalogue.now).requirements) × (0 < run.number) }
    requires marked { Marked 14 15 0 (regions_of state.old) }
    requires flagged { AreFlagged (catalogue_of catalogue.now) settled.old state.old }
    ensures clauses_alike { ClausesDoAlike (catalogue_of catalogue.now) (λ v. served_fired (catalogue_of catalogue.now) (run_of run) q) state.old clauses.old state.new clauses.new }
    ensures flagged_2 { AreFlagged (catalogue_of catalogue.now) settled.new state.new }
{
    let it = catalogue.index.areas.tables.requirement_at(q);
    match it.condition {
        None => serve_flagged(catalogue, state, clauses, run, q, &[], settled),
        Some(_) => {
            let fired = firing::judged(catalogue, state, q, true);
            serve_flagged(catalogue, state, clauses, run, q, fired.as_slice(), settled);
        }
    }
}

// Entry e of the `drawn` ones is handled.
fn serve_drawn(
    catalogue: &Catalogue,
    state: &mut State,
    clauses: &mut [u8],
    w: &[u8],
    run: Run,
    drawn: usize,
    e: usize,
    settled: &mut [bool; 640],
)
    requires good { IsGoodWith (catalogue_of catalogue.now) state.old clauses.old [] }
    requires long_enough { LongEnough state.old.limits (length clauses.old) 16384 }
    requires long_enough_2 { LongEnough state.old.limits (length clauses.old) (length w.now) }
    requires task_given { TaskGiven (catalogue_of catalogue.now) (drawn_in state.old.limits drawn w.now) (Drawn e) }
    requires number_nonzero { (0 < run.number) × (drawn ≤ state.old.limits.waiting) × (e < drawn) }
    requires marked { Marked 14 15 0 (regions_of state.old) }
    requires flagged { AreFlagged (catalogue_of catalogue.now) settled.old state.old }
    ensures clauses_alike { ClausesDoAlike (catalogue_of catalogue.now) (λ v. served_drawn (catalogue_of catalogue.now) (run_of run) (drawn_in state.old.limits drawn w.now) e) state.old clauses.old state.new clauses.new }
    ensures flagged_2 { AreFlagged (catalogue_of catalogue.now) settled.new state.new }
{
    let entry = entries::drawn_at(w, state.limits, drawn, e);
    serve_flagged(
        catalogue,
        state,
        clauses,
        run,
        entry.requirement as usize,
        &[entry.disjunct],
        settled,
    );
}

// This task; `drawn` entries were drawn when the run began.
fn serve_task(
    catalogue: &Catalogue,
    state: &mut State,
    clauses: &mut [u8],
    w: &mut [u8],
    run: Run,
    drawn: usize,
    task: Task,
    settled: &mut [bool; 640],
)
    requires good { IsGoodWith (catalogue_of catalogue.now) state.old clauses.old w.old }
    requires long_enough { LongEnough state.old.limits (length clauses.old) (length w.old) }
    requires marked { Marked 14 15 0 (regions_of state.old) }
    requires task_given { TaskGiven (catalogue_of catalogue.now) (drawn_in state.old.limits drawn w.old) task }
    requires number_nonzero { (0 < run.number) × (drawn ≤ state.old.limits.waiting) × (state.old.used.drawn ≡ 0) }
    requires flagged { AreFlagged (catalogue_of catalogue.now) settled.old state.old }
    ensures alike_does { AlikeDoes (catalogue_of catalogue.now) (λ v. served_as (catalogue_of catalogue.now) (run_of run) (drawn_in state.old.limits drawn w.old) v task) state.old clauses.old w.old state.new clauses.new w.new }
    ensures flagged_2 { AreFlagged (catalogue_of catalogue.now) settled.new state.new }
{
    match task {
        Task::Owner(o) => owners::serve_owner(catalogue, state, clauses, run, o),
        Task::Name(name) => names::serve_name(catalogue, state, clauses, run, name),
        Task::Condition(q) => firing::serve_condition(catalogue, state, w, q),
        Task::Requirement(q) => serve_fired(catalogue, state, clauses, run, q as usize, settled),
        Task::Constraint(i) => constraints::serve_constraint(
            catalogue, state, clauses, run, i as usize,
        ),
        Task::Drawn(e) => serve_drawn(
            catalogue, state, clauses, w, run, drawn, e as usize, settled,
        ),
    }
}

// ---- the line

// The task at a place of the line.
fn task_at(state: &State, at: usize) -> Task
    ensures { result ≡ task_of (line_at at (regions_of state.now)) }
{
    line::at(state.area, state.limits, at)
}

// The task at `head` is taken from the line; what it queues goes behind.
fn serve_next(
    catalogue: &Catalogue,
    state: &mut State,
    clauses: &mut [u8],
    w: &mut [u8],
    run: Run,
    drawn: usize,
    head: usize,
    settled: &mut [bool; 640],
)
    requires good { IsGoodWith (catalogue_of catalogue.now) state.old clauses.old w.old }
    requires long_enough { LongEnough state.old.limits (length clauses.old) (length w.old) }
    requires marked { Marked 14 15 0 (regions_of state.old) }
    requires task_given { TaskGiven (catalogue_of catalogue.now) (drawn_in state.old.limits drawn w.old) (task_of (line_at head (regions_of state.old))) }
    requires number_nonzero { (0 < run.number) × (drawn ≤ state.old.limits.waiting) × (state.old.used.drawn ≡ 0) × (head < state.old.used.tail) }
    requires flagged { AreFlagged (catalogue_of catalogue.now) settled.old state.old }
    ensures serves { ServesNext (catalogue_of catalogue.now) (run_of run) drawn head state.old clauses.old w.old state.new clauses.new w.new }
    ensures flagged_2 { AreFlagged (catalogue_of catalogue.now) settled.new state.new }
{
    let task = task_at(state, head);
    state.used.first = head + 1;
    serve_task(catalogue, state, clauses, w, run, drawn, task, settled);
}

// The whole line. `settled` flags goals whose candidates are settled, in this run or before.
pub fn serve_line(
    catalogue: &Catalogue,
    state: &mut State,
    clauses: &mut [u8],
    w: &mut [u8],
    run: Run,
    drawn: usize,
    settled: &mut [bool; 640],
)
    requires good { IsGoodWith (catalogue_of catalogue.now) state.old clauses.old w.old }
    requires long_enough { LongEnough state.old.limits (length clauses.old) (length w.old) }
    requires marked { Marked 14 15 0 (regions_of state.old) × (0 < run.number) }
    requires begun { IsBegun (catalogue_of catalogue.now) (run_of run) drawn state.old clauses.old w.old }
    requires flagged { AreFlagged (catalogue_of catalogue.now) settled.old state.old }
    ensures serves_line { ServesLine (catalogue_of catalogue.now) (run_of run) drawn state.old clauses.old w.old state.new clauses.new w.new }
    ensures flagged_2 { AreFlagged (catalogue_of catalogue.now) settled.new state.new }
{
    let mut head = 0;
    // Kept: no plainer: the line grows while it is served, so its end is not known at the start.
    while head < state.used.tail {
        if state.used.full != 0 {
            return;
        }
        serve_next(catalogue, state, clauses, w, run, drawn, head, settled);
        head += 1;
    }
}
