// A run begins: the added owners are opened, then the drawn entries fire.
// What the areas hold between two records (`Holds`), and that a job can come to it (`Reaches`).
#![tactic(auto)]

ghost use Rattle.std.specs.Prelude.{◌<◌, ◌≤◌, length};
ghost use Rattle.marked.specs.Marked.{Marked};
ghost use Rattle.entries.specs.Entries.{Long, drawn_in};
ghost use Rattle.encoder.specs.Held.{LongEnough};
ghost use Rattle.encoder.specs.Did.{on_opening};
ghost use Rattle.encoder.specs.Does.{StateDoes, PlainDoes, IsGood, regions_of};
ghost use Rattle.goals.specs.Goals.{AllGiven};
ghost use Rattle.beginning.specs.Beginning.{IsReached, GoodSome, open_added, forget_added, fire_drawn, Empties, RunBegins};
ghost use Rattle.index.specs.Views.{catalogue_of};

use encoder::State;
use index::Catalogue;
use line::Task;
use marked::MarkedList;

// ---- a run begins

// Nothing is drawn and nothing in the line; one run more.
fn empty_line(state: &mut State)
    requires { state.old.used.runs < 65535 }
    ensures { Empties state.old state.new }
{
    state.used.first = 0;
    state.used.tail = 0;
    state.used.drawn = 0;
    state.used.runs += 1;
}

// The added owners are opened, in order.
fn open_added(state: &mut State)
    requires { GoodSome state.old }
    ensures { PlainDoes (λ c v. on_opening open_added) state.old state.new }
{
    let count = state.used.added;
    for i in 0..count {
        if state.used.full != 0 {
            return;
        }
        let owner = state.listed(MarkedList::Added, count, i);
        opening::open_owner(state, owner);
    }
}

// No owner is added any more.
fn forget_added(state: &mut State)
    requires { Marked 6 7 state.old.used.added (regions_of state.old) }
    ensures { PlainDoes (λ c v. on_opening forget_added) state.old state.new }
{
    marked::clear(
        state.area,
        state.limits,
        MarkedList::Added,
        state.used.added,
    );
    state.used.added = 0;
}

// The `drawn` entries fire, each a task of its own.
fn fire_drawn(catalogue: &Catalogue, state: &mut State, w: &[u8], drawn: usize)
    requires good { IsGood (catalogue_of catalogue.now) state.old }
    requires long { Long state.old.limits (length w.now) × (drawn ≤ state.old.limits.waiting) }
    requires all_given { AllGiven (catalogue_of catalogue.now) (drawn_in state.old.limits drawn w.now) }
    ensures { StateDoes (catalogue_of catalogue.now) (λ v. on_opening (fire_drawn (catalogue_of catalogue.now) v (drawn_in state.old.limits drawn w.now))) state.old state.new }
{
    for e in 0..drawn {
        let entry = entries::drawn_at(w, state.limits, drawn, e);
        firing::fire(
            catalogue,
            state,
            entry.requirement as usize,
            Task::Drawn(e as u16),
        );
    }
}

// The added owners are opened, then the drawn entries fire.
pub fn begin_run(catalogue: &Catalogue, state: &mut State, clauses: &[u8], w: &[u8])
    requires reaches { IsReached (catalogue_of catalogue.now) state.old clauses.now w.now }
    requires long_enough { LongEnough state.old.limits (length clauses.now) (length w.now) × (state.old.used.runs < 65535) }
    ensures { RunBegins (catalogue_of catalogue.now) state.old clauses.now w.now state.new }
{
    let drawn = state.used.drawn;
    empty_line(state);
    open_added(state);
    forget_added(state);
    fire_drawn(catalogue, state, w, drawn);
}
