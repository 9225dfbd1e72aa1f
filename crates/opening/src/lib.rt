// Single steps of the encoder: an owner or a name is opened, a task is queued, a part is named for tracking, a name is
// served with several allowed, an entry waits, an origin gets its variable. A step that would pass a limit does nothing but say that it is full;
// once it is full no step does anything.
#![tactic(auto)]

ghost use Rattle.std.specs.Prelude.{◌≡◌, true, List, ℕ, ◌<◌, ◌≤◌, length};
ghost use Rattle.rules.specs.Lists.{elem, snoc};
ghost use Rattle.rules.specs.Catalogue.{Catalogue};
ghost use Rattle.rules.specs.Opening.{queue, set_several, open_owner, open_name, name_for_tracking};
ghost use Rattle.rules.specs.Opening as rules;
ghost use Rattle.rules.proofs.Capped.{add_waiting, add_variable};
ghost use Rattle.cache.specs.Areas.{catalogue};
ghost use Rattle.state.specs.Layout.{held, Fits};
ghost use Rattle.variable_map.specs.Mapping.{origin_of, in_tables, variables, Mapped};
ghost use Rattle.marked.specs.Marked.{listed, owner_of, Marked};
ghost use Rattle.entries.specs.Entries.{entry_of, Long};
ghost use Rattle.line.specs.Tasks.{task_number};
ghost use Rattle.encoder.specs.Held.{task_in};
ghost use Rattle.encoder.specs.Does.{StateDoes, PlainDoes, regions_of};
ghost use Rattle.encoder.specs.Did.{on_opening, with_several, Looked};
ghost use Rattle.opening.specs.Does.{WaitingDoes};

use encoder::State;
use entries::Entry;
use line::Task;
use marked::MarkedList;
use state::Region;
use tables::Tables;
use variable_map::Origin;

// ---- the line

// One task more.
pub fn queue(state: &mut State, task: Task)
    requires { task_number task < 65536 }
    ensures { PlainDoes (λ c v. on_opening (queue (task_in c v (task_number task)))) state.old state.new }
{
    if state.used.full != 0 {
        return;
    }
    if state.used.tail < 3649 + state.limits.waiting {
        state.used.tail = line::push(state.area, state.limits, state.used.tail, task);
    } else {
        state.used = encoder::filled(state.used);
    }
}

// ---- owners and names open once

pub fn open_owner(state: &mut State, o: u16)
    requires marked { Marked 1 2 state.old.used.owners (regions_of state.old) }
    requires o_bound { o < 1025 }
    ensures { PlainDoes (λ c v. on_opening (open_owner (owner_of o))) state.old state.new }
{
    if state.used.full != 0 {
        return;
    }
    if state.lists(MarkedList::Owners, o) {
        return;
    }
    state.used.owners = marked::push(
        state.area,
        state.limits,
        MarkedList::Owners,
        state.used.owners,
        o,
    );
    queue(state, Task::Owner(o));
}

pub fn open_name(state: &mut State, name: u16)
    requires marked { Marked 3 4 state.old.used.names (regions_of state.old) }
    requires name_bound { name < 64 }
    ensures { PlainDoes (λ c v. on_opening (open_name name)) state.old state.new }
{
    if state.used.full != 0 {
        return;
    }
    if state.lists(MarkedList::Names, name) {
        return;
    }
    state.used.names = marked::push(
        state.area,
        state.limits,
        MarkedList::Names,
        state.used.names,
        name,
    );
    queue(state, Task::Name(name));
}

// ---- names served with several allowed

// Was this name served with several allowed?
pub fn is_several(state: &State, name: u16) -> bool
    requires { state.now.used.several ≤ 64 }
    ensures { result ≡ elem name (listed state.now.used.several 5 (regions_of state.now)) }
{
    for i in 0..state.used.several {
        if state::get(state.area, state.limits, Region::Several, i) == name {
            return true;
        }
    }
    false
}

pub fn push_several(state: &mut State, name: u16)
    ensures { PlainDoes (λ c v. on_opening (with_several name)) state.old state.new }
{
    if state.used.full != 0 {
        return;
    }
    if state.used.several < 64 {
        state::set(
            state.area,
            state.limits,
            Region::Several,
            state.used.several,
            name,
        );
        state.used.several += 1;
    } else {
        state.used = encoder::filled(state.used);
    }
}

// ---- tracking

// Part p is named for tracking, unless it is already or its name was served with several allowed.
pub fn name_for_tracking(tables: &Tables, state: &mut State, p: u16)
    requires { (state.old.used.several ≤ 64) × Marked 8 9 state.old.used.named (regions_of state.old) × (p < 1024) }
    ensures { (m u : List ℕ) → StateDoes (catalogue tables.now.counts m u tables.now.area.now)
        (λ v. on_opening (name_for_tracking (catalogue tables.now.counts m u tables.now.area.now) p)) state.old state.new }
{
    if state.used.full != 0 {
        return;
    }
    if state.lists(MarkedList::Named, p) {
        return;
    }
    let name = tables.part_name(p as usize);
    if is_several(state, name) {
        return;
    }
    state.used.named = marked::push(
        state.area,
        state.limits,
        MarkedList::Named,
        state.used.named,
        p,
    );
}

// ---- waiting entries

pub fn add_waiting(state: &mut State, w: &mut [u8], e: Entry)
    requires long { Long state.old.limits (length w.old) }
    requires drawn_value { state.old.used.drawn ≡ 0 }
    ensures { WaitingDoes (λ v. add_waiting (entry_of e)) state.old w.old state.new w.new }
{
    if state.used.full != 0 {
        return;
    }
    if state.used.waiting < state.limits.waiting {
        state.used.waiting = entries::push_waiting(w, state.limits, state.used.waiting, e);
    } else {
        state.used = encoder::filled(state.used);
    }
}

// ---- variables

// An origin gets its variable when first named.
pub fn name_variable(state: &mut State, o: Origin)
    requires mapped { Mapped state.old.limits state.old.used.variables (regions_of state.old) }
    requires o_value { in_tables (origin_of o) ≡ true }
    ensures { PlainDoes (λ c v. add_variable (origin_of o)) state.old state.new }
{
    if state.used.full != 0 {
        return;
    }
    match variable_map::name(state.area, state.limits, state.used.variables, o) {
        Some(named) => state.used.variables = named.count,
        None => state.used = encoder::filled(state.used),
    }
}

// The variable of an origin that has one.
#[tactic(auto, using(crate::proofs::Variables::looked_is))]
pub fn variable_of(state: &State, o: Origin) -> u16
    requires mapped { Mapped state.now.limits state.now.used.variables (regions_of state.now) }
    requires o_value { in_tables (origin_of o) ≡ true }
    ensures { Looked (variables state.now.used.variables (regions_of state.now)) (origin_of o) result }
{
    state.variable(o).unwrap_or(0)
}
