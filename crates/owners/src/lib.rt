// Names of a goal's ranges are opened, and an owner's task is served.
#![tactic(auto)]

ghost use Rattle.std.specs.Prelude.{◌≡◌, true, false, [], ◌+◌, ◌<◌, length};
ghost use Rattle.rules.specs.Lists.{fold, up_to};
ghost use Rattle.rules.specs.Catalogue.{union, part, range_name, unknown_owner};
ghost use Rattle.rules.specs.Candidates.{goal_ranges};
ghost use Rattle.rules.specs.Opening.{owner, open_name, open_names, serve_owner};
ghost use Rattle.rules.specs.Variables.{chosen};
ghost use Rattle.rules.proofs.WellFormed.{OwnerGiven, GoalGiven};
ghost use Rattle.requirement.specs.Requirements.{goal_of, owner_is};
ghost use Rattle.index.specs.Chains.{row_of, Skips};
ghost use Rattle.variable_map.specs.Mapping.{origin_of};
ghost use Rattle.marked.specs.Marked.{owner_of};
ghost use Rattle.encoder.specs.Held.{run_of, LongEnough};
ghost use Rattle.encoder.specs.Did.{on_opening};
ghost use Rattle.encoder.specs.Does.{StateDoes, ClausesDoes, IsGood, IsGoodWith};
ghost use Rattle.owners.specs.declared.Rule.TheVariants.{OpenRequirement, OpenConstraint, QueueRequirement, QueueConstraint};
ghost use Rattle.owners.specs.Owners.{is_of, OwnerNumber, rule_of, count_of, cardinal, serving};
ghost use Rattle.index.specs.Views.{catalogue_of, counts_of, catalogue_in, counts_in};

use encoder::{Run, State};
use index::{Catalogue, Index};
use line::Task;
use marked::{MarkedList, ROOT};
use requirement::{Owner, Requirement};
use tables::{Counts, Flag};
use variable_map::Origin;

// ---- names are opened

// The name of a range.
fn open_range(catalogue: &Catalogue, state: &mut State, r: u16)
    requires good { IsGood (catalogue_of catalogue.now) state.old }
    requires r_lt_ranges { r < (counts_of catalogue.now).ranges }
    ensures { StateDoes (catalogue_of catalogue.now) (λ v. on_opening (open_name (range_name (catalogue_of catalogue.now) r))) state.old state.new }
{
    opening::open_name(state, catalogue.index.areas.tables.range_name(r as usize));
}

// The name of range r is open: to open it changes nothing.
fn is_open(catalogue: &Catalogue, state: &State, r: u16) -> bool
    requires good { IsGood (catalogue_of catalogue.now) state.now }
    requires r_lt_ranges { r < (counts_of catalogue.now).ranges }
    ensures { result ≡ true → StateDoes (catalogue_of catalogue.now) (λ v. on_opening (open_name (range_name (catalogue_of catalogue.now) r))) state.now state.now }
{
    state.lists(
        MarkedList::Names,
        catalogue.index.areas.tables.range_name(r as usize),
    )
}

fn open_union(catalogue: &Catalogue, state: &mut State, u: u16)
    requires good { IsGood (catalogue_of catalogue.now) state.old }
    requires u_lt_unions { u < (counts_of catalogue.now).unions }
    ensures { StateDoes (catalogue_of catalogue.now) (λ v. on_opening (open_names (catalogue_of catalogue.now) (goal_ranges (catalogue_of catalogue.now) (union u)))) state.old state.new }
{
    let mut i = catalogue.index.first_of_union(u);
    while i < catalogue.index.areas.tables.counts.members {
        let member = catalogue.index.areas.as_members().at(i);
        if !is_open(catalogue, state, member.range) {
            open_range(catalogue, state, member.range);
        }
        i = catalogue.index.next_of_union(i);
    }
}

// The names of a goal's ranges.
pub fn open_goal(catalogue: &Catalogue, state: &mut State, goal: Requirement)
    requires good { IsGood (catalogue_of catalogue.now) state.old }
    requires goal_given { GoalGiven (catalogue_of catalogue.now) (goal_of goal) }
    ensures { StateDoes (catalogue_of catalogue.now) (λ v. on_opening (open_names (catalogue_of catalogue.now) (goal_ranges (catalogue_of catalogue.now) (goal_of goal)))) state.old state.new }
{
    match goal {
        Requirement::Single(range) => open_range(catalogue, state, range),
        Requirement::Union(union) => open_union(catalogue, state, union),
    }
}

// ---- owners by number

// The owner of a number in the state area.
#[tactic(auto, using(crate::proofs::Records::number_root, crate::proofs::Records::number_part))]
pub fn owner_by_number(number: u16) -> Owner
    ensures { owner_is result ≡ owner_of number }
{
    if number == ROOT {
        Owner::Root
    } else {
        Owner::Part(number)
    }
}

// The number of an owner in the state area.
#[tactic(auto, using(crate::proofs::Records::root_number, crate::proofs::Records::part_number))]
pub fn owner_number(owner: Owner) -> u16
    requires { OwnerNumber owner }
    ensures { owner_of result ≡ owner_is owner }
{
    match owner {
        Owner::Root => ROOT,
        Owner::Part(part) => part,
    }
}

// An owner's origin: the root's, or a part's.
pub fn owner_origin(owner: Owner) -> Origin
    ensures { origin_of result ≡ chosen (owner_is owner) }
{
    match owner {
        Owner::Root => Origin::Root,
        Owner::Part(part) => Origin::Part(part),
    }
}

// An owner by its row in the chains.
#[tactic(auto, unfolding(index::specs::Chains::row_of))]
fn row_of(owner: Owner) -> usize
    ensures { result ≡ row_of (owner_is owner) }
{
    match owner {
        Owner::Root => 0,
        Owner::Part(part) => part as usize + 1,
    }
}

// ---- an owner's records

fn open_requirement(catalogue: &Catalogue, state: &mut State, owner: Owner, q: usize)
    requires good { IsGood (catalogue_of catalogue.now) state.old }
    requires q_lt_requirements { q < (counts_of catalogue.now).requirements }
    ensures { StateDoes (catalogue_of catalogue.now) (λ v. on_opening (rule_of (catalogue_of catalogue.now) v OpenRequirement (owner_is owner) q)) state.old state.new }
{
    let it = catalogue.index.areas.tables.requirement_at(q);
    if it.owner == owner && it.condition.is_none() {
        open_goal(catalogue, state, it.requirement);
    }
}

fn open_constraint(catalogue: &Catalogue, state: &mut State, owner: Owner, i: usize)
    requires good { IsGood (catalogue_of catalogue.now) state.old }
    requires i_lt_constraints { i < (counts_of catalogue.now).constraints }
    ensures { StateDoes (catalogue_of catalogue.now) (λ v. on_opening (rule_of (catalogue_of catalogue.now) v OpenConstraint (owner_is owner) i)) state.old state.new }
{
    let it = catalogue.index.areas.tables.constraint_at(i);
    if it.owner == owner {
        open_range(catalogue, state, it.range);
    }
}

fn queue_requirement(catalogue: &Catalogue, state: &mut State, owner: Owner, q: usize)
    requires good { IsGood (catalogue_of catalogue.now) state.old }
    requires q_lt_requirements { q < (counts_of catalogue.now).requirements }
    ensures { StateDoes (catalogue_of catalogue.now) (λ v. on_opening (rule_of (catalogue_of catalogue.now) v QueueRequirement (owner_is owner) q)) state.old state.new }
{
    let it = catalogue.index.areas.tables.requirement_at(q);
    if it.owner == owner {
        match it.condition {
            None => opening::queue(state, Task::Requirement(q as u16)),
            Some(_) => opening::queue(state, Task::Condition(q as u16)),
        }
    }
}

fn queue_constraint(catalogue: &Catalogue, state: &mut State, owner: Owner, i: usize)
    requires good { IsGood (catalogue_of catalogue.now) state.old }
    requires i_lt_constraints { i < (counts_of catalogue.now).constraints }
    ensures { StateDoes (catalogue_of catalogue.now) (λ v. on_opening (rule_of (catalogue_of catalogue.now) v QueueConstraint (owner_is owner) i)) state.old state.new }
{
    let it = catalogue.index.areas.tables.constraint_at(i);
    if it.owner == owner {
        opening::queue(state, Task::Constraint(i as u16));
    }
}

// What is done with each record of an owner: an unconditional requirement or a constraint opens its names; a requirement or a constraint is queued.
// Kept: no plainer: over a trait each rule would be a type of four methods, and three of them the same for two types at a time.
#[derive(Clone, Copy)]
pub enum Rule {
    OpenRequirement,
    OpenConstraint,
    QueueRequirement,
    QueueConstraint,
}

impl Rule {
    // How many records it may be for.
    #[tactic(auto, unfolding(crate::specs::Owners::cardinal))]
    fn count(self, counts: Counts) -> usize
        ensures { result ≡ cardinal counts self }
    {
        match self {
            Rule::OpenRequirement | Rule::QueueRequirement => counts.requirements,
            Rule::OpenConstraint | Rule::QueueConstraint => counts.constraints,
        }
    }

    // The first record of an owner, or one before it.
    fn first(self, index: &Index, owner: Owner) -> usize
        ensures { Skips (cardinal (counts_in index.now) self) (is_of (catalogue_in index.now) self (owner_is owner)) 0 result }
    {
        let row = row_of(owner);
        match self {
            Rule::OpenRequirement | Rule::QueueRequirement => index.first_requirement(row),
            Rule::OpenConstraint | Rule::QueueConstraint => index.first_constraint(row),
        }
    }

    // The next one behind record i, or one before it.
    fn next(self, index: &Index, owner: Owner, i: usize) -> usize
        requires { i < cardinal (counts_in index.now) self }
        ensures { Skips (cardinal (counts_in index.now) self) (is_of (catalogue_in index.now) self (owner_is owner)) (i + 1) result }
    {
        let row = row_of(owner);
        match self {
            Rule::OpenRequirement | Rule::QueueRequirement => index.next_requirement(row, i),
            Rule::OpenConstraint | Rule::QueueConstraint => index.next_constraint(row, i),
        }
    }

    // Record i is dealt with.
    fn take(self, catalogue: &Catalogue, state: &mut State, owner: Owner, i: usize)
        requires good { IsGood (catalogue_of catalogue.now) state.old }
        requires i_bound { i < cardinal (counts_of catalogue.now) self }
        ensures { StateDoes (catalogue_of catalogue.now) (λ v. on_opening (rule_of (catalogue_of catalogue.now) v self (owner_is owner) i)) state.old state.new }
    {
        match self {
            Rule::OpenRequirement => open_requirement(catalogue, state, owner, i),
            Rule::OpenConstraint => open_constraint(catalogue, state, owner, i),
            Rule::QueueRequirement => queue_requirement(catalogue, state, owner, i),
            Rule::QueueConstraint => queue_constraint(catalogue, state, owner, i),
        }
    }

    // Each record of an owner, along its chain.
    fn take_each(self, catalogue: &Catalogue, state: &mut State, owner: Owner)
        requires good { IsGood (catalogue_of catalogue.now) state.old }
        ensures { StateDoes (catalogue_of catalogue.now) (λ v. on_opening (fold (rule_of (catalogue_of catalogue.now) v self (owner_is owner)) (up_to 0 (count_of (catalogue_of catalogue.now) self)))) state.old state.new }
    {
        let count = self.count(catalogue.index.areas.tables.counts);
        let mut i = self.first(&catalogue.index, owner);
        while i < count {
            self.take(catalogue, state, owner, i);
            i = self.next(&catalogue.index, owner, i);
        }
    }
}

// ---- an owner's task

// A known owner: its unconditional requirements and its constraints open their names first, then its tasks are queued.
fn serve_known(catalogue: &Catalogue, state: &mut State, owner: Owner)
    requires good { IsGood (catalogue_of catalogue.now) state.old }
    requires known { unknown_owner (catalogue_of catalogue.now) (owner_is owner) ≡ false }
    ensures { StateDoes (catalogue_of catalogue.now) (λ v. on_opening (serve_owner (catalogue_of catalogue.now) (owner_is owner))) state.old state.new }
{
    Rule::OpenRequirement.take_each(catalogue, state, owner);
    Rule::OpenConstraint.take_each(catalogue, state, owner);
    Rule::QueueRequirement.take_each(catalogue, state, owner);
    Rule::QueueConstraint.take_each(catalogue, state, owner);
}

// A part with unknown dependencies is excluded.
fn serve_unknown(catalogue: &Catalogue, state: &mut State, clauses: &mut [u8], run: Run, p: u16)
    requires good { IsGoodWith (catalogue_of catalogue.now) state.old clauses.old [] }
    requires long_enough { LongEnough state.old.limits (length clauses.old) 16384 }
    requires number_nonzero { (0 < run.number) × (p < (counts_of catalogue.now).parts) × (unknown_owner (catalogue_of catalogue.now) (part p) ≡ true) }
    ensures { ClausesDoes (catalogue_of catalogue.now) (λ v. serving (catalogue_of catalogue.now) (run_of run) (owner (part p))) state.old clauses.old state.new clauses.new }
{
    opening::name_variable(state, Origin::Part(p));
    if state.used.full == 0 {
        let x = opening::variable_of(state, Origin::Part(p));
        reporting::add_excluded(state, clauses, run, x, p, true);
    }
}

// The task of an owner by its number.
pub fn serve_owner(catalogue: &Catalogue, state: &mut State, clauses: &mut [u8], run: Run, o: u16)
    requires good { IsGoodWith (catalogue_of catalogue.now) state.old clauses.old [] }
    requires long_enough { LongEnough state.old.limits (length clauses.old) 16384 }
    requires number_nonzero { 0 < run.number }
    requires o_bound { (o < 1025) × OwnerGiven (catalogue_of catalogue.now) (owner_of o) }
    ensures { ClausesDoes (catalogue_of catalogue.now) (λ v. serving (catalogue_of catalogue.now) (run_of run) (owner (owner_of o))) state.old clauses.old state.new clauses.new }
{
    let owner = owner_by_number(o);
    if let Owner::Part(p) = owner {
        if catalogue.index.areas.tables.has(Flag::Unknown, p as usize) {
            serve_unknown(catalogue, state, clauses, run, p);
            return;
        }
    }
    serve_known(catalogue, state, owner);
}
