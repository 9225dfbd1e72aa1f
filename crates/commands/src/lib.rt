// The sheet's commands but run: add, draw, decide, undo.
#![tactic(auto)]

ghost use Rattle.std.specs.Prelude.{◌≡◌, false, not, ◌||◌, ◌+◌, ◌<◌, ◌≤◌, eqb, ltb, length, get_or, Ok};
ghost use Rattle.std.specs.List.{list_all};
ghost use Rattle.rules.specs.Decisions.{last_level};
ghost use Rattle.rules.specs.Records.{Command};
ghost use Rattle.rules.proofs.Levels.{Rising};
ghost use Rattle.clause.specs.Literals.{literal_of};
ghost use Rattle.state.specs.Layout.{held, Fits};
ghost use Rattle.decision_tracker.specs.Tracking.{decisions, Kept};
ghost use Rattle.marked.specs.Marked.{owner_of, Marked};
ghost use Rattle.entries.specs.Entries.{no_entry, waiting_in, Long};
ghost use Rattle.entries.specs.Deferred.{Flags};
ghost use Rattle.encoder.specs.Does.{regions_of, decisions_of, IsMapped, IsTracked};
ghost use Rattle.goals.specs.Goals.{AllGiven};
ghost use Rattle.commands.specs.Commands.{AddsOwner, AddsTo, Adds, is_flagged, DrawDoes, DecidesLiteral, DecidesTo, Decides};
ghost use Rattle.index.specs.Views.{catalogue_of, counts_of};
ghost use Rattle.tables.specs.Views.{tables_of};

use clause::Literal;
use decision_tracker::Decision;
use encoder::State;
use index::Catalogue;
use marked::{MarkedList, ROOT};
use refusal::{Contradiction, Refusal, Thing};
use requirement::Owner;
use state::Limits;
use tables::{Counts, Tables};

// ---- add

// Owner o is added, unless it is already: how many are then.
fn push_added(area: &mut [u8], limits: Limits, count: usize, o: u16) -> usize
    requires fits { Fits limits (length area.old) }
    requires marked { Marked 6 7 count (held limits area.old) × (o < 1025) }
    ensures { AddsOwner limits (owner_of o) count (held limits area.old) result (held limits area.new) }
{
    if marked::contains(area, limits, MarkedList::Added, o) {
        return count;
    }
    marked::push(area, limits, MarkedList::Added, count, o)
}

// An owner is added where there are so many parts, and so many are added: it changes no other counter, and needs none.
pub fn add_to(
    counts: Counts,
    area: &mut [u8],
    limits: Limits,
    count: usize,
    owner: u16,
) -> Result<usize, Refusal>
    requires parts_bound { counts.parts ≤ 1024 }
    requires fits { Fits limits (length area.old) }
    requires marked { Marked 6 7 count (held limits area.old) }
    ensures { AddsTo counts.parts limits (Command.add owner) count area.old result area.new }
{
    match Owner::from(owner) {
        Owner::Root => Ok(push_added(area, limits, count, ROOT)),
        Owner::Part(part) => {
            if part as usize >= counts.parts {
                return Err(Refusal::Missing(Thing::Part, 1));
            }
            Ok(push_added(area, limits, count, part))
        }
    }
}

// The same of the encoder's state.
pub fn add(counts: Counts, state: &mut State, owner: u16) -> Result<(), Refusal>
    requires parts_bound { counts.parts ≤ 1024 }
    requires marked { Marked 6 7 state.old.used.added (regions_of state.old) }
    ensures { Adds counts.parts (Command.add owner) state.old result state.new }
{
    state.used.added = add_to(counts, state.area, state.limits, state.used.added, owner)?;
    Ok(())
}

// ---- draw

// Is no flag set?
fn none_set(flags: &[bool]) -> bool
    ensures { result ≡ list_all not flags.now }
{
    flags.iter().all(|flag| !*flag)
}

// Is flag i set? Past the flags none is.
pub fn is_set(flags: &[bool], i: usize) -> bool
    ensures { result ≡ get_or flags.now i false }
{
    i < flags.len() && flags[i]
}

// Is entry i one of condition c whose disjunct is flagged?
fn is_drawn(
    tables: &Tables,
    w: &[u8],
    l: Limits,
    n: usize,
    holding: &[bool],
    c: u16,
    i: usize,
) -> bool
    requires long { Long l (length w.now) × (n ≤ l.waiting) × (i < n) }
    ensures { result ≡ is_flagged (tables_of tables.now).requirements holding.now c (get_or (waiting_in l n w.now) i no_entry) }
{
    let entry = entries::waiting_at(w, l, n, i);
    let it = tables.requirement_at(entry.requirement as usize);
    it.condition == Some(c) && is_set(holding, entry.disjunct as usize)
}

// Which of n entries are of condition c, with a disjunct that is flagged: a flag for each.
fn held_flags(
    tables: &Tables,
    w: &[u8],
    l: Limits,
    n: usize,
    holding: &[bool],
    c: u16,
) -> [bool; 2048]
    requires long { Long l (length w.now) × (n ≤ l.waiting) }
    ensures { Flags (is_flagged (tables_of tables.now).requirements holding.now c) n (waiting_in l n w.now) result }
{
    let mut flags = [false; 2048];
    for i in 0..n {
        flags[i] = is_drawn(tables, w, l, n, holding, c, i);
    }
    flags
}

// The entries of condition c that hold are drawn, in order. Each disjunct of c is judged once.
pub fn draw(catalogue: &Catalogue, state: &mut State, w: &mut [u8], c: u16)
    requires mapped { IsMapped state.old × IsTracked state.old }
    requires long { Long state.old.limits (length w.old) × (state.old.used.waiting + state.old.used.drawn ≤ state.old.limits.waiting) }
    requires all_given { AllGiven (catalogue_of catalogue.now) (waiting_in state.old.limits state.old.used.waiting w.old) }
    requires c_lt_conditions { c < (counts_of catalogue.now).conditions }
    ensures { DrawDoes (catalogue_of catalogue.now) c state.old w.old state.new w.new }
{
    let judged = judging::holding(catalogue, state, c as usize);
    if none_set(&judged) {
        return;
    }
    let tables = &catalogue.index.areas.tables;
    let flags = held_flags(tables, w, state.limits, state.used.waiting, &judged, c);
    let counts = entries::draw(
        w,
        &flags,
        state.limits,
        state.used.waiting,
        state.used.drawn,
    );
    state.used.waiting = counts.kept;
    state.used.drawn = counts.drawn;
}

// ---- decide and undo

// A level is 0 or below the last decision's.
pub fn too_low(area: &[u8], limits: Limits, count: usize, level: u16) -> bool
    requires fits { Fits limits (length area.now) }
    requires count_le_variables { count ≤ limits.variables }
    ensures { result ≡ (eqb level 0 || ltb level (last_level (decisions count (held limits area.now)))) }
{
    level == 0 || level < decision_tracker::last_level(area, limits, count)
}

// The same of the encoder's state.
pub fn level_too_low(state: &State, level: u16) -> bool
    requires { state.now.used.decisions ≤ state.now.limits.variables }
    ensures { result ≡ (eqb level 0 || ltb level (last_level (decisions_of state.now))) }
{
    too_low(state.area, state.limits, state.used.decisions, level)
}

// A variable gets a value, unless it has the other: how many decisions there are then.
fn decide_literal(
    area: &mut [u8],
    limits: Limits,
    count: usize,
    literal: Literal,
    level: u16,
) -> Result<usize, Refusal>
    requires fits { Fits limits (length area.old) }
    requires kept { Kept limits count (held limits area.old) × ((literal_of literal).variable < limits.variables) }
    ensures { DecidesLiteral limits (literal_of literal) level count area.old result area.new }
{
    match decision_tracker::eval(area, limits, count, literal) {
        Some(true) => Ok(count),
        Some(false) => Err(Refusal::DecidedAgainst),
        None => {
            let new = Decision {
                variable: literal.variable(),
                value: literal.positive(),
                level,
                clause: None,
            };
            Ok(decision_tracker::decide(area, limits, count, new))
        }
    }
}

// A decision, where there are so many variables and decisions: it changes no other counter, and needs none.
pub fn decide_to(
    area: &mut [u8],
    limits: Limits,
    variables: usize,
    count: usize,
    variable: u16,
    value: u8,
    level: u16,
) -> Result<usize, Refusal>
    requires fits { Fits limits (length area.old) }
    requires kept { Kept limits count (held limits area.old) × (variables ≤ limits.variables) }
    ensures { DecidesTo limits (Command.decide variable value level) variables count area.old result area.new }
{
    if variable as usize >= variables {
        return Err(Refusal::MissingVariable(1));
    }
    if value > 1 {
        return Err(Refusal::Contradicts(Contradiction::OtherValue));
    }
    if too_low(area, limits, count, level) {
        return Err(Refusal::LevelLow);
    }
    decide_literal(
        area,
        limits,
        count,
        Literal::new(variable, value == 1),
        level,
    )
}

// The same of the encoder's state.
pub fn decide(state: &mut State, variable: u16, value: u8, level: u16) -> Result<(), Refusal>
    requires kept { IsTracked state.old × (state.old.used.variables ≤ state.old.limits.variables) }
    ensures { Decides (Command.decide variable value level) state.old result state.new }
{
    state.used.decisions = decide_to(
        state.area,
        state.limits,
        state.used.variables,
        state.used.decisions,
        variable,
        value,
        level,
    )?;
    Ok(())
}

// The decisions above this level are removed.
pub fn undo(state: &mut State, level: u16)
    requires kept { IsTracked state.old × Rising (decisions_of state.old) }
    ensures { Decides (Command.undo level) state.old (Ok tt) state.new }
{
    state.used.decisions = decision_tracker::undo(
        state.area,
        state.limits,
        state.used.decisions,
        level,
    );
}
