// A sheet carried out, from the encoder's state at the start.
#![tactic(auto)]

ghost use Rattle.std.specs.Prelude.{◌≡◌, ◌*◌, ◌<◌, ◌≤◌, true, length, set};
ghost use Rattle.rules.specs.Records as rules;
ghost use Rattle.rules.specs.State.{start};
ghost use Rattle.rules.proofs.Reached.{Given};
ghost use Rattle.catalogue.specs.Walking.{UpToSheet};
ghost use Rattle.reader.specs.Reading.{command_of};
ghost use Rattle.state.specs.Changed.{Cleared};
ghost use Rattle.state.specs.Layout.{held, Fits};
ghost use Rattle.encoder.specs.Held.{LongEnough};
ghost use Rattle.encoder.specs.Does.{variables_of, decisions_of};
ghost use Rattle.blocking.specs.Blocking.{Sees, Named, shared_of, Listed};
ghost use Rattle.encoding.specs.Running.{IsHolding, IsReached};
ghost use Rattle.serving.specs.Flags.{AreFlagged};
ghost use Rattle.sheet.specs.Sheet.{FlaggedAfter};
ghost use Rattle.carried.specs.Carrying.{Started, MakesTrue, Unblocks, Fresh, Idles, Notes, SettledDid, IsFlagged, StepDid, FlaggedNext, SheetDid};
ghost use Rattle.index.specs.Views.{catalogue_of, counts_of, tables_of};

use blocking::{Blocking, Listing};
use encoder::{Counters, State};
use index::Catalogue;
use reader::{Command, Reader, Record};
use refusal::{Refusal, RefusedAt};
use solver::Clause;
use state::Limits;
use variable_map::Origin;

// The state at the start, in a state area that was cleared: variable 0 is the root; clause 0, install, is stored.
pub fn start<'a>(area: &'a mut [u8], clauses: &mut [u8], limits: Limits) -> State<'a>
    requires fits { Fits limits (length area.old) }
    requires cleared { Cleared (held limits area.old) }
    requires variables_nonzero { (0 < limits.variables) × (0 < limits.clauses) × (limits.clauses * 20 ≤ length clauses.old) }
    ensures limits { result.limits ≡ limits }
    ensures area { result.area.ghost_name ≡ area.entry.ghost_name }
    ensures started { Started result clauses.new }
{
    let variables = variable_map::start(area, limits);
    let stored = solver::append(clauses, 0, Clause::Install.row(None));
    let used = Counters {
        variables,
        clauses: stored,
        literals: 0,
        decisions: 0,
        owners: 0,
        names: 0,
        several: 0,
        added: 0,
        named: 0,
        tracked: 0,
        waiting: 0,
        drawn: 0,
        first: 0,
        tail: 0,
        runs: 0,
        full: 0,
    };
    State { area, limits, used }
}

// ---- draws that change nothing

// Flag i is set, if there is one.
fn set_flag(flags: &mut [bool], i: usize)
    ensures { flags.new ≡ set flags.old i true }
{
    if i < flags.len() {
        flags[i] = true;
    }
}

// The part that the decision makes true, if it makes one true.
fn made_true(state: &State, variable: u16, value: u8) -> Option<usize>
    requires { state.now.used.variables ≤ state.now.limits.variables }
    ensures { MakesTrue (variables_of state.now) variable value result }
{
    if value != 1 {
        return None;
    }
    match state.origin_at(variable as usize) {
        Origin::Part(part) => Some(part as usize),
        _ => None,
    }
}

// A decision: where it makes a watched part true, no condition is blocked any more, and no range that has the part.
fn unblock(blocking: &mut Blocking, catalogue: &Catalogue, state: &State, variable: u16, value: u8)
    requires { state.now.used.variables ≤ state.now.limits.variables }
    ensures { Unblocks (counts_of catalogue.now) catalogue.now.index.areas.marks.now (variables_of state.now) variable value blocking.old blocking.new }
{
    if let Some(p) = made_true(state, variable, value) {
        let ranges = catalogue.index.areas.tables.counts.ranges;
        blocking.release(&catalogue.index.areas.as_marks(), ranges, p);
    }
}

// What is remembered from record to record of a sheet: conditions of which nothing is to be drawn; conditions no disjunct of which holds until a watched
// part is decided true, and such ranges; and the disjuncts of a condition that was often judged, and what those of each condition share.
#[derive(Drop)]
struct Memory {
    settled: [bool; 256],
    blocking: Blocking,
    listing: Listing,
}

impl Memory {
    // Nothing is remembered.
    fn new() -> Memory
        ensures { Fresh result }
    {
        Memory {
            settled: [false; 256],
            blocking: Blocking::new(),
            listing: Listing::new(),
        }
    }

    // A command was carried out. A draw leaves nothing of its condition to be drawn; an owner that is added, a run and decisions that are undone give
    // nothing to draw. After a decision there may be something to draw of each condition.
    fn note(&mut self, command: Command)
        ensures notes { Notes (command_of command) self.old.settled self.new.settled }
        ensures others { (self.new.blocking ≡ self.old.blocking) × (self.new.listing ≡ self.old.listing) }
    {
        match command {
            Command::Add(_) | Command::Run(_) | Command::Undo(_) => {}
            Command::Draw(c) => set_flag(&mut self.settled, c as usize),
            Command::Decide { .. } => self.settled.fill(false),
        }
    }

    // Is a draw of condition c known to change nothing? It is flagged, or blocked, or a range is that its disjuncts share.
    fn is_flagged(&self, conditions: usize, c: usize) -> bool
        requires conditions_bound { conditions ≤ 256 }
        requires named { Named 512 (shared_of self.now.listing c).first × Named 512 (shared_of self.now.listing c).second }
        ensures { IsFlagged self.now.settled self.now.blocking self.now.listing conditions c result }
    {
        if commands::is_set(&self.settled, c) {
            return true;
        }
        if c >= conditions {
            return false;
        }
        self.blocking.conditions[c] || self.blocking.shared_bars(&self.listing, c)
    }

    // Does a draw of condition c change nothing? Nothing is to be drawn of it where it is flagged, or where no disjunct of it holds. The ranges that its
    // disjuncts share are asked before each of these is.
    fn draws_nothing(&mut self, catalogue: &Catalogue, state: &State, c: usize) -> bool
        requires sees { Sees state.now }
        requires listed { Listed (tables_of catalogue.now).conditions self.old.listing }
        ensures idles { Idles (catalogue_of catalogue.now) (variables_of state.now) (decisions_of state.now) (rules.Command.draw c) self.old.settled self.old.blocking result self.new.blocking }
        ensures kept { (self.new.settled ≡ self.old.settled) × Listed (tables_of catalogue.now).conditions self.new.listing }
    {
        let conditions = catalogue.index.areas.tables.counts.conditions;
        if self.is_flagged(conditions, c) {
            return true;
        }
        if c >= conditions {
            return false;
        }
        let assignment = state.assignment();
        self.blocking
            .blocks_by_shared(catalogue, &assignment, c, &self.listing)
            || self
                .blocking
                .blocks(catalogue, &assignment, c, &mut self.listing)
    }

    // Is the command a draw that changes nothing? What is blocked becomes what it is after the command.
    fn is_idle(&mut self, catalogue: &Catalogue, state: &State, command: Command) -> bool
        requires sees { Sees state.now }
        requires listed { Listed (tables_of catalogue.now).conditions self.old.listing }
        ensures idles { Idles (catalogue_of catalogue.now) (variables_of state.now) (decisions_of state.now) (command_of command) self.old.settled self.old.blocking result self.new.blocking }
        ensures kept { (self.new.settled ≡ self.old.settled) × Listed (tables_of catalogue.now).conditions self.new.listing }
    {
        match command {
            Command::Add(_) | Command::Run(_) | Command::Undo(_) => false,
            Command::Draw(c) => self.draws_nothing(catalogue, state, c as usize),
            Command::Decide {
                variable,
                value,
                ..
            } => {
                unblock(&mut self.blocking, catalogue, state, variable, value);
                false
            }
        }
    }

    // A command is carried out, and noted; a draw that changes nothing is passed over. `goals` flags goals whose candidates are settled.
    fn carry_command(
        &mut self,
        catalogue: &Catalogue,
        state: &mut State,
        clauses: &mut [u8],
        w: &mut [u8],
        command: Command,
        goals: &mut [bool; 640],
    ) -> Result<(), Refusal>
        requires reached { IsReached (catalogue_of catalogue.now) state.old clauses.old w.old }
        requires long_enough { LongEnough state.old.limits (length clauses.old) (length w.old) × (state.old.used.runs < 65535) }
        requires flagged { AreFlagged (catalogue_of catalogue.now) goals.old state.old }
        requires listed { Listed (tables_of catalogue.now).conditions self.old.listing }
        ensures did { SettledDid (catalogue_of catalogue.now) (command_of command) self.old.settled self.old.blocking state.old clauses.old w.old result self.new.settled self.new.blocking state.new clauses.new w.new }
        ensures flagged_after { FlaggedAfter (catalogue_of catalogue.now) goals.new result state.new }
        ensures listed_after { Listed (tables_of catalogue.now).conditions self.new.listing }
    {
        if !self.is_idle(catalogue, state, command) {
            sheet::carry_out(catalogue, state, clauses, w, command, goals)?;
        }
        self.note(command);
        Ok(())
    }

    // The command at `at` is read and carried out: the byte after it.
    fn carry_record(
        &mut self,
        job: &[u8],
        at: usize,
        catalogue: &Catalogue,
        state: &mut State,
        clauses: &mut [u8],
        w: &mut [u8],
        goals: &mut [bool; 640],
    ) -> Result<usize, Refusal>
        requires at_in_bounds { (at < length job.now) × (length job.now ≤ 65536) }
        requires reached { IsReached (catalogue_of catalogue.now) state.old clauses.old w.old }
        requires long_enough { LongEnough state.old.limits (length clauses.old) (length w.old) × (state.old.used.runs < 65535) }
        requires flagged { AreFlagged (catalogue_of catalogue.now) goals.old state.old }
        requires listed { Listed (tables_of catalogue.now).conditions self.old.listing }
        ensures step_did { StepDid (catalogue_of catalogue.now) job.now at self.old.settled self.old.blocking state.old clauses.old w.old result self.new.settled self.new.blocking state.new clauses.new w.new }
        ensures flagged_next { FlaggedNext (catalogue_of catalogue.now) goals.new result state.new }
        ensures listed_after { Listed (tables_of catalogue.now).conditions self.new.listing }
    {
        let (record, next) = Reader { job, at }.read(true)?;
        match record {
            Record::Item(_) => Err(Refusal::OutOfPlace),
            Record::Sheet(command) => {
                self.carry_command(catalogue, state, clauses, w, command, goals)?;
                Ok(next)
            }
        }
    }
}

// The records from `from` on, the first of which is of a sheet.
pub fn carry_sheet(
    job: &[u8],
    from: usize,
    catalogue: &Catalogue,
    state: &mut State,
    clauses: &mut [u8],
    w: &mut [u8],
) -> Result<(), RefusedAt>
    requires job_len_bound { length job.now ≤ 65536 }
    requires up_to_sheet { UpToSheet job.now from (counts_of catalogue.now) catalogue.now.index.areas.marks.now catalogue.now.index.areas.unions.now catalogue.now.index.areas.tables.area.now }
    requires given { Given (catalogue_of catalogue.now) }
    requires long_enough { LongEnough state.old.limits (length clauses.old) (length w.old) }
    requires holds { IsHolding (catalogue_of catalogue.now) start state.old clauses.old w.old }
    ensures { SheetDid (catalogue_of catalogue.now) job.now from state.old result state.new clauses.new w.new }
{
    let mut memory = Memory::new();
    let mut goals = [false; 640];
    let mut at = from;
    while at < job.len() {
        at = memory
            .carry_record(job, at, catalogue, state, clauses, w, &mut goals)
            .map_err(|refusal| RefusedAt { refusal, at })?;
    }
    Ok(())
}
