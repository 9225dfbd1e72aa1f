// A sheet's records are carried out: the commands of `commands`, and runs.
#![tactic(auto)]

ghost use Rattle.std.specs.Prelude.{◌<◌, length};
ghost use Rattle.rules.specs.Records as rules;
ghost use Rattle.encoder.specs.Held.{LongEnough};
ghost use Rattle.reader.specs.Reading.{command_of};
ghost use Rattle.encoding.specs.Running.{IsReached};
ghost use Rattle.serving.specs.Flags.{AreFlagged};
ghost use Rattle.sheet.specs.Sheet.{CommandDid, FlaggedAfter};
ghost use Rattle.index.specs.Views.{catalogue_of};

use encoder::State;
use index::Catalogue;
use reader::Command;
use refusal::{Refusal, Thing};

fn draw(
    catalogue: &Catalogue,
    state: &mut State,
    clauses: &mut [u8],
    w: &mut [u8],
    c: u16,
) -> Result<(), Refusal>
    requires reaches { IsReached (catalogue_of catalogue.now) state.old clauses.old w.old }
    requires long_enough { LongEnough state.old.limits (length clauses.old) (length w.old) }
    ensures { CommandDid (catalogue_of catalogue.now) (rules.Command.draw c) state.old clauses.old w.old result state.new clauses.new w.new }
{
    if (c as usize) >= catalogue.index.areas.tables.counts.conditions {
        return Err(Refusal::Missing(Thing::Condition, 1));
    }
    commands::draw(catalogue, state, w, c);
    Ok(())
}

fn run(
    catalogue: &Catalogue,
    state: &mut State,
    clauses: &mut [u8],
    w: &mut [u8],
    level: u16,
    settled: &mut [bool; 640],
) -> Result<(), Refusal>
    requires reaches { IsReached (catalogue_of catalogue.now) state.old clauses.old w.old }
    requires long_enough { LongEnough state.old.limits (length clauses.old) (length w.old) × (state.old.used.runs < 65535) }
    requires flagged { AreFlagged (catalogue_of catalogue.now) settled.old state.old }
    ensures command_did { CommandDid (catalogue_of catalogue.now) (rules.Command.run level) state.old clauses.old w.old result state.new clauses.new w.new }
    ensures flagged_after { FlaggedAfter (catalogue_of catalogue.now) settled.new result state.new }
{
    if commands::level_too_low(state, level) {
        return Err(Refusal::LevelLow);
    }
    encoding::run_once(catalogue, state, clauses, w, level, settled);
    if state.used.full != 0 {
        return Err(Refusal::RunFull);
    }
    Ok(())
}

// `settled` flags goals whose candidates are settled.
pub fn carry_out(
    catalogue: &Catalogue,
    state: &mut State,
    clauses: &mut [u8],
    w: &mut [u8],
    command: Command,
    settled: &mut [bool; 640],
) -> Result<(), Refusal>
    requires reaches { IsReached (catalogue_of catalogue.now) state.old clauses.old w.old }
    requires long_enough { LongEnough state.old.limits (length clauses.old) (length w.old) × (state.old.used.runs < 65535) }
    requires flagged { AreFlagged (catalogue_of catalogue.now) settled.old state.old }
    ensures command_did { CommandDid (catalogue_of catalogue.now) (command_of command) state.old clauses.old w.old result state.new clauses.new w.new }
    ensures flagged_after { FlaggedAfter (catalogue_of catalogue.now) settled.new result state.new }
{
    match command {
        Command::Add(owner) => commands::add(catalogue.index.areas.tables.counts, state, owner),
        Command::Draw(c) => draw(catalogue, state, clauses, w, c),
        Command::Run(level) => run(catalogue, state, clauses, w, level, settled),
        Command::Decide {
            variable,
            value,
            level,
        } => commands::decide(state, variable, value, level),
        Command::Undo(level) => {
            commands::undo(state, level);
            Ok(())
        }
    }
}
