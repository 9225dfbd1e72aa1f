// A run: it begins, its line is served, and at its end the named parts join and new one-of-name variables are linked.
// It is carried out, or full.
#![tactic(auto)]

ghost use Rattle.std.specs.Prelude.{◌<◌, length};
ghost use Rattle.encoder.specs.Held.{LongEnough};
ghost use Rattle.beginning.specs.Beginning.{IsReached};
ghost use Rattle.serving.specs.Flags.{AreFlagged};
ghost use Rattle.encoding.specs.Running.{RunsOnce};
ghost use Rattle.index.specs.Views.{catalogue_of};

use encoder::{Run, State};
use index::Catalogue;

// ---- a run

// The run carried out, or full. `settled` flags goals whose candidates are settled.
pub fn run_once(
    catalogue: &Catalogue,
    state: &mut State,
    clauses: &mut [u8],
    w: &mut [u8],
    level: u16,
    settled: &mut [bool; 640],
)
    requires reaches { IsReached (catalogue_of catalogue.now) state.old clauses.old w.old }
    requires long_enough { LongEnough state.old.limits (length clauses.old) (length w.old) × (state.old.used.runs < 65535) }
    requires flagged { AreFlagged (catalogue_of catalogue.now) settled.old state.old }
    ensures runs_once { RunsOnce (catalogue_of catalogue.now) level state.old clauses.old w.old state.new clauses.new w.new }
    ensures flagged_2 { AreFlagged (catalogue_of catalogue.now) settled.new state.new }
{
    let run = Run {
        number: state.used.runs as u16 + 1,
        level,
        before: state.used.variables,
    };
    let drawn = state.used.drawn;
    beginning::begin_run(catalogue, state, clauses, w);
    serving::serve_line(catalogue, state, clauses, w, run, drawn, settled);
    if state.used.full != 0 {
        return;
    }
    binary_encoding::join_all(catalogue, state, clauses, run);
    if state.used.full != 0 {
        return;
    }
    binary_encoding::link_all(&catalogue.index, state, clauses, run);
}
