// A job whose length and areas are right: its catalogue is read, its sheet carried out, and its end made of the state that it comes to.
// What is left of the definitions' walk is the same at each of the three.
#![tactic(auto)]

ghost use Rattle.std.specs.Prelude.{◌<◌, ◌≤◌, length};
ghost use Rattle.rules.specs.Catalogue.{empty_catalogue};
ghost use Rattle.rules.specs.Job.{reading};
ghost use Rattle.rules.proofs.Reached.{Given};
ghost use Rattle.catalogue.specs.Walking.{UpToSheet};
ghost use Rattle.state.specs.Layout.{Fits};
ghost use Rattle.encoder.specs.Held.{LongEnough};
ghost use Rattle.index.specs.Views.{catalogue_of, counts_of, bytes_of};
ghost use Rattle.outcome.specs.Outcomes.{ReadWhole, RunsFrom};

use cache::Areas;
use catalogue::Read;
use ending::Accepted;
use index::{Catalogue, Index};
use refusal::RefusedAt;
use state::Limits;
use tables::Tables;

// The sheet from its first record on, and the end.
fn run_sheet(
    job: &[u8],
    from: usize,
    catalogue: &Catalogue,
    area: &mut [u8],
    clauses: &mut [u8],
    w: &mut [u8],
    limits: Limits,
    out: &mut [u8],
) -> Result<Accepted, RefusedAt>
    requires job_len_bound { length job.now ≤ 65536 }
    requires up_to_sheet { UpToSheet job.now from (counts_of catalogue.now) catalogue.now.index.areas.marks.now catalogue.now.index.areas.unions.now (bytes_of catalogue.now) }
    requires given { Given (catalogue_of catalogue.now) }
    requires fits { Fits limits (length area.old) }
    requires long_enough { LongEnough limits (length clauses.old) (length w.old) }
    requires variables_nonzero { (0 < limits.variables) × (0 < limits.clauses) }
    ensures { RunsFrom limits job.now from (reading (catalogue_of catalogue.now)) result out.old out.new }
{
    state::clear(area, limits);
    let mut state = carried::start(area, clauses, limits);
    carried::carry_sheet(job, from, catalogue, &mut state, clauses, w)?;
    ending::finish(catalogue, &state.as_state_ref(), clauses, w, out)
}

// The catalogue is read, and its chains are made.
fn read_whole(
    job: &[u8],
    marks: &mut [u8],
    unions: &mut [u8],
    t: &mut [u8],
) -> Result<Read, RefusedAt>
    requires { (65536 ≤ length marks.old) × (52428 ≤ length unions.old) × (50696 ≤ length t.old) × (length job.now ≤ 65536) }
    ensures { ReadWhole job.now result marks.new unions.new t.new }
{
    let read = catalogue::read_catalogue(job, marks, unions, t)?;
    index::build(marks, unions, t, read.counts);
    Ok(read)
}

pub fn run<'a>(
    job: &[u8],
    marks: &'a mut [u8],
    unions: &'a mut [u8],
    t: &'a mut [u8],
    area: &mut [u8],
    clauses: &mut [u8],
    w: &mut [u8],
    limits: Limits,
    out: &mut [u8],
) -> Result<Accepted, RefusedAt>
    requires in_bounds { (65536 ≤ length marks.old) × (52428 ≤ length unions.old) × (50696 ≤ length t.old) × (length job.now ≤ 65536) }
    requires fits { Fits limits (length area.old) }
    requires long_enough { LongEnough limits (length clauses.old) (length w.old) }
    requires variables_nonzero { (0 < limits.variables) × (0 < limits.clauses) }
    ensures { RunsFrom limits job.now 0 (reading empty_catalogue) result out.old out.new }
{
    let read = read_whole(job, marks, unions, t)?;
    let tables = Tables {
        area: t,
        counts: read.counts,
    };
    let areas = Areas {
        marks,
        unions,
        tables,
    };
    let index = Index { areas };
    let catalogue = Catalogue { index };
    run_sheet(job, read.at, &catalogue, area, clauses, w, limits, out)
}
