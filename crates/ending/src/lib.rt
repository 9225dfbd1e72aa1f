// The end of a job: nothing added or drawn may be left, and its listing is written if it fits. What a job comes to is `Accepted`, or a refusal.
// A listing that does not fit leaves the area as it was.
#![tactic(auto)]

ghost use Rattle.std.specs.Prelude.{◌≡◌, [], length};
ghost use Rattle.encoder.specs.Held.{LongEnough};
ghost use Rattle.encoder.specs.StateRefs.{regions_at};
ghost use Rattle.beginning.specs.Beginning.{Reaches};
ghost use Rattle.text.specs.Text.{Addressable};
ghost use Rattle.line_fields.specs.Listed.{IsListed};
ghost use Rattle.ending.specs.Ending.{IsPrinted, IsFinished};
ghost use Rattle.index.specs.Views.{catalogue_of};

use encoder::StateRef;
use index::Catalogue;
use refusal::{Refusal, RefusedAt};

// How long the listing of a job is, and how many variables and clauses it has.
#[derive(Clone, Copy, Debug, PartialEq, Eq)]
pub struct Accepted {
    pub length: usize,
    pub variables: usize,
    pub clauses: usize,
}

// How long the listing is, or one more than `room` if it is longer than that. Nothing is written.
fn measure(catalogue: &Catalogue, state: &StateRef, clauses: &[u8], w: &[u8], room: usize) -> usize
    requires addressable { Addressable room }
    requires long_enough { LongEnough state.now.limits (length clauses.now) (length w.now) }
    requires reaches { Reaches (catalogue_of catalogue.now) state.now.limits state.now.used (regions_at state.now) clauses.now w.now }
    ensures { IsListed (catalogue_of catalogue.now) state.now clauses.now w.now room result [] [] }
{
    listing::write(catalogue, state, clauses, w, &mut [], room)
}

// The listing is written if it fits into the area.
fn print(
    catalogue: &Catalogue,
    state: &StateRef,
    clauses: &[u8],
    w: &[u8],
    out: &mut [u8],
) -> Result<Accepted, RefusedAt>
    requires long_enough { LongEnough state.now.limits (length clauses.now) (length w.now) }
    requires reaches { Reaches (catalogue_of catalogue.now) state.now.limits state.now.used (regions_at state.now) clauses.now w.now }
    ensures { IsPrinted (catalogue_of catalogue.now) state.now clauses.now w.now result out.old out.new }
{
    let room = out.len();
    let length = measure(catalogue, state, clauses, w, room);
    if room < length {
        return Err(RefusedAt {
            refusal: Refusal::ListingFull,
            at: 0,
        });
    }
    listing::write(catalogue, state, clauses, w, out, room);
    Ok(Accepted {
        length,
        variables: state.used.variables,
        clauses: state.used.clauses,
    })
}

// The end of a job: nothing added or drawn may be left, and the listing must fit.
pub fn finish(
    catalogue: &Catalogue,
    state: &StateRef,
    clauses: &[u8],
    w: &[u8],
    out: &mut [u8],
) -> Result<Accepted, RefusedAt>
    requires long_enough { LongEnough state.now.limits (length clauses.now) (length w.now) }
    requires reaches { Reaches (catalogue_of catalogue.now) state.now.limits state.now.used (regions_at state.now) clauses.now w.now }
    ensures { IsFinished (catalogue_of catalogue.now) state.now clauses.now w.now result out.old out.new }
{
    if state.used.added != 0 || state.used.drawn != 0 {
        return Err(RefusedAt {
            refusal: Refusal::NotRun,
            at: 0,
        });
    }
    print(catalogue, state, clauses, w, out)
}
