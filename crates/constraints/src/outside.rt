// The parts outside a range, its non-matching parts: their variables and the clauses of a violation. A part that has its variable is passed by a look at its slot,
// and the clause of a part that is not true is stored where there is room; what is left is added as any other.
ghost use Rattle.std.specs.Prelude.{◌≡◌, [], ◌<◌, ◌≤◌, length};
ghost use Rattle.rules.specs.Lists.{fold};
ghost use Rattle.encoder.specs.Held.{run_of, LongEnough, KnownUnlessFull};
ghost use Rattle.encoder.specs.Did.{is_full};
ghost use Rattle.encoder.specs.Does.{StateDoes, ClausesDoes, IsGood, IsGoodWith, IsMapped, variables_of};
ghost use Rattle.parts.specs.declared.Naming.TheVariants.{Variable};
ghost use Rattle.parts.specs.declared.Adding.TheVariants.{AuxOut};
ghost use Rattle.parts.specs.Parts.{parts_for, naming_of, adding_of};
ghost use Rattle.constraints.specs.Outside.{outside, lacks, Finds, Appends};
ghost use Rattle.index.specs.Views.{catalogue_in, counts_in};

use cache::Choice;
use encoder::{Run, State};
use index::Index;
use parts::{Adding, Parts};
use solver::Clause;
use variable_map::Origin;

// ---- variables

// Is part p outside range r, and without a variable?
fn lacks_variable(index: &Index, state: &State, r: usize, p: usize) -> bool
    requires mapped { IsMapped state.now × (p < (counts_in index.now).parts) }
    ensures { result ≡ lacks (catalogue_in index.now) (variables_of state.now) r p }
{
    state.variable(Origin::Part(p as u16)).is_none()
        && index.areas.chosen(r, Choice::NonMatching, p)
}

// From part `from` on, the first one outside range r that has no variable; or how many parts there are.
fn next_unnamed(index: &Index, state: &State, r: usize, from: usize) -> usize
    requires mapped { IsMapped state.now × (r < (counts_in index.now).ranges) × (from ≤ (counts_in index.now).parts) }
    ensures { Finds (counts_in index.now).parts (lacks (catalogue_in index.now) (variables_of state.now) r) from result }
{
    let mut p = from;
    while p < index.areas.tables.counts.parts {
        if lacks_variable(index, state, r, p) {
            return p;
        }
        p = index.next_outside(r, p);
    }
    p
}

// Each part outside range r gets its variable.
pub fn name_outside(index: &Index, state: &mut State, r: usize)
    requires good { IsGood (catalogue_in index.now) state.old }
    requires r_lt_ranges { r < (counts_in index.now).ranges }
    ensures { StateDoes (catalogue_in index.now) (λ v. fold (naming_of (catalogue_in index.now) Variable) (parts_for (catalogue_in index.now) (outside r))) state.old state.new }
{
    let first = index.first_chosen(r, Choice::NonMatching);
    let mut p = next_unnamed(index, state, r, first);
    while p < index.areas.tables.counts.parts {
        opening::name_variable(state, Origin::Part(p as u16));
        let next = index.next_outside(r, p);
        p = next_unnamed(index, state, r, next);
    }
}

// ---- clauses

// The aux-out clause of part p, if it is outside range r, is stored where there is room and the part is not true; y is the violation.
// False where the part is left, and nothing was done.
fn append_next(
    index: &Index,
    state: &mut State,
    clauses: &mut [u8],
    r: usize,
    y: u16,
    p: usize,
) -> bool
    requires good { IsGoodWith (catalogue_in index.now) state.old clauses.old [] }
    requires long_enough { LongEnough state.old.limits (length clauses.old) 16384 }
    requires p_lt_parts { p < (counts_in index.now).parts }
    requires known_unless_full { KnownUnlessFull (is_full state.old.used) (variables_of state.old) (parts_for (catalogue_in index.now) (outside r)) }
    ensures { Appends (catalogue_in index.now) r y p state.old clauses.old result state.new clauses.new }
{
    if !index.areas.chosen(r, Choice::NonMatching, p) {
        return true;
    }
    if state.used.full != 0 {
        return false;
    }
    let x = opening::variable_of(state, Origin::Part(p as u16));
    if state.is_true(x) {
        return false;
    }
    if state.used.clauses < state.limits.clauses {
        let clause = Clause::AuxOut {
            variable: x,
            violation: y,
        };
        state.used.clauses = solver::append(clauses, state.used.clauses, clause.row(None));
        return true;
    }
    false
}

// The aux-out clause of each part outside range r, whose violation is y.
pub fn add_outs(index: &Index, state: &mut State, clauses: &mut [u8], run: Run, r: usize, y: u16)
    requires good { IsGoodWith (catalogue_in index.now) state.old clauses.old [] }
    requires long_enough { LongEnough state.old.limits (length clauses.old) 16384 }
    requires number_nonzero { (0 < run.number) × (y < state.old.limits.variables) × (r < (counts_in index.now).ranges) }
    requires known_unless_full { KnownUnlessFull (is_full state.old.used) (variables_of state.old) (parts_for (catalogue_in index.now) (outside r)) }
    ensures { ClausesDoes (catalogue_in index.now) (λ v. fold (adding_of (run_of run) (AuxOut y)) (parts_for (catalogue_in index.now) (outside r))) state.old clauses.old state.new clauses.new }
{
    let mut p = index.first_chosen(r, Choice::NonMatching);
    while p < index.areas.tables.counts.parts {
        if !append_next(index, state, clauses, r, y, p) {
            parts::add_if(
                index,
                state,
                clauses,
                run,
                Parts::Chosen {
                    range: r,
                    choice: Choice::NonMatching,
                },
                Adding::AuxOut(y),
                p,
            );
        }
        p = index.next_outside(r, p);
    }
}
