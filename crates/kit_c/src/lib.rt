// `kit`'s functions for C, and for Rust outside: `rt lib` makes out/libkit_c.a of them. Each does what `kit`'s function of its name does, and says so again.
#![tactic(auto)]

ghost use Rattle.terms.specs.Terms.{four_limits};
ghost use Rattle.kit.specs.Checking.{Served};
ghost use Rattle.kit.specs.Running.{Ran};

use terms::Answer;

// Is the job's catalogue right? The four limits and six work areas are those that `kit_run` would be given. After the call the areas are zero.
#[unsafe(no_mangle)]
pub extern "C" fn kit_check(
    job: &[u8],
    variables: u64,
    clauses: u64,
    literals: u64,
    waiting: u64,
    marks: &mut [u8],
    unions: &mut [u8],
    catalogue: &mut [u8],
    store: &mut [u8],
    state: &mut [u8],
    deferred: &mut [u8],
) -> Answer
    ensures { Served job.now (four_limits variables clauses literals waiting) result
        marks.old unions.old catalogue.old store.old state.old deferred.old
        marks.new unions.new catalogue.new store.new state.new deferred.new }
{
    kit::kit_check(
        job, variables, clauses, literals, waiting, marks, unions, catalogue, store, state,
        deferred,
    )
}

// The job's listing, or its refusal. After the call the six work areas are zero; a refusal leaves the listing area as it was.
#[unsafe(no_mangle)]
pub extern "C" fn kit_run(
    job: &[u8],
    variables: u64,
    clauses: u64,
    literals: u64,
    waiting: u64,
    marks: &mut [u8],
    unions: &mut [u8],
    catalogue: &mut [u8],
    store: &mut [u8],
    state: &mut [u8],
    deferred: &mut [u8],
    listing: &mut [u8],
) -> Answer
    ensures { Ran job.now (four_limits variables clauses literals waiting) result
        marks.old unions.old catalogue.old store.old state.old deferred.old listing.old
        marks.new unions.new catalogue.new store.new state.new deferred.new listing.new }
{
    kit::kit_run(
        job, variables, clauses, literals, waiting, marks, unions, catalogue, store, state,
        deferred, listing,
    )
}
