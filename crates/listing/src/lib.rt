// The listing of a state: its lines of waiting entries, and the whole.
// The same functions measure and write (`text::Writer`).
#![tactic(auto)]

mod chains;

ghost use Rattle.std.specs.Prelude.{◌≡◌, true, [], ◌∷◌, ◌<◌, ◌≤◌, length};
ghost use Rattle.std.proofs.Math.Option.{some};
ghost use Rattle.rules.specs.Catalogue.{condition_at};
ghost use Rattle.rules.specs.Listing.{ascii, decimal, line, waiting_lines};
ghost use Rattle.text.specs.Text.{Addressable, fields};
ghost use Rattle.text.specs.Writing.{Writes};
ghost use Rattle.requirement.specs.Requirements.{requirement_is};
ghost use Rattle.conditions.specs.Disjuncts.{ranges_of};
ghost use Rattle.entries.specs.Entries.{entry_of, Long};
ghost use Rattle.encoder.specs.Held.{Good, LongEnough};
ghost use Rattle.encoder.specs.StateRefs.{regions_at, IsMappedAt};
ghost use Rattle.goals.specs.Goals.{AllGiven};
ghost use Rattle.line_fields.specs.Listed.{entry_fields, texts, entry_text, condition_text, entries_waiting, first_half, clause_notes, state_notes, second_half, HasGoodRows, IsListed};
ghost use Rattle.listing.specs.Chains.{is_under, Linked};
ghost use Rattle.index.specs.Views.{catalogue_of, counts_of};

use chains::Chains;
use conditions::Disjunct;
use encoder::StateRef;
use entries::Entry;
use index::Catalogue;
use requirement::ConditionalRequirement;
use text::Writer;

// ---- waiting entries

// Owner, goal and ranges of a requirement under a disjunct of its condition.
fn entry_fields(writer: &mut Writer, requirement: ConditionalRequirement, disjunct: &Disjunct)
    ensures { Writes writer.old writer.new (fields (entry_fields (requirement_is requirement) (ranges_of disjunct.now))) }
{
    line_fields::field_owner(writer, requirement.owner);
    line_fields::goal_fields(writer, requirement.requirement);
    line_fields::disjunct_fields(writer, disjunct);
}

// The line of a requirement under a disjunct of condition c.
fn entry_line(
    writer: &mut Writer,
    requirement: ConditionalRequirement,
    c: usize,
    disjunct: &Disjunct,
)
    ensures { Writes writer.old writer.new (line (ascii "w" ∷ decimal c ∷ entry_fields (requirement_is requirement) (ranges_of disjunct.now))) }
{
    writer.put(b'w');
    writer.field_number(c);
    entry_fields(writer, requirement, disjunct);
    writer.line_feed();
}

// The line of an entry of condition c.
fn entry_under(writer: &mut Writer, catalogue: &Catalogue, entry: Entry, c: usize)
    requires all_given { AllGiven (catalogue_of catalogue.now) (entry_of entry ∷ []) }
    requires c_lt_conditions { (c < (counts_of catalogue.now).conditions) × (condition_at (catalogue_of catalogue.now) entry.requirement ≡ some c) }
    ensures { Writes writer.old writer.new (waiting_lines (catalogue_of catalogue.now) (entry_of entry ∷ []) c) }
{
    let requirement = catalogue
        .index
        .areas
        .tables
        .requirement_at(entry.requirement as usize);
    let disjunct = catalogue
        .conditions()
        .disjunct_of(c, entry.disjunct as usize);
    entry_line(writer, requirement, c, &disjunct);
}

// The line of entry i, which is of condition c.
fn waiting_line(
    writer: &mut Writer,
    catalogue: &Catalogue,
    state: &StateRef,
    w: &[u8],
    c: usize,
    i: usize,
)
    requires long { Long state.now.limits (length w.now) × (state.now.used.waiting ≤ state.now.limits.waiting) }
    requires all_given { AllGiven (catalogue_of catalogue.now) (entries_waiting state.now w.now) }
    requires c_lt_conditions { (c < (counts_of catalogue.now).conditions) × (i < state.now.used.waiting) × (is_under (catalogue_of catalogue.now) (entries_waiting state.now w.now) c i ≡ true) }
    ensures { Writes writer.old writer.new (entry_text (catalogue_of catalogue.now) (entries_waiting state.now w.now) c i) }
{
    let entry = entries::waiting_at(w, state.limits, state.used.waiting, i);
    entry_under(writer, catalogue, entry, c);
}

// The lines of condition c, along its chain.
fn waiting_of(
    writer: &mut Writer,
    catalogue: &Catalogue,
    state: &StateRef,
    w: &[u8],
    chains: &Chains,
    c: usize,
)
    requires long { Long state.now.limits (length w.now) × (state.now.used.waiting ≤ state.now.limits.waiting) }
    requires all_given { AllGiven (catalogue_of catalogue.now) (entries_waiting state.now w.now) }
    requires linked { Linked (catalogue_of catalogue.now) (entries_waiting state.now w.now) state.now.used.waiting (counts_of catalogue.now).conditions 0 chains.now.heads chains.now.links × (c < (counts_of catalogue.now).conditions) }
    ensures { Writes writer.old writer.new (condition_text (catalogue_of catalogue.now) (entries_waiting state.now w.now) state.now.used.waiting c) }
{
    let mut i = chains.first(c);
    while i < state.used.waiting {
        waiting_line(writer, catalogue, state, w, c, i);
        i = chains.next(i);
    }
}

// Those of all conditions, by rising condition.
fn chained_lines(
    writer: &mut Writer,
    catalogue: &Catalogue,
    state: &StateRef,
    w: &[u8],
    chains: &Chains,
)
    requires long { Long state.now.limits (length w.now) × (state.now.used.waiting ≤ state.now.limits.waiting) }
    requires all_given { AllGiven (catalogue_of catalogue.now) (entries_waiting state.now w.now) }
    requires linked { Linked (catalogue_of catalogue.now) (entries_waiting state.now w.now) state.now.used.waiting (counts_of catalogue.now).conditions 0 chains.now.heads chains.now.links }
    ensures { Writes writer.old writer.new (texts (condition_text (catalogue_of catalogue.now) (entries_waiting state.now w.now) state.now.used.waiting) (counts_of catalogue.now).conditions) }
{
    for c in 0..catalogue.index.areas.tables.counts.conditions {
        waiting_of(writer, catalogue, state, w, chains, c);
    }
}

// The same, after making the chains; nothing where no entry waits.
fn waiting_lines(writer: &mut Writer, catalogue: &Catalogue, state: &StateRef, w: &[u8])
    requires long { Long state.now.limits (length w.now) × (state.now.used.waiting ≤ state.now.limits.waiting) }
    requires all_given { AllGiven (catalogue_of catalogue.now) (entries_waiting state.now w.now) }
    ensures { Writes writer.old writer.new (texts (condition_text (catalogue_of catalogue.now) (entries_waiting state.now w.now) state.now.used.waiting) (counts_of catalogue.now).conditions) }
{
    if state.used.waiting == 0 {
        return;
    }
    let mut chains = Chains::new(state.used.waiting as u16);
    chains.link_entries(catalogue, state, w);
    chained_lines(writer, catalogue, state, w, &chains);
}

// ---- the whole

// Variables, clauses, owners and names.
fn first_half(writer: &mut Writer, catalogue: &Catalogue, state: &StateRef, clauses: &[u8])
    requires mapped { IsMappedAt state.now }
    requires good_rows { HasGoodRows (catalogue_of catalogue.now) state.now clauses.now }
    ensures { Writes writer.old writer.new (first_half (catalogue_of catalogue.now) state.now.used (regions_at state.now) clauses.now) }
{
    state_lines::variable_lines(writer, state);
    clause_lines::clause_lines(writer, catalogue, state, clauses);
    state_lines::owner_lines(writer, state);
    state_lines::name_lines(writer, state);
}

// Conflicts and asserted variables.
fn clause_notes(writer: &mut Writer, catalogue: &Catalogue, state: &StateRef, clauses: &[u8])
    requires good_rows { HasGoodRows (catalogue_of catalogue.now) state.now clauses.now }
    ensures { Writes writer.old writer.new (clause_notes (catalogue_of catalogue.now) state.now.used (regions_at state.now) clauses.now) }
{
    state_lines::conflict_lines(writer, clauses, state.used.clauses);
    clause_lines::assertion_lines(writer, catalogue, state, clauses);
}

// Decisions and waiting entries.
fn state_notes(writer: &mut Writer, catalogue: &Catalogue, state: &StateRef, w: &[u8])
    requires decisions_le_variables { state.now.used.decisions ≤ state.now.limits.variables }
    requires long { Long state.now.limits (length w.now) × (state.now.used.waiting ≤ state.now.limits.waiting) }
    requires all_given { AllGiven (catalogue_of catalogue.now) (entries_waiting state.now w.now) }
    ensures { Writes writer.old writer.new (state_notes (catalogue_of catalogue.now) (counts_of catalogue.now).conditions state.now.limits state.now.used (regions_at state.now) w.now) }
{
    state_lines::decision_lines(writer, state);
    waiting_lines(writer, catalogue, state, w);
}

fn second_half(
    writer: &mut Writer,
    catalogue: &Catalogue,
    state: &StateRef,
    clauses: &[u8],
    w: &[u8],
)
    requires good_rows { HasGoodRows (catalogue_of catalogue.now) state.now clauses.now }
    requires decisions_le_variables { state.now.used.decisions ≤ state.now.limits.variables }
    requires long { Long state.now.limits (length w.now) × (state.now.used.waiting ≤ state.now.limits.waiting) }
    requires all_given { AllGiven (catalogue_of catalogue.now) (entries_waiting state.now w.now) }
    ensures { Writes writer.old writer.new (second_half (catalogue_of catalogue.now) (counts_of catalogue.now).conditions state.now.limits state.now.used (regions_at state.now) clauses.now w.now) }
{
    clause_notes(writer, catalogue, state, clauses);
    state_notes(writer, catalogue, state, w);
}

// Writes the listing into `out`, as far as `room` goes; its length, or one more than `room` if it is longer than that.
pub fn write(
    catalogue: &Catalogue,
    state: &StateRef,
    clauses: &[u8],
    w: &[u8],
    out: &mut [u8],
    room: usize,
) -> usize
    requires addressable { Addressable room }
    requires long_enough { LongEnough state.now.limits (length clauses.now) (length w.now) }
    requires good { Good (catalogue_of catalogue.now) state.now.limits state.now.used (regions_at state.now) clauses.now w.now }
    requires all_given { AllGiven (catalogue_of catalogue.now) (entries_waiting state.now w.now) }
    ensures { IsListed (catalogue_of catalogue.now) state.now clauses.now w.now room result out.old out.new }
{
    let mut writer = Writer::new(out, room);
    first_half(&mut writer, catalogue, state, clauses);
    second_half(&mut writer, catalogue, state, clauses, w);
    writer.at
}
