// The chains of the waiting entries by condition, so that each condition's lines are found without a look at the other entries.
ghost use Rattle.std.specs.Prelude.{◌≡◌, ◌+◌, ◌<◌, ◌≤◌, length, get_or, set, replicate};
ghost use Rattle.entries.specs.Entries.{Long};
ghost use Rattle.goals.specs.Goals.{AllGiven};
ghost use Rattle.line_fields.specs.Listed.{entries_waiting};
ghost use Rattle.listing.specs.Chains.{Key, Linked};
ghost use Rattle.index.specs.Views.{catalogue_of, counts_of};

use encoder::StateRef;
use index::Catalogue;

// For each condition its first entry, and for each entry the next one of the same condition. The number of entries ends a chain.
#[derive(Drop)]
pub struct Chains {
    pub heads: [u16; 256],
    pub links: [u16; 2048],
}

// The condition of entry i.
fn key(catalogue: &Catalogue, state: &StateRef, w: &[u8], i: usize) -> usize
    requires long { Long state.now.limits (length w.now) × (state.now.used.waiting ≤ state.now.limits.waiting) }
    requires all_given { AllGiven (catalogue_of catalogue.now) (entries_waiting state.now w.now) }
    requires i_lt_waiting { i < state.now.used.waiting }
    ensures { Key (catalogue_of catalogue.now) (entries_waiting state.now w.now) (counts_of catalogue.now).conditions i result }
{
    let entry = entries::waiting_at(w, state.limits, state.used.waiting, i);
    let requirement = catalogue
        .index
        .areas
        .tables
        .requirement_at(entry.requirement as usize);
    requirement.condition.unwrap() as usize
}

impl Chains {
    // No condition has an entry yet.
    pub fn new(entries: u16) -> Chains
        ensures { (result.heads ≡ replicate 256 entries) × (result.links ≡ replicate 2048 0) }
    {
        Chains {
            heads: [entries; 256],
            links: [0; 2048],
        }
    }

    // Entry i goes before those that the head of condition c leads to.
    fn link(&mut self, c: usize, i: usize)
        requires { (c < 256) × (i < 2048) }
        ensures { (self.new.links ≡ set self.old.links i (get_or self.old.heads c 0)) × (self.new.heads ≡ set self.old.heads c i) }
    {
        self.links[i] = self.heads[c];
        self.heads[c] = i as u16;
    }

    // Entry i, those behind it being linked.
    fn link_entry(&mut self, catalogue: &Catalogue, state: &StateRef, w: &[u8], i: usize)
        requires long { Long state.now.limits (length w.now) × (state.now.used.waiting ≤ state.now.limits.waiting) }
        requires all_given { AllGiven (catalogue_of catalogue.now) (entries_waiting state.now w.now) }
        requires linked { Linked (catalogue_of catalogue.now) (entries_waiting state.now w.now) state.now.used.waiting (counts_of catalogue.now).conditions (i + 1) self.old.heads self.old.links × (i < state.now.used.waiting) }
        ensures { Linked (catalogue_of catalogue.now) (entries_waiting state.now w.now) state.now.used.waiting (counts_of catalogue.now).conditions i self.new.heads self.new.links }
    {
        let c = key(catalogue, state, w, i);
        self.link(c, i);
    }

    // All of them, no condition having an entry yet.
    pub fn link_entries(&mut self, catalogue: &Catalogue, state: &StateRef, w: &[u8])
        requires long { Long state.now.limits (length w.now) × (state.now.used.waiting ≤ state.now.limits.waiting) }
        requires all_given { AllGiven (catalogue_of catalogue.now) (entries_waiting state.now w.now) }
        requires heads_value { (self.old.heads ≡ replicate 256 state.now.used.waiting) × (self.old.links ≡ replicate 2048 0) }
        ensures { Linked (catalogue_of catalogue.now) (entries_waiting state.now w.now) state.now.used.waiting (counts_of catalogue.now).conditions 0 self.new.heads self.new.links }
    {
        for i in (0..state.used.waiting).rev() {
            self.link_entry(catalogue, state, w, i);
        }
    }

    // The first entry of condition c, or how many entries there are.
    pub fn first(&self, c: usize) -> usize
        requires { c < 256 }
        ensures { result ≡ get_or self.now.heads c 0 }
    {
        self.heads[c] as usize
    }

    // The next one behind entry i.
    pub fn next(&self, i: usize) -> usize
        requires { i < 2048 }
        ensures { result ≡ get_or self.now.links i 0 }
    {
        self.links[i] as usize
    }
}
