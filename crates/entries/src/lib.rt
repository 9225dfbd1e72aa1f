// Waiting and drawn entries in a lent area of their own. Callers see two lists, and not how they lie in the area. A draw drains those that wait as a lent list of records (deferred.rt).
#![tactic(auto)]

mod deferred;

ghost use Rattle.std.specs.Prelude.{◌≡◌, ◌+◌, ◌*◌, ◌<◌, ◌≤◌, length, get_or};
ghost use Rattle.entries.specs.Entries.{no_entry, entry_of, Long, row_at_index, RowSet, waiting_in, drawn_in, PushedWaiting, PushedDrawn};
ghost use Rattle.entries.specs.Deferred.{DrawnAt, DrawnAll, Stored, Drawn};

use state::Limits;

// A requirement and the index of one of its disjuncts.
#[derive(Clone, Copy)]
pub struct Entry {
    pub requirement: u16,
    pub disjunct: u16,
}

// How many entries wait and are drawn after a draw.
#[derive(Clone, Copy)]
pub struct Counts {
    pub kept: usize,
    pub drawn: usize,
}

#[tactic(auto, using(crate::proofs::Laws::row_is))]
fn row_at(w: &[u8], at: usize) -> Entry
    requires { (at < 4096) × (4 * at + 3 < length w.now) }
    ensures { entry_of result ≡ row_at_index w.now at }
{
    let requirement = words::get(w, 2 * at);
    let disjunct = words::get(w, 2 * at + 1);
    Entry {
        requirement,
        disjunct,
    }
}

fn set_row(w: &mut [u8], at: usize, e: Entry)
    requires { (at < 4096) × (4 * at + 3 < length w.old) }
    ensures { RowSet at (entry_of e) w.old w.new }
{
    words::put(w, 2 * at, e.requirement);
    words::put(w, 2 * at + 1, e.disjunct);
}

// Entry i of the n that wait.
#[tactic(auto, using(crate::proofs::Laws::waiting_is))]
pub fn waiting_at(w: &[u8], l: Limits, n: usize, i: usize) -> Entry
    requires { Long l (length w.now) × (n ≤ l.waiting) × (i < n) }
    ensures { entry_of result ≡ get_or (waiting_in l n w.now) i no_entry }
{
    row_at(w, i)
}

// Entry i of the n that were drawn.
#[tactic(auto, using(crate::proofs::Laws::drawn_is))]
pub fn drawn_at(w: &[u8], l: Limits, n: usize, i: usize) -> Entry
    requires { Long l (length w.now) × (n ≤ l.waiting) × (i < n) }
    ensures { entry_of result ≡ get_or (drawn_in l n w.now) i no_entry }
{
    row_at(w, l.waiting + i)
}

// One more waits.
pub fn push_waiting(w: &mut [u8], l: Limits, n: usize, e: Entry) -> usize
    requires { Long l (length w.old) × (n < l.waiting) }
    ensures { PushedWaiting l n (entry_of e) w.old result w.new }
{
    set_row(w, n, e);
    n + 1
}

// One more is drawn.
pub fn push_drawn(w: &mut [u8], l: Limits, n: usize, e: Entry) -> usize
    requires { Long l (length w.old) × (n < l.waiting) }
    ensures { PushedDrawn l n (entry_of e) w.old result w.new }
{
    set_row(w, l.waiting + n, e);
    n + 1
}

// Of n that wait, the one at place i is drawn where it is held.
#[tactic(auto, using(crate::proofs::Drain::free_stays, crate::proofs::Drain::held_drawn))]
fn draw_held(w: &mut [u8], held: &[bool], l: Limits, n: usize, drawn: usize, i: usize) -> usize
    requires { Long l (length w.old) × (n ≤ l.waiting) × (i < n) × (drawn < l.waiting) × (i < length held.now) }
    ensures { DrawnAt l held.now n i drawn w.old result w.new }
{
    if !held[i] {
        return drawn;
    }
    let e = waiting_at(w, l, n, i);
    push_drawn(w, l, drawn, e)
}

// Of n that wait, those that are held are drawn, in order. They still wait.
#[tactic(auto, using(crate::proofs::Drain::drawing_start, crate::proofs::Drain::drawing_step, crate::proofs::Drain::drawing_end))]
fn draw_all(w: &mut [u8], held: &[bool], l: Limits, n: usize, drawn: usize) -> usize
    requires { Long l (length w.old) × (n + drawn ≤ l.waiting) × (n ≤ length held.now) }
    ensures { DrawnAll l held.now n drawn w.old result w.new }
{
    let mut r = drawn;
    for i in 0..n {
        r = draw_held(w, held, l, n, r, i);
    }
    r
}

// The records wait, and no others.
#[tactic(auto, using(crate::proofs::Drain::storing_start, crate::proofs::Drain::storing_step, crate::proofs::Drain::storing_end))]
fn store(w: &mut [u8], l: Limits, records: &[Entry])
    requires { Long l (length w.old) × (length records.now ≤ l.waiting) }
    ensures { Stored l records.now w.old w.new }
{
    for (i, e) in records.iter().enumerate() {
        push_waiting(w, l, i, *e);
    }
}

// Of n that wait, those that are held are drawn, and the others are left, both in order.
pub fn draw(w: &mut [u8], held: &[bool], l: Limits, n: usize, drawn: usize) -> Counts
    requires { Long l (length w.old) × (n + drawn ≤ l.waiting) × (n ≤ length held.now) }
    ensures { Drawn l held.now n drawn w.old result.kept result.drawn w.new }
{
    let more = draw_all(w, held, l, n, drawn);
    if more == drawn {
        return Counts { kept: n, drawn };
    }
    let mut records = [Entry {
        requirement: 0,
        disjunct: 0,
    }; 2048];
    let kept = deferred::remaining(&mut records, w, held, n);
    store(w, l, &records[..kept]);
    Counts { kept, drawn: more }
}
