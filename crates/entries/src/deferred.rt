// Deferred entries as a lent list of records: one is pushed behind the others, and the held ones are drained, in order.
ghost use Rattle.std.specs.Prelude.{◌≡◌, ◌+◌, ◌*◌, ◌<◌, ◌≤◌, length, set, take};
ghost use Rattle.entries.specs.Deferred.{listed, free_records, free_rows};

use crate::Entry;

// Puts a record behind the first n, and says how many there are then.
pub fn push(es: &mut [Entry], n: usize, e: Entry) -> usize
    requires { n < length es.old }
    ensures { (result ≡ n + 1) × (es.new ≡ set es.old n e) }
{
    es[n] = e;
    n + 1
}

// Pushes the first n rows of the area.
#[tactic(auto, using(crate::proofs::Places::loading_start, crate::proofs::Places::loading_more, crate::proofs::Places::loaded))]
pub fn load(es: &mut [Entry], w: &[u8], n: usize)
    requires { (n ≤ length es.old) × ((n ≤ 2048) × (4 * n ≤ length w.now)) }
    ensures { take n es.new ≡ listed w.now n }
{
    for m in 0..n {
        let e = crate::row_at(w, m);
        push(es, m, e);
    }
}

// Of the first n, removes those that are held, and says how many are left. The others keep their order.
#[tactic(auto, using(crate::proofs::Places::draining_start, crate::proofs::Places::drained_all))]
pub fn drain(es: &mut [Entry], held: &[bool], n: usize) -> usize
    requires { (n ≤ length es.old) × (n ≤ length held.now) }
    ensures { (result ≤ n) × (take result es.new ≡ free_records held.now n es.old) }
{
    let mut to = 0;
    for i in 0..n {
        let free = !held[i];
        if free {
            let e = es[i];
            to = push(es, to, e);
        }
    }
    to
}

// Makes a list of the first n rows of the area but those that are held, in order, and says how many these are.
#[tactic(auto, using(crate::proofs::Places::loaded_drained))]
pub fn remaining(es: &mut [Entry], w: &[u8], held: &[bool], n: usize) -> usize
    requires { (n ≤ length es.old) × (n ≤ 2048) × (4 * n ≤ length w.now) × (n ≤ length held.now) }
    ensures { (result ≤ n) × (take result es.new ≡ free_rows held.now n w.now) }
{
    load(es, w, n);
    drain(es, held, n)
}
