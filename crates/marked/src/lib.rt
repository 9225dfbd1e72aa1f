// Lists with marks in the state area: the list in one region, and in another a mark for each number that is listed.
#![tactic(auto)]

ghost use Rattle.std.specs.Prelude.{◌≡◌, ◌<◌, length, get_or};
ghost use Rattle.state.specs.Layout.{region_number, held, Fits};
ghost use Rattle.marked.specs.Marked.{list_of, marks_of, listed, is_marked, Marked, Free, Pushed, Emptied};

use state::{Limits, Region};

// The number that stands for the root in the lists of owners; a part has its own.
pub const ROOT: u16 = 1024;

// The lists that have marks.
#[derive(Clone, Copy)]
pub enum MarkedList {
    Owners,
    Names,
    Added,
    Named,
    Tracked,
    // Their marks are those of the ranges.
    Candidates,
}

impl MarkedList {
    fn numbers(self) -> Region
        ensures { region_number result ≡ list_of self }
    {
        match self {
            MarkedList::Owners => Region::Owners,
            MarkedList::Names => Region::Names,
            MarkedList::Added => Region::Added,
            MarkedList::Named => Region::Named,
            MarkedList::Tracked => Region::Tracked,
            MarkedList::Candidates => Region::Candidates,
        }
    }

    fn marks(self) -> Region
        ensures { region_number result ≡ marks_of self }
    {
        match self {
            MarkedList::Owners => Region::OwnerMarks,
            MarkedList::Names => Region::NameMarks,
            MarkedList::Added => Region::AddedMarks,
            MarkedList::Named => Region::NamedMarks,
            MarkedList::Tracked => Region::TrackedMarks,
            MarkedList::Candidates => Region::RangeMarks,
        }
    }
}

// Is x listed?
#[tactic(auto, using(crate::proofs::Laws::contains_is))]
pub fn contains(s: &[u8], l: Limits, list: MarkedList, x: u16) -> bool
    requires { Fits l (length s.now) }
    ensures { result ≡ is_marked (marks_of list) x (held l s.now) }
{
    state::get(s, l, list.marks(), x as usize) == 1
}

// Place i of the n listed numbers.
#[tactic(auto, using(crate::proofs::Laws::at_is))]
pub fn at(s: &[u8], l: Limits, list: MarkedList, n: usize, i: usize) -> u16
    requires { Fits l (length s.now) × (i < n) }
    ensures { result ≡ get_or (listed n (list_of list) (held l s.now)) i 0 }
{
    state::get(s, l, list.numbers(), i)
}

// x becomes the last of the list.
pub fn push(s: &mut [u8], l: Limits, list: MarkedList, n: usize, x: u16) -> usize
    requires { Fits l (length s.old) × Free (list_of list) (marks_of list) n x (held l s.old) }
    ensures { Pushed (list_of list) (marks_of list) n x (held l s.old) result (held l s.new) }
{
    state::set(s, l, list.numbers(), n, x);
    state::set(s, l, list.marks(), x as usize, 1);
    n + 1
}

// The list is empty, and no number has a mark.
#[tactic(auto, using(crate::proofs::Laws::clear_start, crate::proofs::Laws::clear_step))]
pub fn clear(s: &mut [u8], l: Limits, list: MarkedList, n: usize)
    requires { Fits l (length s.old) × Marked (list_of list) (marks_of list) n (held l s.old) }
    ensures { Emptied (list_of list) (marks_of list) (held l s.old) (held l s.new) }
{
    for i in 0..n {
        let x = state::get(s, l, list.numbers(), i);
        state::set(s, l, list.marks(), x as usize, 0);
    }
}
