// Chains through rows of the tables: where their numbers stand, and the walk along one.
ghost use Rattle.std.specs.Prelude.{◌≡◌, ℕ, ◌+◌, ◌<◌, ◌≤◌};
ghost use Rattle.words.specs.Words.{words};
ghost use Rattle.requirement.specs.Requirements.{OwnerOf};
ghost use Rattle.tables.specs.declared.Counts.{Counts};
ghost use Rattle.index.specs.Chains as specs;
ghost use Rattle.index.specs.Chains.{First, Linked, key_of, owner_row, parts_by_name, requirements_by_owner, constraints_by_owner};
ghost use Rattle.index.specs.Placed.{PlacedIn};
ghost use Rattle.index.specs.Places.{parts_placed, requirements_placed, constraints_placed};

use requirement::Owner;
use tables::{Counts, Tables};

// Where tables begin in the area, and how many numbers a row of them has. Rows of names, of ranges and of unions, and those of owners,
// have the heads of chains.
pub const NAME_ROW: usize = 6;

pub const PARTS: usize = 384;

pub const PART_ROW: usize = 5;

pub const OWNERS: usize = 5504;

pub const OWNER_ROW: usize = 4;

pub const RANGES: usize = 9604;

pub const RANGE_ROW: usize = 4;

pub const UNIONS: usize = 11652;

pub const UNION_ROW: usize = 3;

pub const REQUIREMENTS: usize = 13572;

pub const REQUIREMENT_ROW: usize = 6;

pub const CONSTRAINTS: usize = 19716;

pub const CONSTRAINT_ROW: usize = 3;

// Rows of one key, one after another: each key has a head, which leads to its first row, and each row a link, which leads to the next one.
pub trait Chain {
    ghost chain: { specs.Chain };

    ghost rows: { Counts → ℕ };

    ghost keys: { Counts → ℕ };

    // How many rows there are.
    fn rows(counts: Counts) -> usize
        ensures { result ≡ rows counts };

    // Keys are numbered below this.
    fn keys(counts: Counts) -> usize
        requires { counts.parts ≤ 1024 }
        ensures { result ≡ keys counts };

    // Where the key of row i stands.
    fn key_at(i: usize) -> usize
        requires { i ≤ 1024 }
        ensures { result ≡ chain.key_at i };

    // The key, of the number that stands there.
    fn key(number: u16) -> usize
        ensures { result ≡ chain.row number };

    // Where the first row of a key stands.
    fn head_at(key: usize) -> usize
        requires { key ≤ 1025 }
        ensures { result ≡ chain.head_at key };

    // Where the row behind row i stands.
    fn link_at(i: usize) -> usize
        requires { i ≤ 1024 }
        ensures { result ≡ chain.link_at i };

    ghost placed: { PlacedIn chain rows keys };
}

pub struct PartsByName;

impl Chain for PartsByName {
    ghost chain = { parts_by_name };

    ghost rows = { λ k. k.parts };

    ghost keys = { λ k. k.names };

    ghost placed = { parts_placed };

    fn rows(counts: Counts) -> usize {
        counts.parts
    }

    fn keys(counts: Counts) -> usize {
        counts.names
    }

    fn key_at(i: usize) -> usize {
        PARTS + PART_ROW * i
    }

    fn key(number: u16) -> usize {
        number as usize
    }

    fn head_at(key: usize) -> usize {
        NAME_ROW * key + 3
    }

    fn link_at(i: usize) -> usize {
        PARTS + PART_ROW * i + 4
    }
}

// The row of an owner's heads: the root's is the first, then each part's.
fn owner_row(number: u16) -> usize
    ensures { result ≡ owner_row number }
{
    match Owner::from(number) {
        Owner::Root => 0,
        Owner::Part(part) => part as usize + 1,
    }
}

pub struct RequirementsByOwner;

impl Chain for RequirementsByOwner {
    ghost chain = { requirements_by_owner };

    ghost rows = { λ k. k.requirements };

    ghost keys = { λ k. k.parts + 1 };

    ghost placed = { requirements_placed };

    fn rows(counts: Counts) -> usize {
        counts.requirements
    }

    fn keys(counts: Counts) -> usize {
        counts.parts + 1
    }

    fn key_at(i: usize) -> usize {
        REQUIREMENTS + REQUIREMENT_ROW * i
    }

    fn key(number: u16) -> usize {
        owner_row(number)
    }

    fn head_at(key: usize) -> usize {
        OWNERS + OWNER_ROW * key
    }

    fn link_at(i: usize) -> usize {
        REQUIREMENTS + REQUIREMENT_ROW * i + 4
    }
}

pub struct ConstraintsByOwner;

impl Chain for ConstraintsByOwner {
    ghost chain = { constraints_by_owner };

    ghost rows = { λ k. k.constraints };

    ghost keys = { λ k. k.parts + 1 };

    ghost placed = { constraints_placed };

    fn rows(counts: Counts) -> usize {
        counts.constraints
    }

    fn keys(counts: Counts) -> usize {
        counts.parts + 1
    }

    fn key_at(i: usize) -> usize {
        CONSTRAINTS + CONSTRAINT_ROW * i
    }

    fn key(number: u16) -> usize {
        owner_row(number)
    }

    fn head_at(key: usize) -> usize {
        OWNERS + OWNER_ROW * key + 2
    }

    fn link_at(i: usize) -> usize {
        CONSTRAINTS + CONSTRAINT_ROW * i + 2
    }
}

// The first row of a key, or how many rows there are.
pub fn first<C: Chain>(tables: &Tables, key: usize) -> usize
    requires { Linked C.chain (C.rows tables.now.counts) (C.keys tables.now.counts) 0 (words tables.now.area.now) }
    ensures { First (C.rows tables.now.counts) (key_of C.chain (words tables.now.area.now)) key 0 result }
{
    if key < C::keys(tables.counts) {
        words::get(tables.area, C::head_at(key)) as usize
    } else {
        0
    }
}

// The next one behind row i, which need not be of the key.
pub fn next<C: Chain>(tables: &Tables, key: usize, i: usize) -> usize
    requires linked { Linked C.chain (C.rows tables.now.counts) (C.keys tables.now.counts) 0 (words tables.now.area.now) }
    requires i_in_bounds { i < C.rows tables.now.counts }
    ensures { First (C.rows tables.now.counts) (key_of C.chain (words tables.now.area.now)) key (i + 1) result }
{
    if C::key(words::get(tables.area, C::key_at(i))) == key {
        words::get(tables.area, C::link_at(i)) as usize
    } else {
        i + 1
    }
}
