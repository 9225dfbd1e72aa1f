// Members of unions in a lent area of bytes: a row of two numbers for each, in order of arrival. The first is union * 512 + range;
// the second is left for the place of the next row in a chain.
#![tactic(auto)]

ghost use Rattle.std.specs.Prelude.{◌≡◌, ◌+◌, ◌*◌, ◌<◌, ◌≤◌, length, get_or, set};
ghost use Rattle.words.specs.Words.{words};
ghost use Rattle.unions.specs.Unions.{no_row, rows, row_of, pushed, NextOf};

// Ranges are numbered below this.
const RANGES: u16 = 512;

#[derive(Clone, Copy)]
pub struct Member {
    pub union: u16,
    pub range: u16,
}

// The rows in a lent area that has room for 13,107.
#[derive(Clone, Copy)]
pub struct Members<'a> {
    pub area: &'a [u8],
    pub count: usize,
    pub ghost bounded: { count ≤ 13107 },
    pub ghost room: { 52428 ≤ length area.now },
}

impl Members<'_> {
    ghost use Rattle.unions.specs.Views.{rows_in};

    // Row i; past the rows one of zeros.
    pub fn at(&self, i: usize) -> Member
        ensures { row_of result ≡ get_or (rows_in self.now) i no_row }
    {
        if i < self.count {
            let both = words::get(self.area, 2 * i);
            Member {
                union: both / RANGES,
                range: both % RANGES,
            }
        } else {
            Member { union: 0, range: 0 }
        }
    }

    // The link of row i.
    pub fn next(&self, i: usize) -> u16
        requires { i < 13107 }
        ensures { result ≡ get_or (words self.now.area.now) (2 * i + 1) 0 }
    {
        words::get(self.area, 2 * i + 1)
    }

    // The first row of a union from row `from` on, or how many rows there are.
    pub fn next_of(&self, union: u16, from: usize) -> usize
        requires { from ≤ self.now.count }
        ensures { NextOf self.now.count (rows_in self.now) union from result }
    {
        for i in from..self.count {
            if words::get(self.area, 2 * i) / RANGES == union {
                return i;
            }
        }
        self.count
    }
}

// The same area, to be written.
#[derive(Drop)]
pub struct MembersMut<'a> {
    pub area: &'a mut [u8],
    pub count: usize,
    pub ghost bounded: { count ≤ 13107 },
    pub ghost room: { 52428 ≤ length area.now },
}

impl MembersMut<'_> {
    ghost use Rattle.unions.specs.Views.{rows_in_mut};

    // The same rows, to be read.
    pub fn as_members(&self) -> Members<'_>
        ensures count { result.count ≡ self.now.count }
        ensures area { result.area.now ≡ self.now.area.now }
    {
        Members {
            area: self.area,
            count: self.count,
        }
    }

    // One row more.
    pub fn push(&mut self, member: Member)
        requires { (self.old.count < 13107) × (member.union < 128) × (member.range < 512) }
        ensures count { self.new.count ≡ self.old.count + 1 }
        ensures pushed { rows_in_mut self.new ≡ pushed (rows_in_mut self.old) (row_of member) }
        ensures same_area { self.new.area.ghost_name ≡ self.old.area.ghost_name }
    {
        words::put(
            self.area,
            2 * self.count,
            member.union * RANGES + member.range,
        );
        self.count += 1;
    }

    // Row i is linked to a row; no row changes.
    pub fn set_next(&mut self, i: usize, next: u16)
        requires { i < 13107 }
        ensures linked { words self.new.area.now ≡ set (words self.old.area.now) (2 * i + 1) next }
        ensures count { self.new.count ≡ self.old.count }
        ensures same_area { self.new.area.ghost_name ≡ self.old.area.ghost_name }
    {
        words::put(self.area, 2 * i + 1, next);
    }
}
