// Members of ranges: a bit for each of 512 ranges and 1,024 parts in a lent area of bytes.
#![tactic(auto)]

ghost use Rattle.std.specs.Prelude.{◌≡◌, ◌+◌, ◌*◌, ◌^◌, ◌<◌, ◌≤◌, length};
ghost use Rattle.rules.specs.AtMostOne.{bit};
ghost use Rattle.marks.specs.Marks.{NextMember, EndOfMembers, is_marked, WithBit, Marked, Cleared};

// 2 to the power j.
fn power_of(j: usize) -> u8
    requires { j < 8 }
    ensures { result ≡ 2 ^ j }
{
    1 << j
}

// Is bit j of a byte set?
fn has(x: u8, j: usize) -> bool
    requires { j < 8 }
    ensures { result ≡ bit j x }
{
    (x >> j) % 2 == 1
}

// A byte with bit j set.
fn with_bit(x: u8, j: usize) -> u8
    requires { j < 8 }
    ensures { WithBit j x result }
{
    if has(x, j) {
        return x;
    }
    x + power_of(j)
}

// The bits in a lent area that has room for them all.
#[derive(Clone, Copy)]
pub struct Marks<'a> {
    pub area: &'a [u8],
    pub ghost room: { 65536 ≤ length area.now },
}

impl Marks<'_> {
    // Is part p a member of range r?
    pub fn marked(&self, r: usize, p: usize) -> bool
        requires { r < 512 }
        ensures { result ≡ is_marked self.now.area.now r p }
    {
        if p < 1024 {
            has(self.area[r * 128 + p / 8], p % 8)
        } else {
            false
        }
    }

    // The first member of range r from `from` on, of the parts below `to`; or `to`. Eight parts without a member are passed at once.
    pub fn next(&self, r: usize, from: usize, to: usize) -> usize
        requires { (r < 512) × (from ≤ to) × (to ≤ 1024) }
        ensures { NextMember self.now.area.now r from to result }
    {
        // Kept: no plainer: a step is one part or the rest of a byte, so no `for` counts it.
        let mut p = from;
        while p < to {
            let x = self.area[r * 128 + p / 8];
            if x == 0 {
                p = p + 8 - p % 8;
            } else {
                if has(x, p % 8) {
                    return p;
                }
                p += 1;
            }
        }
        to
    }

    // One behind the last member of range r, of the parts below `to`; or 0.
    pub fn end(&self, r: usize, to: usize) -> usize
        requires { (r < 512) × (to ≤ 1024) }
        ensures { EndOfMembers self.now.area.now r to result }
    {
        // Kept: no plainer: as in `next`, downwards.
        let mut p = to;
        while 0 < p {
            let q = p - 1;
            let x = self.area[r * 128 + q / 8];
            if x == 0 {
                p = q - q % 8;
            } else {
                if has(x, q % 8) {
                    return p;
                }
                p = q;
            }
        }
        0
    }
}

// The same area, to be written.
#[derive(Drop)]
pub struct MarksMut<'a> {
    pub area: &'a mut [u8],
    pub ghost room: { 65536 ≤ length area.now },
}

impl MarksMut<'_> {
    // The same bits, to be read.
    pub fn as_marks(&self) -> Marks<'_>
        ensures { result.area.now ≡ self.now.area.now }
    {
        Marks { area: self.area }
    }

    // Part p becomes a member of range r.
    pub fn mark(&mut self, r: usize, p: usize)
        requires { (r < 512) × (p < 1024) }
        ensures marked { Marked self.old.area.now self.new.area.now r p }
        ensures same_area { self.new.area.ghost_name ≡ self.old.area.ghost_name }
    {
        let at = r * 128 + p / 8;
        self.area[at] = with_bit(self.area[at], p % 8);
    }

    // Range r has no member.
    pub fn clear_row(&mut self, r: usize)
        requires { r < 512 }
        ensures cleared { Cleared self.old.area.now self.new.area.now r }
        ensures same_area { self.new.area.ghost_name ≡ self.old.area.ghost_name }
    {
        let from = r * 128;
        let to = from + 128;
        self.area[from..to].fill(0);
    }
}
