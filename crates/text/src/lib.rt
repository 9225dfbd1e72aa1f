// The listing's bytes, written into a lent area: fields, numbers, words. The same writer serves the pass that only measures.
#![tactic(auto)]

ghost use Rattle.std.specs.Prelude.{◌≡◌, ◌∷◌, [], ◌++◌, ◌+◌, ◌<◌, ◌≤◌, ltb, length};
ghost use Rattle.rules.specs.Listing.{decimal, signed};
ghost use Rattle.text.specs.Text.{Addressable, literal_of, copied};

// `room` is the length of the listing's area, which `out` is or an empty area in its place; `at` is the place of the next byte.
// Once the bytes no longer fit, the place is room + 1, nothing more is written, and the place stays.
#[derive(Drop)]
pub struct Writer<'a> {
    pub out: &'a mut [u8],
    pub room: usize,
    pub at: usize,
    ghost addressable: { Addressable room },
}

// How many digits a number has.
fn width(n: usize) -> usize
    ensures { result ≡ length (decimal n) }
{
    n.max(1).ilog10() as usize + 1
}

// The digits of a number, the last one first.
fn digits(out: &mut [u8], n: usize)
    requires { length out.old ≡ length (decimal n) }
    ensures { out.new ≡ decimal n }
{
    let mut left = n;
    for i in (0..out.len()).rev() {
        out[i] = (48 + left % 10) as u8;
        left /= 10;
    }
}

// The bytes of `from`, into a place of their length. Byte by byte: so the archive for C needs no `memmove`.
fn copy_bytes(to: &mut [u8], from: &[u8])
    requires { length to.old ≡ length from.now }
    ensures { to.new ≡ from.now }
{
    for i in 0..from.len() {
        to[i] = from[i];
    }
}

// The n bytes from place `begin` on, once more at place `at`, as far as the area reaches.
fn copy(out: &mut [u8], begin: usize, n: usize, at: usize)
    requires { begin + n ≤ at }
    ensures { out.new ≡ copied out.old begin n at }
{
    if at < out.len() {
        let (written, free) = out.split_at_mut(at);
        let most = n.min(free.len());
        copy_bytes(&mut free[..most], &written[begin..begin + most]);
    }
}

impl<'a> Writer<'a> {
    ghost use Rattle.text.specs.Writing.{Writes, Repeats};

    pub fn new(out: &'a mut [u8], room: usize) -> Writer<'a>
        requires { Addressable room }
        ensures area { result.out.now ≡ out.old }
        ensures same_reference { result.out.ghost_name ≡ out.entry.ghost_name }
        ensures room { result.room ≡ room }
        ensures start { result.at ≡ 0 }
    {
        Writer { out, room, at: 0 }
    }

    // The bytes up to here do not fit.
    pub fn is_over(&self) -> bool
        ensures { result ≡ ltb self.now.room self.now.at }
    {
        self.room < self.at
    }

    // One byte.
    pub fn put(&mut self, byte: u8)
        ensures { Writes self.old self.new (byte ∷ []) }
    {
        if self.is_over() {
            return;
        }
        if self.at < self.room && self.at < self.out.len() {
            self.out[self.at] = byte;
        }
        self.at += 1;
    }

    // The bytes of a word. Where they fit they need no test each; while measuring they are only counted.
    pub fn word(&mut self, bytes: &[u8])
        ensures { Writes self.old self.new bytes.now }
    {
        let end = self.at.saturating_add(bytes.len());
        let length = self.out.len();
        if end <= self.room.min(length) {
            copy_bytes(&mut self.out[self.at..end], bytes);
            self.at = end;
        } else if end <= self.room && length == 0 {
            self.at = end;
        } else {
            self.byte_by_byte(bytes);
        }
    }

    fn byte_by_byte(&mut self, bytes: &[u8])
        ensures { Writes self.old self.new bytes.now }
    {
        for byte in bytes {
            self.put(*byte);
        }
    }

    // A number in decimal.
    pub fn decimal(&mut self, n: usize)
        ensures { Writes self.old self.new (decimal n) }
    {
        self.number_behind(b"", n);
    }

    pub fn space(&mut self)
        ensures { Writes self.old self.new (32 ∷ []) }
    {
        self.put(b' ');
    }

    pub fn line_feed(&mut self)
        ensures { Writes self.old self.new (10 ∷ []) }
    {
        self.put(b'\n');
    }

    // A space and a number.
    pub fn field_number(&mut self, n: usize)
        ensures { Writes self.old self.new (32 ∷ decimal n) }
    {
        self.number_behind(b" ", n);
    }

    // A space and a word.
    pub fn field_word(&mut self, bytes: &[u8])
        ensures { Writes self.old self.new (32 ∷ bytes.now) }
    {
        self.space();
        self.word(bytes);
    }

    // A space, a sign and a variable.
    pub fn field_literal(&mut self, variable: usize, positive: bool)
        ensures { Writes self.old self.new (32 ∷ signed (literal_of variable positive)) }
    {
        let lead = if positive { b" +" } else { b" -" };
        self.number_behind(lead, variable);
    }

    // The n bytes from place `begin` on, once more, if they fit; while measuring there are none, and they are only counted.
    pub fn repeat(&mut self, begin: usize, n: usize) -> bool
        requires { begin + n ≤ self.old.at }
        ensures { Repeats self.old self.new begin n result }
    {
        let end = self.at.saturating_add(n);
        if self.room < end {
            return false;
        }
        copy(self.out, begin, n, self.at);
        self.at = end;
        true
    }

    // A few bytes and a number. Where they fit they need no test each; while measuring they are only counted.
    // Inlined, so that their number is known.
    #[inline(always)]
    fn number_behind(&mut self, lead: &[u8], n: usize)
        ensures { Writes self.old self.new (lead.now ++ decimal n) }
    {
        let number = self.at.saturating_add(lead.len());
        let end = number.saturating_add(width(n));
        let length = self.out.len();
        if end <= self.room.min(length) {
            self.out[self.at..number].copy_from_slice(lead);
            digits(&mut self.out[number..end], n);
            self.at = end;
        } else if end <= self.room && length == 0 {
            self.at = end;
        } else {
            self.byte_by_byte(lead);
            self.digit_by_digit(n);
        }
    }

    fn digit_by_digit(&mut self, n: usize)
        ensures { Writes self.old self.new (decimal n) }
    {
        if n < 10 {
            self.put((48 + n) as u8);
        } else {
            self.digit_by_digit(n / 10);
            self.put((48 + n % 10) as u8);
        }
    }
}
