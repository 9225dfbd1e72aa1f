// Parts of a lent area.
#![tactic(auto)]

ghost use Rattle.std.specs.Prelude.{◌≡◌, ◌+◌, ◌*◌, ◌<◌, ◌≤◌, length, get_or};
ghost use Rattle.words.specs.Words.{words};
ghost use Rattle.regions.specs.Regions.{part, set_in};

// A part starts at number `start` and has `size` numbers. Past its end nothing is read or stored.
#[derive(Clone, Copy)]
pub struct Part {
    pub start: usize,
    pub size: usize,
}

impl Part {
    #[tactic(auto, using(crate::proofs::Laws::at_in, crate::proofs::Laws::at_past))]
    pub fn at(self, m: &[u8], i: usize) -> u16
        requires { (self.start + self.size) * 2 ≤ length m.now }
        ensures { result ≡ get_or (part self.start self.size (words m.now)) i 0 }
    {
        if i < self.size {
            words::get(m, self.start + i)
        } else {
            0
        }
    }

    #[tactic(auto, using(crate::proofs::Laws::put_in, crate::proofs::Laws::put_past))]
    pub fn put(self, m: &mut [u8], i: usize, v: u16)
        requires { (self.start + self.size) * 2 ≤ length m.old }
        ensures { words m.new ≡ set_in (words m.old) self.start self.size i v }
    {
        if i < self.size {
            words::put(m, self.start + i, v);
        }
    }
}
