// The disjuncts of one requirement: some of them by index, and a flag for each.
ghost use Rattle.std.specs.Prelude.{◌≡◌, [], ◌∷◌, ◌++◌, ◌<◌, ◌≤◌};
ghost use Rattle.rules.specs.Lists.{filter, up_to};

// Some disjuncts of one requirement, by index: the first `len`.
#[derive(Clone, Copy)]
pub struct Indices {
    // Kept: fixed memory: a condition has at most 64 disjuncts.
    pub at: [u16; 64],
    pub len: usize,
    pub ghost bounded: { len ≤ 64 },
}

impl Indices {
    ghost use Rattle.firing.specs.Firing.{indices_in, Lists};

    // None.
    pub fn new() -> Indices
        ensures { Lists result [] }
    {
        Indices {
            at: [0; 64],
            len: 0,
        }
    }

    // One more.
    pub fn push(&mut self, index: u16)
        requires { self.old.len < 64 }
        ensures { Lists self.new (indices_in self.old ++ (index ∷ [])) }
    {
        self.at[self.len] = index;
        self.len += 1;
    }

    #[tactic(auto, unfolding(crate::specs::Firing::indices_in))]
    pub fn as_slice(&self) -> &[u16]
        ensures { result.now ≡ indices_in self.now }
    {
        &self.at[..self.len]
    }
}

// Which disjuncts of a requirement hold: a flag for each of the first `count`.
#[derive(Clone, Copy)]
pub struct Judgement {
    // Kept: fixed memory: a condition has at most 64 disjuncts.
    pub flags: [bool; 64],
    pub count: usize,
    pub ghost bounded: { count ≤ 64 },
}

impl Judgement {
    ghost use Rattle.firing.specs.Firing.{flagging, Lists};

    // Those that hold, or those that do not.
    pub fn flagged(&self, holds: bool) -> Indices
        ensures { Lists result (filter (flagging self.now.flags holds) (up_to 0 self.now.count)) }
    {
        let mut indices = Indices::new();
        for i in 0..self.count {
            if self.flags[i] == holds {
                indices.push(i as u16);
            }
        }
        indices
    }
}
