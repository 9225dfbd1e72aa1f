// Literals, after clause.rs: a variable with a sign, in one number.
#![tactic(auto)]

ghost use Rattle.std.specs.Prelude.{◌≡◌, Bool, ◌+◌, ◌*◌, ◌<◌, ◌≤◌};
ghost use Rattle.rules.specs.Literal.{opposite};
ghost use Rattle.clause.specs.Literals.{literal_of, signed, held};

// Twice the variable, and one more where the sign is negative.
#[derive(Clone, Copy)]
pub struct Literal {
    pub code: u16,
}

impl Literal {
    #[tactic(auto, using(crate::proofs::Laws::new_positive, crate::proofs::Laws::new_negative))]
    pub fn new(variable: u16, positive: bool) -> Self
        requires { variable < 32768 }
        ensures { literal_of result ≡ signed variable positive }
    {
        if positive {
            Literal { code: 2 * variable }
        } else {
            Literal {
                code: 2 * variable + 1,
            }
        }
    }

    #[tactic(auto, unfolding(crate::specs::Literals::literal_of, crate::specs::Literals::signed))]
    pub fn variable(self) -> u16
        ensures { result ≡ (literal_of self).variable }
    {
        self.code / 2
    }

    #[tactic(auto, unfolding(crate::specs::Literals::literal_of, crate::specs::Literals::signed))]
    pub fn positive(self) -> bool
        ensures { result ≡ (literal_of self).positive }
    {
        self.code % 2 == 0
    }

    #[tactic(auto, using(crate::proofs::Laws::negate_positive, crate::proofs::Laws::negate_negative))]
    pub fn negate(self) -> Self
        ensures { literal_of result ≡ opposite (literal_of self) }
    {
        let code = self.code;
        if code % 2 == 0 {
            Literal { code: code + 1 }
        } else {
            Literal { code: code - 1 }
        }
    }

    // The literal against what its variable was decided to be, if it was.
    #[tactic(auto, unfolding(crate::specs::Literals::held))]
    pub fn eval(self, value: Option<bool>) -> Option<bool>
        ensures { result ≡ held (literal_of self) value }
    {
        value.map(|v| v == self.positive())
    }
}
