ghost use Rattle.std.specs.Prelude.{◌≡◌, ℕ, ◌^◌, ◌+◌, ◌<◌, ◌≤◌};
ghost use Rattle.propositional_logic.specs.Literal.{Literal, negated, literal_eq};
ghost use Rattle.propositional_logic.specs.Codes.{code_of, decoded, code_of-decoded};
ghost use Rattle.propositional_logic.specs.Equality.{literal_eq-partial, literal_eq-equivalence, literal_eq-hashed, literal_writes};

use std::hash::{Hash, Hasher};
use std::marker::Model;

/// A variable, numbered from 1 to 2^30, or its negation. Seen by contracts as its variable and its sign. It is kept as one
/// number, so that a clause takes half the memory.
#[derive(Clone, Copy, Debug)]
pub struct Lit {
    code: u32,
}

impl Model for Lit {
    ghost Value = { Literal };

    ghost view = { λ l. decoded l.code };

    ghost invariant = { λ l. (2 ≤ l.code) × (l.code ≤ 2 ^ 31 + 1) };

    ghost inverse = { λ l. record { code = code_of l } };

    ghost inverse_ok = { λ l _ i. record { code = code_of-decoded l.code i } };
}

impl PartialEq for Lit {
    ghost eq = { literal_eq };

    ghost laws = { literal_eq-partial };

    fn eq(&self, other: &Lit) -> bool {
        self.code == other.code
    }
}

impl Eq for Lit {
    ghost laws = { literal_eq-equivalence };
}

impl Hash for Lit {
    ghost hash_input = { literal_writes };

    ghost respects_eq = { literal_eq-hashed };

    fn hash<H: Hasher>(&self, state: &mut H) {
        self.code.hash(state);
    }
}

impl Lit {
    /// The literal of variable `var`, negated unless `positive`.
    pub fn new(var: u32, positive: bool) -> Lit
        requires from_one { 0 < var }
        requires small { var ≤ 2 ^ 30 }
        ensures { result ≡ record { var = var; positive = positive } }
    {
        Lit {
            code: 2 * var + u32::from(positive),
        }
    }

    /// The variable, from 1 to 2^30.
    pub fn var(self) -> u32
        ensures value { result ≡ self.var }
        ensures from_one { 0 < result }
        ensures small { result ≤ 2 ^ 30 }
    {
        self.code / 2
    }

    /// Whether this is the variable itself, and not its negation.
    pub fn is_positive(self) -> bool
        ensures { result ≡ self.positive }
    {
        self.code % 2 == 1
    }

    /// The number by which it is kept: twice the variable, and one more where it is positive.
    pub fn code(self) -> u32
        ensures value { result ≡ code_of self }
        ensures least { 2 ≤ result }
        ensures greatest { result ≤ 2 ^ 31 + 1 }
    {
        self.code
    }

    /// The literal of such a number.
    pub fn of_code(code: u32) -> Lit
        requires least { 2 ≤ code }
        requires greatest { code ≤ 2 ^ 31 + 1 }
        ensures { result ≡ decoded code }
    {
        Lit { code }
    }

    /// The literal of the same variable and the other sign.
    pub fn negated(self) -> Lit
        ensures { result ≡ negated self }
    {
        let code = if self.is_positive() {
            self.code - 1
        } else {
            self.code + 1
        };
        Lit { code }
    }
}
