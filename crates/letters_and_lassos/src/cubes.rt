ghost use Rattle.std.specs.Prelude.{◌↔◌, IsTrue, IsNone, IfNone, IfSome};
ghost use Rattle.letters_and_lassos.specs.Signals.{AreApart};

use crate::letters::Letter;

/// A condition on letters: the signals that a letter must have, and those that it must not have.
#[derive(Clone, Copy, Debug, PartialEq, Eq, Hash)]
pub struct Cube {
    pub must: u64,
    pub not: u64,
    pub ghost apart: { AreApart must not },
}

impl Cube {
    ghost use Rattle.letters_and_lassos.specs.Cube.{Clash, Fits, FitsBoth, IsMeet, NoneFitsBoth};

    /// Whether the letter has each signal of `must` and none of `not`.
    pub fn fits(self, letter: Letter) -> bool
        ensures { IsTrue result ↔ Fits self letter }
    {
        letter.0 & self.must == self.must && letter.0 & self.not == 0
    }

    /// The cube of the letters that fit both, or None where one cube wants what the other forbids.
    pub fn meet(self, other: Cube) -> Option<Cube>
        ensures clash { IsNone result ↔ Clash self other }
        ensures both { IfSome result (λ cube. IsMeet self other cube) }
        ensures letters { IfSome result (λ cube. FitsBoth self other cube) }
        ensures no_letter { IfNone result (NoneFitsBoth self other) }
    {
        if self.must & other.not != 0 || self.not & other.must != 0 {
            return None;
        }
        Some(Cube {
            must: self.must | other.must,
            not: self.not | other.not,
        })
    }
}
