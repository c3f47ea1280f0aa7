ghost use Rattle.std.specs.Prelude.{◌≡◌, IfOk};
ghost use Rattle.std.specs.Hash as fed;
ghost use Rattle.annot_check.specs.Place.{same_code};
ghost use Rattle.annot_check.specs.PlaceLaws.{code_Alike, same_code_equiv, same_code_per};

use std::alloc::{AllocError, Global};
use std::hash::{Hash, Hasher};
use std::marker::Model;

/// The values of a circuit's latches, latch 0 first. A contract sees it as the list of them.
#[derive(Debug, Drop)]
pub struct Code {
    bits: Vec<bool>,
}

impl Model for Code {
    ghost use Rattle.std.specs.Prelude.{List, Bool};

    ghost Value = { List Bool };

    ghost view = { λ code. code.bits.items };
}

impl Code {
    /// Keeps the values.
    pub fn new(bits: Vec<bool>) -> Code
        ensures { result ≡ bits.items }
    {
        Code { bits }
    }

    pub fn bits(&self) -> &[bool]
        ensures { result.now ≡ self.now }
    {
        &self.bits
    }
}

impl Clone for Code {
    ghost is_clone = { λ code copy. copy ≡ code };

    fn clone(&self) -> Result<Code, AllocError> {
        Ok(Code {
            bits: self.bits.clone()?,
        })
    }
}

impl PartialEq for Code {
    ghost eq = { same_code };

    ghost laws = { same_code_per };

    fn eq(&self, other: &Code) -> bool {
        self.bits() == other.bits()
    }
}

impl Eq for Code {
    ghost laws = { same_code_equiv };
}

impl Hash for Code {
    ghost hash_input = { fed.slice fed.bool };

    ghost respects_eq = { code_Alike.fed };

    fn hash<H: Hasher>(&self, state: &mut H) {
        self.bits().hash(state);
    }
}

/// The values of the latches and a state of the automaton, with their number.
#[derive(Debug, Drop)]
pub struct Pair {
    pub code: Code,
    pub state: u32,
    pub number: u32,
}

/// An annotation: its pairs, in their order, and the line of its head, from 1.
#[derive(Debug, Drop)]
pub struct PairList {
    pub pairs: Vec<Pair>,
    pub head_line: u64,
}

impl Model for PairList {
    ghost use Rattle.annot_check.specs.Pairs.{Listed};

    ghost Value = { Listed };

    ghost view = { λ list. record { pairs = list.pairs.items; head_line = list.head_line } };
}
