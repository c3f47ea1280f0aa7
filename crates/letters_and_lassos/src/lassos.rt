ghost use Rattle.std.specs.Prelude.{◌≡◌, ◌↔◌, ◌<◌, ◌+◌, ℕ, [], Err, vec_len, length, IfOk, IfErr, OnErr, IsErr};

use crate::letters::Letter;
use std::alloc::{AllocError, Global};
use std::marker::Model;

/// Why two lists of letters are no lasso.
#[derive(Clone, Copy, Debug, PartialEq, Eq)]
pub enum LassoFault {
    /// 1: the ring is empty.
    EmptyRing,
}

/// An infinite word of letters: the stem once, then the ring for ever. The ring isn't empty.
#[derive(Debug, Drop)]
pub struct Lasso {
    stem: Vec<Letter>,
    ring: Vec<Letter>,
}

impl Model for Lasso {
    ghost use Rattle.std.specs.Prelude.{◌<◌, length};
    ghost use Rattle.letters_and_lassos.specs.Word.{Word};

    ghost Value = { Word };

    ghost view = { λ a. record { stem = a.stem.items; ring = a.ring.items } };

    ghost invariant = { λ a. 0 < length a.ring.items };
}

impl Lasso {
    ghost use Rattle.letters_and_lassos.specs.Word.{HasRing, SameWord, lasso_len, letter_at, next, unrolled_of};

    /// The lasso of a stem and a ring. It takes no memory.
    pub fn new(stem: Vec<Letter>, ring: Vec<Letter>) -> Result<Lasso, LassoFault>
        ensures parts { IfOk result (λ w. w ≡ record { stem = stem.items; ring = ring.items }) }
        ensures empty_ring { (result ≡ Err LassoFault.EmptyRing) ↔ (ring.items ≡ []) }
    {
        if ring.is_empty() {
            return Err(LassoFault::EmptyRing);
        }
        Ok(Lasso { stem, ring })
    }

    /// The letters that come once.
    pub fn stem(&self) -> &[Letter]
        ensures value { result.now ≡ self.now.stem }
        ensures ring { HasRing self.now }
    {
        &self.stem
    }

    /// The letters that come again and again.
    pub fn ring(&self) -> &[Letter]
        ensures value { result.now ≡ self.now.ring }
        ensures ring { HasRing self.now }
    {
        &self.ring
    }

    /// The number of positions: the stem's length and the ring's.
    pub fn len(&self) -> usize
        ensures value { result ≡ lasso_len self.now }
        ensures ring { HasRing self.now }
    {
        self.stem.len() + self.ring.len()
    }

    /// The position after `i`, which after the last one is where the ring begins.
    pub fn next(&self, i: usize) -> usize
        requires { i < lasso_len self.now }
        ensures value { result ≡ next self.now i }
        ensures within { result < lasso_len self.now }
        ensures ring { HasRing self.now }
    {
        let len = self.len();
        if i + 1 == len { self.stem.len() } else { i + 1 }
    }

    /// The letter at position `i`.
    pub fn letter(&self, i: usize) -> Letter
        requires { i < lasso_len self.now }
        ensures value { result ≡ letter_at self.now i }
        ensures ring { HasRing self.now }
    {
        if i < self.stem.len() {
            self.stem[i]
        } else {
            self.ring[i - self.stem.len()]
        }
    }

    /// The same infinite word with one copy of the ring more in its stem.
    pub fn unrolled(&self, alloc: Global) -> Result<Lasso, AllocError>
        ensures value { IfOk result (λ w. w ≡ unrolled_of self.now) }
        ensures same_word { IfOk result (λ w. SameWord w self.now) }
        ensures ring { HasRing self.now }
    {
        let mut stem = Vec::with_capacity(alloc, self.len())?;
        stem.extend_from_slice(&self.stem)?;
        stem.extend_from_slice(&self.ring)?;
        Ok(Lasso {
            stem,
            ring: Vec::from_slice(alloc, &self.ring)?,
        })
    }
}
