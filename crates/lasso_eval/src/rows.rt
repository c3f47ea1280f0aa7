ghost use Rattle.std.specs.Prelude.{◌≡◌, ◌<◌, ◌||◌, ◌&&◌, IfOk, false, length, not, true};
ghost use Rattle.letters_and_lassos.specs.Signals.{has};
ghost use Rattle.letters_and_lassos.specs.Word.{HasRing, lasso_len, letter_at, next};
ghost use Rattle.ltl_formula.specs.Truth.{release_at, until_at};

use letters_and_lassos::Lasso;
use std::alloc::{AllocError, Global};
use std::marker::Model;

/// The connectives of two parts that look at one position alone.
#[derive(Clone, Copy)]
pub enum Pairing {
    And,
    Or,
    Implies,
    Equiv,
}

impl Pairing {
    ghost use Rattle.lasso_eval.specs.Rows.{paired_truth};

    fn truth(self, a: bool, b: bool) -> bool
        ensures { result ≡ paired_truth self a b }
    {
        match self {
            Pairing::And => a && b,
            Pairing::Or => a || b,
            Pairing::Implies => !a || b,
            Pairing::Equiv => a == b,
        }
    }
}

/// The truth of one formula at each position of a lasso.
#[derive(Drop)]
pub struct Row {
    bits: Vec<bool>,
}

impl Model for Row {
    ghost use Rattle.std.specs.Prelude.{List, Bool};

    ghost Value = { List Bool };

    ghost view = { λ a. a.bits.items };
}

impl Row {
    ghost use Rattle.lasso_eval.specs.Rows.{IsRow, paired_truth, row_truth};

    pub fn len(&self) -> usize
        ensures { result ≡ length self.now }
    {
        self.bits.len()
    }

    /// The truth at a position.
    pub fn at(&self, i: usize) -> bool
        requires { i < length self.now }
        ensures { result ≡ row_truth self.now i }
    {
        self.bits[i]
    }

    /// One truth value at each of `len` positions.
    pub fn constant(alloc: Global, len: usize, value: bool) -> Result<Row, AllocError>
        ensures { IfOk result (λ row. IsRow len (λ k. value) row) }
    {
        let mut bits = Vec::with_capacity(alloc, len)?;
        for i in 0..len {
            bits.push(value)?;
        }
        Ok(Row { bits })
    }

    /// Where the signal is in the lasso's letters.
    pub fn signal(alloc: Global, lasso: &Lasso, signal: u32) -> Result<Row, AllocError>
        ensures { IfOk result (λ row. IsRow (lasso_len lasso.now) (λ k. has (letter_at lasso.now k).0 signal) row) }
    {
        let mut bits = Vec::with_capacity(alloc, lasso.len())?;
        for i in 0..lasso.len() {
            bits.push(lasso.letter(i).has(signal))?;
        }
        Ok(Row { bits })
    }

    /// The opposite truth.
    pub fn opposite(&self, alloc: Global) -> Result<Row, AllocError>
        ensures { IfOk result (λ row. IsRow (length self.now) (λ k. not (row_truth self.now k)) row) }
    {
        let len = self.len();
        let mut bits = Vec::with_capacity(alloc, len)?;
        for i in 0..len {
            bits.push(!self.at(i))?;
        }
        Ok(Row { bits })
    }

    /// The truth of a connective, position by position.
    pub(crate) fn paired(
        &self,
        alloc: Global,
        pairing: Pairing,
        other: &Row,
    ) -> Result<Row, AllocError>
        requires { length self.now ≡ length other.now }
        ensures { IfOk result (λ row. IsRow (length self.now) (λ k. paired_truth pairing (row_truth self.now k) (row_truth other.now k)) row) }
    {
        let len = self.len();
        let mut bits = Vec::with_capacity(alloc, len)?;
        for i in 0..len {
            bits.push(pairing.truth(self.at(i), other.at(i)))?;
        }
        Ok(Row { bits })
    }

    /// The truth at the next position.
    pub fn next(&self, alloc: Global, lasso: &Lasso) -> Result<Row, AllocError>
        requires { length self.now ≡ lasso_len lasso.now }
        ensures { IfOk result (λ row. IsRow (lasso_len lasso.now) (λ k. row_truth self.now (next lasso.now k)) row) }
    {
        let len = lasso.len();
        let mut bits = Vec::with_capacity(alloc, len)?;
        for i in 0..len {
            bits.push(self.at(lasso.next(i)))?;
        }
        Ok(Row { bits })
    }

    /// The truth of `self U other`. The first pass, once round the ring from its end, finds the truth where the
    /// ring begins; the second takes it to every position.
    pub fn until(&self, alloc: Global, lasso: &Lasso, other: &Row) -> Result<Row, AllocError>
        requires first { length self.now ≡ lasso_len lasso.now }
        requires second { length other.now ≡ lasso_len lasso.now }
        ensures value { IfOk result (λ row. IsRow (lasso_len lasso.now) (until_at lasso.now (row_truth self.now) (row_truth other.now)) row) }
        ensures ring { HasRing lasso.now }
    {
        let len = lasso.len();
        let mut carry = self.until_in_ring(lasso, other);
        let mut bits = vec![in alloc; false; len]?;
        for i in (0..len).rev() {
            let comes = other.at(i);
            let held = self.at(i);
            carry = until_step(comes, held, carry);
            bits[i] = carry;
        }
        Ok(Row { bits })
    }

    /// The truth of `self R other`: the opposite of until with the opposite parts.
    pub fn release(&self, alloc: Global, lasso: &Lasso, other: &Row) -> Result<Row, AllocError>
        requires first { length self.now ≡ lasso_len lasso.now }
        requires second { length other.now ≡ lasso_len lasso.now }
        ensures { IfOk result (λ row. IsRow (lasso_len lasso.now) (release_at lasso.now (row_truth self.now) (row_truth other.now)) row) }
    {
        let here = self.opposite(alloc)?;
        let there = other.opposite(alloc)?;
        let comes = here.until(alloc, lasso, &there)?;
        comes.opposite(alloc)
    }

    /// The truth of `F self`: `true U self`.
    pub fn finally(&self, alloc: Global, lasso: &Lasso) -> Result<Row, AllocError>
        requires { length self.now ≡ lasso_len lasso.now }
        ensures { IfOk result (λ row. IsRow (lasso_len lasso.now) (until_at lasso.now (λ k. true) (row_truth self.now)) row) }
    {
        let always = Row::constant(alloc, lasso.len(), true)?;
        always.until(alloc, lasso, self)
    }

    /// The truth of `G self`: `false R self`.
    pub(crate) fn globally(&self, alloc: Global, lasso: &Lasso) -> Result<Row, AllocError>
        requires { length self.now ≡ lasso_len lasso.now }
        ensures { IfOk result (λ row. IsRow (lasso_len lasso.now) (release_at lasso.now (λ k. false) (row_truth self.now)) row) }
    {
        let never = Row::constant(alloc, lasso.len(), false)?;
        never.release(alloc, lasso, self)
    }

    /// The truth of `self W other`: `self U other`, or `G self`.
    pub fn weak_until(&self, alloc: Global, lasso: &Lasso, other: &Row) -> Result<Row, AllocError>
        requires first { length self.now ≡ lasso_len lasso.now }
        requires second { length other.now ≡ lasso_len lasso.now }
        ensures { IfOk result (λ row. IsRow (lasso_len lasso.now) (λ k. until_at lasso.now (row_truth self.now) (row_truth other.now) k || release_at lasso.now (λ p. false) (row_truth self.now) k) row) }
    {
        let until = self.until(alloc, lasso, other)?;
        let globally = self.globally(alloc, lasso)?;
        until.paired(alloc, Pairing::Or, &globally)
    }

    /// The truth of `self U other` where the ring begins: one pass over the ring from its end.
    fn until_in_ring(&self, lasso: &Lasso, other: &Row) -> bool
        requires first { length self.now ≡ lasso_len lasso.now }
        requires second { length other.now ≡ lasso_len lasso.now }
        ensures { result ≡ until_at lasso.now (row_truth self.now) (row_truth other.now) (length lasso.now.stem) }
    {
        let start = lasso.stem().len();
        let mut begun = false;
        for i in (start..lasso.len()).rev() {
            let comes = other.at(i);
            let held = self.at(i);
            begun = until_step(comes, held, begun);
        }
        begun
    }
}

/// Until at a position: its second part holds here, or its first part does and until holds at the next position.
fn until_step(comes: bool, held: bool, later: bool) -> bool
    ensures { result ≡ (comes || (held && later)) }
{
    comes || (held && later)
}
