ghost use Rattle.std.specs.Prelude.{◌≡◌, ℕ, ◌<◌, ◌↔◌, List, ◌-◌, ◌≢◌, length, slice_get, Contains, Some, IfOk, IfSome, IfNone, IsOk, Ok, Err};
ghost use Rattle.std.specs.Bool.{OnTrue, OnFalse};
ghost use Rattle.std.specs.List.Sorted.{IsNonDecreasingBy, IsPermutation};
ghost use Rattle.propositional_logic.specs.declared.clauses.ClauseFault.TheVariants.{BadVariable, Tautology, NoMemory};
ghost use Rattle.propositional_logic.specs.Literal.{Literal};
ghost use Rattle.propositional_logic.specs.Clause.{IsClause, IsClauseOf, IsWithinVariables, HasBadVariable, IsTautology, clause_eq};
ghost use Rattle.propositional_logic.specs.Equality.{clause_eq-partial, clause_eq-equivalence, clause_eq-hashed, clause_writes};

use crate::Lit;
use std::alloc::{AllocError, AllocFailed, Global};
use std::hash::{Hash, Hasher};
use std::marker::Model;

/// Why `Clause::new` refused its literals.
#[derive(Clone, Copy, Debug, PartialEq, Eq)]
pub enum ClauseFault {
    /// A variable passes the number of variables.
    BadVariable,
    /// A variable has both signs.
    Tautology,
    /// There was no memory.
    NoMemory,
}

impl From<AllocError> for ClauseFault {
    ghost from_gives = { λ _ fault. fault ≡ NoMemory };

    fn from(_error: AllocError) -> ClauseFault {
        ClauseFault::NoMemory
    }
}

impl<T: Drop> From<AllocFailed<T>> for ClauseFault {
    ghost from_gives = { λ _ fault. fault ≡ NoMemory };

    fn from(_error: AllocFailed<T>) -> ClauseFault {
        ClauseFault::NoMemory
    }
}

/// A disjunction of literals, none of them opposite to another. Seen by contracts as the list of its literals, which are
/// sorted by variable, with no variable twice.
#[derive(Debug, Drop)]
pub struct Clause {
    lits: Vec<Lit>,
}

impl Model for Clause {
    ghost Value = { List Literal };

    ghost view = { λ c. c.lits.items };

    ghost invariant = { λ c. IsClause c.lits.items };
}

impl PartialEq for Clause {
    ghost eq = { clause_eq };

    ghost laws = { clause_eq-partial };

    fn eq(&self, other: &Clause) -> bool {
        self.lits == other.lits
    }
}

impl Eq for Clause {
    ghost laws = { clause_eq-equivalence };
}

impl Hash for Clause {
    ghost hash_input = { clause_writes };

    ghost respects_eq = { clause_eq-hashed };

    fn hash<H: Hasher>(&self, state: &mut H) {
        self.lits.hash(state);
    }
}

impl Clone for Clause {
    ghost is_clone = { λ c copy. copy ≡ c };

    fn clone(&self) -> Result<Clause, AllocError> {
        Ok(Clause {
            lits: self.lits.clone()?,
        })
    }
}

impl Clause {
    /// The clause of these literals, sorted by variable and without repeats. Costs a copy where they stand so, else a sort.
    ///
    /// Refused where a variable passes `vars`, else where a variable has both signs.
    pub fn new(alloc: Global, vars: u32, lits: &[Lit]) -> Result<Clause, ClauseFault>
        ensures ok { IfOk result (IsClauseOf lits.now) }
        ensures within { IfOk result (IsWithinVariables vars) }

        // The variables are tested before memory is asked for.
        ensures bad_variable { (result ≡ Err BadVariable) ↔ HasBadVariable vars lits.now }
        ensures tautology { result ≡ Err Tautology → IsWithinVariables vars lits.now × IsTautology lits.now }
        ensures no_tautology { IsOk result → IsTautology lits.now → ⊥ }
    {
        if has_bad_variable(vars, lits) {
            return Err(ClauseFault::BadVariable);
        }
        if is_rising(lits) {
            return Ok(Clause {
                lits: lits.to_vec(alloc)?,
            });
        }
        let sorted = sorted_by_variable(alloc, lits)?;
        let lits = without_repeats(alloc, &sorted)?;
        Ok(Clause { lits })
    }

    /// The literals, sorted by variable, with no variable twice.
    pub fn lits(&self) -> &[Lit]
        ensures value { result.now ≡ self.now }
        ensures sorted { IsClause self.now }
    {
        &self.lits
    }
}

/// Whether a variable passes `vars`.
fn has_bad_variable(vars: u32, lits: &[Lit]) -> bool
    ensures some { OnTrue result (HasBadVariable vars lits.now) }
    ensures none { OnFalse result (IsWithinVariables vars lits.now) }
{
    lits.iter().any(|lit| lit.var() > vars)
}

/// The same literals, sorted by variable.
fn sorted_by_variable(alloc: Global, lits: &[Lit]) -> Result<Vec<Lit>, AllocError>
    ensures permutation { IfOk result (λ sorted. IsPermutation lits.now sorted.items) }
    ensures in_order { IfOk result (λ sorted. IsNonDecreasingBy (λ (l : Literal). l.var) sorted.items) }
{
    let mut sorted = lits.to_vec(alloc)?;
    sorted.sort_unstable_by_key(|lit| lit.var());
    Ok(sorted)
}

/// Whether the variables rise strictly.
fn is_rising(lits: &[Lit]) -> bool
    ensures { OnTrue result (IsClause lits.now) }
{
    let mut last = 0;
    for lit in lits {
        if lit.var() <= last {
            return false;
        }
        last = lit.var();
    }
    true
}

/// The clause of literals that are sorted by variable.
fn without_repeats(alloc: Global, sorted: &[Lit]) -> Result<Vec<Lit>, ClauseFault>
    requires { IsNonDecreasingBy (λ (l : Literal). l.var) sorted.now }
    ensures ok { IfOk result (λ kept. IsClauseOf sorted.now kept.items) }
    ensures tautology { result ≡ Err Tautology → IsTautology sorted.now }
    ensures no_bad_variable { result ≡ Err BadVariable → ⊥ }
{
    let mut kept: Vec<Lit> = Vec::with_capacity(alloc, sorted.len())?;
    for lit in sorted {
        match twin(&kept, *lit) {
            Some(last) => {
                if last != *lit {
                    return Err(ClauseFault::Tautology);
                }
            }
            None => kept.push(*lit)?,
        }
    }
    Ok(kept)
}

/// The last literal kept, if it is of the same variable.
fn twin(kept: &[Lit], lit: Lit) -> Option<Lit>
    ensures found { IfSome result (λ last. Contains kept.now last × (last.var ≡ lit.var)) }
    ensures from_one { 0 < lit.var }
    ensures none { IfNone result ((last : Literal) → slice_get kept.now (length kept.now - 1) ≡ Some last → last.var ≢ lit.var) }
{
    let var = lit.var();
    match kept.last() {
        Some(last) if last.var() == var => Some(*last),
        _ => None,
    }
}
