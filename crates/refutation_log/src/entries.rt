ghost use Rattle.std.specs.Prelude.{◌≡◌, ℕ, List, IfOk, nat_eq};
ghost use Rattle.std.specs.Arc.{arc_slice_items, arc_value};
ghost use Rattle.std.specs.Cmp.Lexicographic.{pointwise};
ghost use Rattle.std.specs.Cmp.Rules.{comparing, hashing};
ghost use Rattle.std.proofs.Common.{rules};
ghost use Rattle.propositional_logic.specs.Literal.{Literal};
ghost use Rattle.propositional_logic.specs.Clause.{IsClause, clause_eq};
ghost use Rattle.propositional_logic.specs.Equality.{clause_eq-partial, clause_eq-equivalence, clause_eq-hashed, clause_writes};

use propositional_logic::{Clause, Lit};
use std::alloc::{AllocError, Global};
use std::hash::{Hash, Hasher};
use std::marker::Model;
use std::sync::{Arc, ArcSlice};

/// A clause of a log. Seen by contracts as the list of its literals. A copy shares it and takes no memory.
#[derive(Debug, Drop)]
pub struct SharedClause {
    clause: Arc<Clause>,
}

impl Model for SharedClause {
    ghost Value = { List Literal };

    ghost view = { λ c. arc_value c.clause };

    ghost invariant = { λ c. IsClause (arc_value c.clause) };
}

impl PartialEq for SharedClause {
    ghost eq = { clause_eq };

    ghost laws = { clause_eq-partial };

    fn eq(&self, other: &SharedClause) -> bool {
        self.clause == other.clause
    }
}

impl Eq for SharedClause {
    ghost laws = { clause_eq-equivalence };
}

impl Hash for SharedClause {
    ghost hash_input = { clause_writes };

    ghost respects_eq = { clause_eq-hashed };

    fn hash<H: Hasher>(&self, state: &mut H) {
        self.clause.hash(state);
    }
}

impl Clone for SharedClause {
    ghost is_clone = { λ c copy. copy ≡ c };

    fn clone(&self) -> Result<SharedClause, AllocError> {
        Ok(SharedClause {
            clause: self.clause.clone()?,
        })
    }
}

impl SharedClause {
    /// The same clause, to be shared.
    pub fn new(alloc: Global, clause: Clause) -> Result<SharedClause, AllocError>
        ensures { IfOk result (λ shared. shared ≡ clause) }
    {
        // That it is sorted is known once it is read.
        let _sorted = clause.lits();
        Ok(SharedClause {
            clause: Arc::new(alloc, clause)?,
        })
    }

    /// The clause.
    pub fn as_clause(&self) -> &Clause
        ensures value { result.now ≡ self.now }
    {
        &self.clause
    }

    /// The literals, sorted by variable, with no variable twice.
    pub fn lits(&self) -> &[Lit]
        ensures value { result.now ≡ self.now }
        ensures sorted { IsClause self.now }
    {
        self.clause.lits()
    }
}

/// The numbers of the clauses by which a clause follows: 1 to b name the base clauses, b + 1 and on the entries of the log.
///
/// Seen by contracts as the list of the numbers. A copy shares them and takes no memory.
#[derive(Debug, Drop)]
pub struct Hints {
    numbers: ArcSlice<u64>,
}

impl Model for Hints {
    ghost Value = { List ℕ };

    ghost view = { λ h. arc_slice_items h.numbers };
}

impl PartialEq for Hints {
    ghost eq = { pointwise nat_eq };

    ghost laws = { Prim.search (comparing, rules) };

    fn eq(&self, other: &Hints) -> bool {
        self.numbers == other.numbers
    }
}

impl Eq for Hints {
    ghost laws = { Prim.search (comparing, rules) };
}

impl Clone for Hints {
    ghost is_clone = { λ hints copy. copy ≡ hints };

    fn clone(&self) -> Result<Hints, AllocError> {
        Ok(Hints {
            numbers: self.numbers.clone()?,
        })
    }
}

impl Hints {
    /// The hints with these numbers.
    pub fn new(alloc: Global, numbers: &[u64]) -> Result<Hints, AllocError>
        ensures { IfOk result (λ hints. hints ≡ numbers.now) }
    {
        Ok(Hints {
            numbers: ArcSlice::from_slice(alloc, numbers)?,
        })
    }

    /// The numbers, in their order.
    pub fn numbers(&self) -> &[u64]
        ensures { result.now ≡ self.now }
    {
        self.numbers.as_slice()
    }
}

/// A clause of a log, with the worker that learnt it and the hints by which it follows. A copy takes no memory.
#[derive(Debug, Drop, PartialEq, Eq)]
pub struct Entry {
    pub by: u32,
    pub clause: SharedClause,
    pub hints: Hints,
}

impl Clone for Entry {
    ghost is_clone = { λ entry copy. copy ≡ entry };

    fn clone(&self) -> Result<Entry, AllocError> {
        Ok(Entry {
            by: self.by,
            clause: self.clause.clone()?,
            hints: self.hints.clone()?,
        })
    }
}

impl Entry {
    ghost use Rattle.refutation_log.specs.Shown.{shown};

    /// The entry as a log shows it.
    pub(crate) fn view(&self) -> EntryRef<'_>
        ensures { shown result ≡ self.now }
    {
        EntryRef {
            by: self.by,
            clause: &self.clause,
            hints: &self.hints,
        }
    }
}

/// An entry as it stands in a log.
#[derive(Clone, Copy, Debug)]
pub struct EntryRef<'a> {
    pub by: u32,
    pub clause: &'a SharedClause,
    pub hints: &'a Hints,
}

/// How a clause came into a log: the worker that learnt it, and the hints by which it follows.
#[derive(Debug, Drop)]
pub struct Derivation {
    pub by: u32,
    pub hints: Hints,
}
