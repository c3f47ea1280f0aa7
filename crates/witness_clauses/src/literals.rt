//! Clauses by AIGER's literals, as the definitions list them.

ghost use Rattle.std.specs.Prelude.{◌≡◌, ◌≤◌, ◌+◌, ◌++◌, ◌∷◌, [], IfOk, OnOk};
ghost use Rattle.truth_witness.specs.Clauses.{opposite, equal, conjoined};

use std::alloc::{AllocError, Global};
use std::marker::Model;

/// A clause by AIGER's literals, of which none is left out. Seen by contracts as the list of them.
#[derive(Drop)]
pub(crate) struct Literals {
    lits: Vec<u32>,
}

impl Model for Literals {
    ghost use Rattle.std.specs.Prelude.{ℕ, List};

    ghost Value = { List ℕ };

    ghost view = { λ c. c.lits.items };
}

impl Literals {
    pub(crate) fn new(alloc: Global, lits: &[u32]) -> Result<Literals, AllocError>
        ensures { IfOk result (λ clause. clause ≡ lits.now) }
    {
        Ok(Literals {
            lits: Vec::from_slice(alloc, lits)?,
        })
    }

    /// The clause of a list of literals.
    pub(crate) fn of(lits: Vec<u32>) -> Literals
        ensures { result ≡ lits.items }
    {
        Literals { lits }
    }

    pub(crate) fn lits(&self) -> &[u32]
        ensures { result.now ≡ self.now }
    {
        &self.lits
    }
}

/// The literal of the same variable whose value is the opposite.
pub(crate) fn opposite(lit: u32) -> u32
    ensures value { result ≡ opposite lit }
{
    if lit % 2 == 0 { lit + 1 } else { lit - 1 }
}

/// Adds a clause.
pub(crate) fn add(
    alloc: Global,
    lits: &[u32],
    clauses: &mut Vec<Literals>,
) -> Result<(), AllocError>
    ensures { OnOk result (clauses.new.items ≡ clauses.old.items ++ lits.now ∷ []) }
{
    clauses.push(Literals::new(alloc, lits)?)?;
    Ok(())
}

/// Adds the clauses that say that x has the value of y.
pub(crate) fn add_equal(
    alloc: Global,
    x: u32,
    y: u32,
    clauses: &mut Vec<Literals>,
) -> Result<(), AllocError>
    ensures { OnOk result (clauses.new.items ≡ clauses.old.items ++ equal x y) }
{
    add(alloc, &[opposite(x), y], clauses)?;
    add(alloc, &[x, opposite(y)], clauses)
}

/// Adds the clauses that say that x has the value of the conjunction of a and b.
pub(crate) fn add_conjoined(
    alloc: Global,
    x: u32,
    a: u32,
    b: u32,
    clauses: &mut Vec<Literals>,
) -> Result<(), AllocError>
    ensures { OnOk result (clauses.new.items ≡ clauses.old.items ++ conjoined x a b) }
{
    add(alloc, &[opposite(x), a], clauses)?;
    add(alloc, &[opposite(x), b], clauses)?;
    add(alloc, &[x, opposite(a), opposite(b)], clauses)
}
