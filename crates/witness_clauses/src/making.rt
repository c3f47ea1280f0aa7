ghost use Rattle.std.specs.Prelude.{◌≡◌, ◌+◌, ◌*◌, ◌^◌, ◌≤◌, ◌++◌, map, filter, nat_lt, All, IfOk, OnOk};
ghost use Rattle.truth_witness.specs.Clauses.{base_clauses, literal_of, made};

use crate::literals::Literals;
use propositional_logic::laws::clauses_are_sets;
use propositional_logic::{Clause, ClauseFault, Lit};
use std::alloc::{AllocError, Global};

/// Adds the base clause that is made of AIGER's literals, and none where they are true whatever the values are.
pub fn add_made(
    alloc: Global,
    vars: u32,
    lits: &[u32],
    clauses: &mut Vec<Clause>,
) -> Result<(), AllocError>
    requires vars { vars ≤ 2 ^ 30 }
    requires within { All (λ l. l ≤ 2 * vars + 1) lits.now }
    ensures { OnOk result (clauses.new.items ≡ clauses.old.items ++ made lits.now) }
{
    clauses_are_sets();
    if lits.contains(&1) {
        return Ok(());
    }
    let kept = kept(alloc, lits)?;
    match Clause::new(alloc, vars, &kept) {
        Ok(clause) => {
            clauses.push(clause)?;
            Ok(())
        }
        Err(ClauseFault::NoMemory) => Err(AllocError),
        Err(ClauseFault::Tautology) => Ok(()),
        Err(ClauseFault::BadVariable) => unreachable!(),
    }
}

/// The literals of the logs for those that are no constants.
fn kept(alloc: Global, lits: &[u32]) -> Result<Vec<Lit>, AllocError>
    requires { All (λ l. l ≤ 2 ^ 31 + 1) lits.now }
    ensures { IfOk result (λ kept. kept.items ≡ map literal_of (filter (nat_lt 1) lits.now)) }
{
    let mut kept = Vec::with_capacity(alloc, lits.len())?;
    for lit in lits {
        if *lit > 1 {
            kept.push(Lit::new(*lit / 2, *lit % 2 == 0))?;
        }
    }
    Ok(kept)
}

/// Adds the base clauses that are made of clauses, in their order.
pub(crate) fn add_base(
    alloc: Global,
    vars: u32,
    clauses: &[Literals],
    made: &mut Vec<Clause>,
) -> Result<(), AllocError>
    requires vars { vars ≤ 2 ^ 30 }
    requires within { All (All (λ l. l ≤ 2 * vars + 1)) clauses.now }
    ensures { OnOk result (made.new.items ≡ made.old.items ++ base_clauses clauses.now) }
{
    for clause in clauses {
        add_made(alloc, vars, clause.lits(), made)?;
    }
    Ok(())
}
