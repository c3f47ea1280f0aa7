//! Formulas as texts: a letter is a literal over the variables 1 to 12, `a` for 1 and `A` for its negation, and a word is a clause.
ghost use Rattle.std.specs.Prelude.{◌≡◌, ◌<◌, ◌≤◌, All, IfOk, IfSome};
ghost use Rattle.propositional_logic.specs.Clause.{IsFormula, IsWithinVariables};
ghost use Rattle.unit_propagate.specs.Trail.{IsFree};

use propositional_logic::{Clause, Cnf, Lit};
use std::alloc::Global;
use std::test::Fail;
use unit_propagate::Trail;

/// The number of variables of each formula.
pub const VARS: u32 = 12;

/// The literal of a letter.
fn literal(letter: u8) -> Lit {
    Lit::new(u32::from(letter & 31).clamp(1, VARS), letter >= b'a')
}

/// The letter of a literal.
pub fn letter(lit: Lit) -> u8 {
    let first = if lit.is_positive() { b'a' } else { b'A' };
    first + (lit.var() - 1).min(VARS) as u8
}

/// Adds a copy of the clause of a word.
fn add(alloc: Global, clauses: &mut Vec<Clause>, word: &[u8]) -> Result<(), Fail>
    requires { All (IsWithinVariables 12) clauses.old.items }
    ensures { All (IsWithinVariables 12) clauses.new.items }
{
    let mut lits = Vec::new(alloc);
    for letter in word {
        lits.push(literal(*letter))?;
    }
    let clause = Clause::new(alloc, VARS, &lits)?;
    clauses.push(clause.clone()?)?;
    Ok(())
}

/// The formula of a text.
pub fn formula(alloc: Global, text: &[u8]) -> Result<Cnf, Fail>
    ensures vars { IfOk result (λ base. base.vars ≡ 12) }
    ensures formula { IfOk result (λ base. IsFormula 12 base.clauses.items) }
{
    let mut clauses = Vec::new(alloc);
    for word in text.split(|byte| *byte == b' ') {
        add(alloc, &mut clauses, word)?;
    }
    Ok(Cnf {
        vars: VARS,
        clauses,
    })
}

/// The first of the variables 1 to 6 without a value.
pub(crate) fn free_var(trail: &Trail) -> Option<u32>
    ensures { IfSome result (λ v. (0 < v) × (v ≤ 6) × IsFree trail.now.marks v) }
{
    for var in 1..7 {
        if trail.value(var).is_none() {
            return Some(var);
        }
    }
    None
}
