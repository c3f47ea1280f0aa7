ghost use Rattle.std.specs.Prelude.{◌≡◌, ℕ, ◌<◌, ◌≤◌, [], ◌++◌, IfOk, All, Contains, length};
ghost use Rattle.propositional_logic.specs.Clause.{IsFormula};
ghost use Rattle.propositional_logic.specs.Truth.{value_of};
ghost use Rattle.refutation_log.specs.Entry.{clauses_of};
ghost use Rattle.unit_propagate.specs.Trail.{literals_of};
ghost use Rattle.unit_propagate.specs.Quiet.{IsQuiet};
ghost use Rattle.clause_solver.specs.Free.{IsTotal};
ghost use Rattle.clause_solver.specs.Turned.{IsModel};

use propositional_logic::{Assignment, Cnf};
use std::alloc::{AllocError, Global};
use unit_propagate::Trail;

/// The values of the variables, where each of them has one.
fn values_of(alloc: Global, trail: &Trail, vars: u32) -> Result<Vec<bool>, AllocError>
    requires { IsTotal vars trail.now.marks }
    ensures length { IfOk result (λ values. length values.items ≡ vars) }
    ensures value { IfOk result (λ values. (var : ℕ) → 0 < var → var ≤ vars → Contains (literals_of trail.now.marks) (record { var = var; positive = value_of values.items var })) }
{
    let mut values = Vec::with_capacity(alloc, vars as usize)?;
    for place in 0..vars {
        values.push(trail.value(place + 1).unwrap_or(false))?;
    }
    Ok(values)
}

/// The model that a quiet trail gives, on which each variable has a value. Costs the variables and the clauses.
pub(crate) fn model_of(alloc: Global, trail: &Trail, base: &Cnf) -> Result<Assignment, AllocError>
    requires formula { IsFormula base.now.vars base.now.clauses.items }
    requires total { IsTotal base.now.vars trail.now.marks }
    requires quiet { IsQuiet base.now.clauses.items (literals_of trail.now.marks) }
    ensures { IfOk result (λ assignment. IsModel base.now.vars base.now.clauses.items assignment.values.items) }
{
    let values = values_of(alloc, trail, base.vars)?;

    // That no variable is 0 is known of one clause at a time.
    for clause in &base.clauses {
        let _lits = clause.lits();
    }
    Ok(Assignment { values })
}
