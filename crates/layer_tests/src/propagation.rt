//! Watched literals beside a plain program that scans all clauses.
ghost use Rattle.std.specs.Prelude.{◌≡◌};
ghost use Rattle.propositional_logic.specs.Clause.{IsFormula};

use crate::clause_texts::{VARS, formula, free_var};
use propositional_logic::{Clause, Cnf, Lit};
use std::alloc::{AllocError, Global};
use std::test::Fail;
use unit_propagate::{Propagated, Trail};

/// The values of the variables, as the plain program keeps them.
type Values = [Option<bool>; 16];

/// Whether a literal is true, where its variable has a value.
fn truth(values: &Values, lit: Lit) -> Option<bool> {
    let value = values.get(lit.var() as usize).copied().flatten()?;
    Some(value == lit.is_positive())
}

fn make_true(values: &mut Values, lit: Lit) {
    if let Some(value) = values.get_mut(lit.var() as usize) {
        *value = Some(lit.is_positive());
    }
}

/// Looks at one clause: makes the literal true in which it is unit, and says whether it is falsified.
fn look(values: &mut Values, clause: &Clause) -> bool {
    let mut open = 0usize;
    let mut last = None;
    for lit in clause.lits() {
        if truth(values, *lit) != Some(false) {
            open = open.saturating_add(1);
            last = Some(*lit);
        }
    }
    match last {
        Some(lit) if open == 1 => make_true(values, lit),
        _ => {}
    }
    open == 0
}

/// Looks at all clauses again and again until nothing changes, and says whether one is falsified.
fn scan(values: &mut Values, clauses: &[Clause]) -> bool {
    for _pass in 0..8 {
        for clause in clauses {
            if look(values, clause) {
                return true;
            }
        }
    }
    false
}

/// Whether the trail and the plain program have the same values.
fn agree(trail: &Trail, values: &Values) -> bool {
    for var in 1..7u32 {
        if trail.value(var) != values.get(var as usize).copied().flatten() {
            return false;
        }
    }
    true
}

/// Propagates, assumes the first free variable, and so on until a clause is falsified or all variables have values. Answers
/// whether the plain program went the same way.
fn same_way(alloc: Global, base: &Cnf) -> Result<bool, AllocError>
    requires variables { base.now.vars ≡ 12 }
    requires formula { IsFormula base.now.vars base.now.clauses.items }
{
    let mut trail = Trail::new(alloc, VARS)?;
    let mut values = [None; 16];
    for _i in 0..7 {
        let falsified = scan(&mut values, &base.clauses);
        match trail.propagate(base, &[])? {
            Propagated::Falsified(_number) => return Ok(falsified),
            Propagated::Quiet => {}
        }
        if falsified || !agree(&trail, &values) {
            return Ok(false);
        }
        let Some(var) = free_var(&trail) else {
            return Ok(true);
        };
        trail.assume(Lit::new(var, true));
        make_true(&mut values, Lit::new(var, true));
    }
    Ok(false)
}

/// A text of nine clauses over the variables 1 to 6, drawn by a linear congruence.
fn drawn(alloc: Global, seed: u64) -> Result<Vec<u8>, AllocError> {
    let mut text = Vec::new(alloc);
    let mut state = seed;
    for place in 0..62u8 {
        state = state
            .wrapping_mul(6_364_136_223_846_793_005)
            .wrapping_add(1_442_695_040_888_963_407);
        match (place % 7, (state >> 33) % 4) {
            (6, _) => text.push(b' ')?,
            (var, 0) => text.push(b'a' + var)?,
            (var, 1) => text.push(b'A' + var)?,
            _ => {}
        }
    }
    Ok(text)
}

/// Whether both go the same way over a drawn formula.
fn drawn_same_way(alloc: Global, seed: u64) -> Result<bool, Fail> {
    let base = formula(alloc, &drawn(alloc, seed)?)?;
    Ok(same_way(alloc, &base)?)
}

#[test]
fn watches_as_the_plain_program_scans(rt: HostRuntime) -> Result<(), Fail> {
    for seed in 0..300 {
        assert!(rt; drawn_same_way(rt.alloc(), seed)?, "seed {seed}");
    }
    Ok(())
}
