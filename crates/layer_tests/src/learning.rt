//! What is learnt from small conflicts.
ghost use Rattle.std.specs.Prelude.{◌≡◌};
ghost use Rattle.propositional_logic.specs.Clause.{IsFormula};

use crate::clause_texts::{VARS, formula, free_var, letter};
use conflict_learn::{Learned, learn};
use propositional_logic::{Cnf, Lit};
use std::alloc::{AllocError, Global};
use std::test::Fail;
use unit_propagate::{Propagated, Trail};

/// The letters of the clause, and then a digit for each hint.
fn text_of(alloc: Global, learned: &Learned) -> Result<Vec<u8>, AllocError> {
    let mut text = Vec::new(alloc);
    for lit in learned.clause.lits() {
        text.push(letter(*lit))?;
    }
    text.push(b' ')?;
    for hint in learned.hints.numbers() {
        text.push(b'0' + (*hint % 10) as u8)?;
    }
    Ok(text)
}

/// What is learnt from the first conflict, where the first free variable is assumed with this sign as long as there is none.
fn first_conflict(alloc: Global, base: &Cnf, positive: bool) -> Result<Option<Learned>, AllocError>
    requires variables { base.now.vars ≡ 12 }
    requires formula { IsFormula base.now.vars base.now.clauses.items }
{
    let mut trail = Trail::new(alloc, VARS)?;
    for _i in 0..3 {
        if let Propagated::Falsified(number) = trail.propagate(base, &[])? {
            return Ok(Some(learn(alloc, base, &[], &trail, number)?));
        }
        let Some(var) = free_var(&trail) else {
            return Ok(None);
        };
        trail.assume(Lit::new(var, positive));
    }
    Ok(None)
}

/// The text of what is learnt from the first conflict of the formula of a text.
fn learnt(alloc: Global, text: &[u8], positive: bool) -> Result<Vec<u8>, Fail> {
    let base = formula(alloc, text)?;
    let learned = first_conflict(alloc, &base, positive)?.ok_or("no conflict")?;
    Ok(text_of(alloc, &learned)?)
}

#[test]
fn learns_from_small_conflicts(rt: HostRuntime) -> Result<(), Fail> {
    for (text, positive, want) in [
        // The clause of the first unique implication point.
        (b"ab aB Ab AB".as_slice(), false, b"a 12".as_slice()),
        // The empty clause, at level 0.
        (b"a Ab AB", false, b" 123"),
        // Where 1 and then 3 are assumed, 2 follows from 1, and 4 can't be: that 2 is false, the others imply.
        (b"Ab ACd BCD", true, b"AC 123"),
    ] {
        assert_eq!(rt; learnt(rt.alloc(), text, positive)?.as_slice(), want);
    }
    Ok(())
}
