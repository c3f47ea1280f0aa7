ghost use Rattle.std.specs.Prelude.{◌≡◌, ℕ, true, ◌++◌, List, Some, IfOk, All, reverse};
ghost use Rattle.propositional_logic.specs.Clause.{IsClauseOf, IsFormula, IsTautology, IsWithinVariables};
ghost use Rattle.refutation_log.specs.Entry.{clauses_of};
ghost use Rattle.refutation_log.specs.Follows.{clause_named, is_falsified_named, Follows};
ghost use Rattle.unit_propagate.specs.Trail.{literals_of};
ghost use Rattle.unit_propagate.specs.Sound.{AreSoundMarks};
ghost use Rattle.conflict_learn.specs.Learnt.{IsLearnt};
ghost use Rattle.propositional_logic.specs.Literal.{Literal};

use crate::analysis::{Analysis, highest_level};
use propositional_logic::{Clause, ClauseFault, Cnf, Lit};
use refutation_log::{Entry, Hints};
use std::alloc::{AllocError, Global};
use unit_propagate::{Trail, clause_at};

/// A learnt clause with the hints by which it follows.
#[derive(Debug, Drop)]
pub struct Learned {
    pub clause: Clause,
    pub hints: Hints,
}

/// The clause of the first unique implication point of the falsified clause of that number, without the literals that the others imply.
///
/// The hints stand in the order in which their clauses become unit, those of level 0 among them. Takes time in proportion to the
/// trail, the literals of the clauses that are resolved, and those of the reasons that are gone through for what is implied.
pub fn learn(
    alloc: Global,
    base: &Cnf,
    seen: &[Entry],
    trail: &Trail,
    number: u64,
) -> Result<Learned, AllocError>
    requires variables { base.now.vars ≡ trail.now.vars }
    requires formula { IsFormula base.now.vars base.now.clauses.items }
    requires within { All (λ e. IsWithinVariables base.now.vars e.clause) seen.now }
    requires falsified { is_falsified_named (base.now.clauses.items ++ clauses_of seen.now) (literals_of trail.now.marks) number ≡ true }
    requires sound { AreSoundMarks (base.now.clauses.items ++ clauses_of seen.now) trail.now.marks }
    ensures follows { IfOk result (λ l. Follows (base.now.clauses.items ++ clauses_of seen.now) l.clause l.hints) }
    ensures learnt { IfOk result (λ l. (c : List Literal) → clause_named (base.now.clauses.items ++ clauses_of seen.now) number ≡ Some c → IsLearnt trail.now.marks c l.clause) }
{
    let conflict = clause_at(base, seen, number as usize - 1);
    let top = highest_level(trail, conflict.lits());
    let mut analysis = Analysis::new(alloc, trail, conflict.lits(), number)?;
    let end = trail.len();
    analysis.finish(alloc, base, seen, trail, end, top)?;
    let Analysis {
        places: _places,
        lits,
        hints,
    } = analysis;
    with_hints(alloc, base.vars, &lits, hints)
}

/// The clause of these literals with these hints, in the other order.
fn with_hints(
    alloc: Global,
    vars: u32,
    lits: &[Lit],
    mut hints: Vec<u64>,
) -> Result<Learned, AllocError>
    requires within { IsWithinVariables vars lits.now }
    requires one_sign { IsTautology lits.now → ⊥ }
    ensures clause { IfOk result (λ l. IsClauseOf lits.now l.clause) }
    ensures hints { IfOk result (λ l. l.hints ≡ reverse hints.items) }
{
    let clause = match Clause::new(alloc, vars, lits) {
        Ok(clause) => clause,
        Err(ClauseFault::NoMemory) => return Err(AllocError),

        // The literals are the opposites of some that stand on a trail.
        Err(ClauseFault::BadVariable) => unreachable!(),
        Err(ClauseFault::Tautology) => unreachable!(),
    };
    hints.reverse();
    let hints = Hints::new(alloc, &hints)?;
    Ok(Learned { clause, hints })
}
