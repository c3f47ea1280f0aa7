//! The base clauses of one size over letters.
ghost use Rattle.std.specs.Prelude.{◌≡◌, ◌≤◌, IfOk, IfSome};
ghost use Rattle.propositional_logic.specs.Clause.{IsFormula};
ghost use Rattle.text_limits.specs.declared.TheConstants.{LARGE_LIMITS};
ghost use Rattle.machine_model.specs.Problem.{reads_of};
ghost use Rattle.size_refutations.specs.Parts.{IsSearchOf, IsSizedAs, ground_of};
ghost use Rattle.size_refutations.specs.Sizes.{AreClausesAt, AreClausesOver, IsCountOf, clause_count, may_be_counted as may_count};

use crate::grounds::Sought;
use crate::heads::{is_list, is_number_of_states};
use letter_clauses::LetterSize;
use machine_model::Problem;
use propositional_logic::Cnf;
use std::alloc::{AllocError, Global};

/// The number of base clauses of a size over letters, where they are allowed.
pub(crate) fn count_at(
    sought: Sought<'_>,
    search: &Problem,
    size: u32,
    letters: &[u32],
) -> Result<Option<u64>, AllocError>
    requires { IsSearchOf (ground_of sought) search.now }
    ensures { IfOk result (IsCountOf (ground_of sought.entry) size letters.now) }
{
    let problem = search.sized(size)?;
    let count = count_over(sought, search, &problem, letters);
    Ok(count)
}

/// The number of a problem's base clauses over letters, where they are allowed.
fn count_over(
    sought: Sought<'_>,
    search: &Problem,
    problem: &Problem,
    letters: &[u32],
) -> Option<u64>
    requires search { IsSearchOf (ground_of sought) search.now }
    requires sized { IsSizedAs search.now problem.now.size problem.now }
    ensures { result ≡ clause_count problem.now letters.now }
{
    if !may_be_counted(problem, letters) {
        return None;
    }
    let over = LetterSize { problem, letters };
    over.count()
}

/// The base clauses of a size over letters, where they are allowed.
pub(crate) fn clauses_at(
    alloc: Global,
    sought: Sought<'_>,
    search: &Problem,
    size: u32,
    letters: &[u32],
) -> Result<Option<Cnf>, AllocError>
    requires { IsSearchOf (ground_of sought) search.now }
    ensures clauses { IfOk result (AreClausesAt (ground_of sought.entry) size letters.now) }
    ensures formula { IfOk result (λ made. IfSome made (λ base. IsFormula base.vars base.clauses.items)) }
{
    let problem = search.sized(size)?;
    clauses_over(alloc, sought, search, &problem, letters)
}

/// A problem's base clauses over letters, where they are allowed.
fn clauses_over(
    alloc: Global,
    sought: Sought<'_>,
    search: &Problem,
    problem: &Problem,
    letters: &[u32],
) -> Result<Option<Cnf>, AllocError>
    requires search { IsSearchOf (ground_of sought) search.now }
    requires sized { IsSizedAs search.now problem.now.size problem.now }
    ensures clauses { IfOk result (AreClausesOver problem.now letters.now) }
    ensures formula { IfOk result (λ made. IfSome made (λ base. IsFormula base.vars base.clauses.items)) }
{
    if count_over(sought, search, problem, letters).is_none() {
        return Ok(None);
    }
    let over = LetterSize { problem, letters };
    let base = over.encode(alloc)?;
    Ok(Some(base))
}

/// Whether a problem has so many states as a size that is refuted may have, and these are letters that its machines read.
fn may_be_counted(problem: &Problem, letters: &[u32]) -> bool
    requires { reads_of problem.now ≤ LARGE_LIMITS.signals }
    ensures { result ≡ may_count problem.now letters.now }
{
    is_number_of_states(problem.size) && is_list(problem.reads(), letters)
}
