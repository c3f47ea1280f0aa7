ghost use Rattle.std.specs.Prelude.{◌≡◌, ◌++◌, Some, None, IfSome, IfNone};
ghost use Rattle.refutation_log.specs.Entry.{clauses_of};
ghost use Rattle.refutation_log.specs.Follows.{clause_named};

use propositional_logic::{Clause, Cnf};
use refutation_log::Entry;
use unit_propagate::clause_at;

/// The clause of that number, if there is one: 1 is the first base clause, and the entries' come after these.
pub fn clause_of<'a>(base: &'a Cnf, seen: &'a [Entry], number: u64) -> Option<&'a Clause>
    ensures some { IfSome result (λ c. clause_named (base.now.clauses.items ++ clauses_of seen.now) number ≡ Some c.now) }
    ensures none { IfNone result (clause_named (base.now.clauses.items ++ clauses_of seen.now) number ≡ None) }
{
    let place = number.checked_sub(1)?;
    if place >= base.clauses.len() as u64 + seen.len() as u64 {
        return None;
    }
    Some(clause_at(base, seen, place as usize))
}
