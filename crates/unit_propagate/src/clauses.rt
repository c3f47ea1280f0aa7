ghost use Rattle.std.specs.Prelude.{◌≡◌, ◌++◌, ◌<◌, ◌+◌, ◌^◌, Some, length, slice_get};
ghost use Rattle.refutation_log.specs.Entry.{clauses_of};

use propositional_logic::{Clause, Cnf};
use refutation_log::Entry;

/// The number of the base clauses and the entries.
pub fn clause_count(base: &Cnf, seen: &[Entry]) -> usize
    ensures value { result ≡ length (base.now.clauses.items ++ clauses_of seen.now) }
    ensures small { result + 1 < 2 ^ 64 }
{
    base.clauses.len() + seen.len()
}

/// The clause at place `k` of the base clauses and those of the entries, from 0.
pub fn clause_at<'a>(base: &'a Cnf, seen: &'a [Entry], k: usize) -> &'a Clause
    requires { k < length (base.now.clauses.items ++ clauses_of seen.now) }
    ensures { slice_get (base.now.clauses.items ++ clauses_of seen.now) k ≡ Some result.now }
{
    match base.clauses.get(k) {
        Some(clause) => clause,
        None => seen[k - base.clauses.len()].clause.as_clause(),
    }
}
