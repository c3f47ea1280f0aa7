ghost use Rattle.std.specs.Prelude.{◌≡◌, IfOk, nat_le, false};
ghost use Rattle.std.specs.Option.{option_map_or};
ghost use Rattle.log_checker.specs.Faults.{place_fault};
ghost use Rattle.log_checker.specs.Causes.{IsPlaced};

use crate::LogFault;
use indexmap::IndexSet;
use refutation_log::{Entry, SharedClause};
use std::alloc::{AllocError, Global};

/// The place of the first entry that stands past the limit, after an empty clause, or after an equal one, and which of these it is; or
/// the number of entries. Costs the hashing of each clause.
pub(crate) fn first_place_fault(
    alloc: Global,
    limit: Option<u64>,
    entries: &[Entry],
) -> Result<(usize, Option<LogFault>), AllocError>
    ensures { IfOk result (λ p. IsPlaced (place_fault limit) entries.now p.0 p.1) }
{
    let mut seen: IndexSet<&SharedClause> = IndexSet::new(alloc);
    let mut ended = false;
    for (i, entry) in entries.iter().enumerate() {
        if is_past(limit, i) {
            return Ok((i, Some(LogFault::OverLimit(i))));
        }
        if ended {
            return Ok((i, Some(LogFault::AfterEnd(i))));
        }
        if !seen.insert(&entry.clause)? {
            return Ok((i, Some(LogFault::Repeated(i))));
        }
        ended = entry.clause.lits().is_empty();
    }
    Ok((entries.len(), None))
}

/// Whether a place is past the limit.
fn is_past(limit: Option<u64>, place: usize) -> bool
    ensures { result ≡ option_map_or (λ most. nat_le most place) limit false }
{
    match limit {
        Some(most) => most <= place as u64,
        None => false,
    }
}
