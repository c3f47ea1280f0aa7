//! Whether a witness is proved by its logs.

ghost use Rattle.std.specs.Prelude.{◌≡◌, ◌≤◌, All, IsOk, IfErr, length};
ghost use Rattle.log_checker.specs.Hinted.{AreWithin};
ghost use Rattle.truth_witness.specs.Laws.{IsTrueClaim};
ghost use Rattle.truth_witness.specs.Proved.{IsProved, IsWitnessFor};
ghost use Rattle.witness_check.specs.Faults.{IsWitnessFault};
ghost use Rattle.witness_check.specs.Logs.{AllHold, FirstHold, entries_for};
ghost use Rattle.witness_check.specs.Order.{obligation_count};

use crate::bases::Bases;
use crate::faults::WitnessFault;
use crate::order::obligation_at;
use std::alloc::Global;
use truth_witness::ObligationLog;
use truth_witness::laws::witnesses_show;
use witness_clauses::Claim;

/// Tests the log of each obligation, in their order. A yes means that the formula is true on no run lasso of the circuit. A refusal
/// names the first log that doesn't hold: for its head, else for its first entry that breaks a rule, else because it isn't ended.
pub fn check_logs(
    alloc: Global,
    claim: &Claim<'_>,
    logs: &[ObligationLog],
) -> Result<(), WitnessFault>
    requires fits { IsWitnessFor claim.now }
    requires count { length logs.now ≡ obligation_count claim.now.witness }
    requires read { All (λ log. AreWithin log.vars log.entries) logs.now }
    ensures ok { IsOk result → AllHold claim.now logs.now }
    ensures proved { IsOk result → IsProved claim.now (entries_for logs.now) }
    ensures shows { IsOk result → IsTrueClaim claim.now }
    ensures fault { IfErr result (IsWitnessFault claim.now logs.now) }
{
    witnesses_show();
    let _frame = claim.frame_size();
    check_first_logs(alloc, claim, logs)
}

/// The same of the first obligations alone, of which there are logs: so a refusal is told where further logs are missing.
pub fn check_first_logs(
    alloc: Global,
    claim: &Claim<'_>,
    logs: &[ObligationLog],
) -> Result<(), WitnessFault>
    requires fits { IsWitnessFor claim.now }
    requires count { length logs.now ≤ obligation_count claim.now.witness }
    requires read { All (λ log. AreWithin log.vars log.entries) logs.now }
    ensures ok { IsOk result → FirstHold claim.now logs.now (length logs.now) }
    ensures fault { IfErr result (IsWitnessFault claim.now logs.now) }
{
    let mut bases = Bases::new(alloc, claim)?;
    for (place, log) in logs.iter().enumerate() {
        let obligation = obligation_at(place);
        match bases.test(alloc, claim, obligation, log) {
            Ok(()) => {}
            Err(fault) => return Err(WitnessFault::At(place, fault)),
        }
    }
    Ok(())
}
