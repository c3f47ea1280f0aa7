//! The log of one obligation, over what obligations share.

ghost use Rattle.std.specs.Prelude.{◌≡◌, IsOk, IfErr, IfOk, OnOk};
ghost use Rattle.propositional_logic.specs.Clause.{IsFormula};
ghost use Rattle.log_checker.specs.Hinted.{AreWithin};
ghost use Rattle.truth_witness.specs.Clauses.{base_clauses};
ghost use Rattle.truth_witness.specs.Obligations.{IsObligationOf, clauses_of, shared, variables_of};
ghost use Rattle.truth_witness.specs.Proved.{IsWitnessFor};
ghost use Rattle.witness_clauses.specs.Counted.{IsCountable};
ghost use Rattle.witness_check.specs.Logs.{HoldsOver};
ghost use Rattle.witness_check.specs.Faults.{IsFaultOver};
ghost use Rattle.witness_check.specs.Kept.{AreKept, IsKept};

use crate::faults::ObligationFault;
use log_checker::{LogFault, check_log};
use propositional_logic::{Clause, Cnf};
use std::alloc::{AllocError, Global};
use truth_witness::{Obligation, ObligationLog};
use witness_clauses::Claim;
use witness_clauses::laws::obligations_are_formulas;

/// Clauses that obligations share, and behind them those of the last obligation that was tested.
#[derive(Drop)]
pub(crate) struct Base {
    cnf: Cnf,
    shared: usize,
}

/// The same for obligations about the first position, and about two.
#[derive(Drop)]
pub(crate) struct Bases {
    start: Base,
    step: Base,
}

impl Bases {
    /// Lists what obligations share.
    pub(crate) fn new(alloc: Global, claim: &Claim<'_>) -> Result<Bases, AllocError>
        requires { IsWitnessFor claim.now }
        ensures { IfOk result (AreKept claim.now) }
    {
        Ok(Bases {
            start: base_of(claim.start_clauses(alloc)?),
            step: base_of(claim.step_clauses(alloc)?),
        })
    }

    /// Tests the log of an obligation.
    pub(crate) fn test(
        &mut self,
        alloc: Global,
        claim: &Claim<'_>,
        obligation: Obligation,
        log: &ObligationLog,
    ) -> Result<(), ObligationFault>
        requires fits { IsWitnessFor claim.now }
        requires owed { IsObligationOf claim.now.witness obligation }
        requires read { AreWithin log.now.vars log.now.entries }
        requires kept { AreKept claim.now self.old }
        ensures kept { OnOk result (AreKept claim.now self.new) }
        ensures ok { IsOk result → HoldsOver (variables_of claim.now obligation) (clauses_of claim.now obligation) log.now }
        ensures fault { IfErr result (IsFaultOver (variables_of claim.now obligation) (clauses_of claim.now obligation) log.now) }
    {
        match obligation {
            Obligation::Base | Obligation::Cover | Obligation::Enter(_) => {
                self.start.test(alloc, claim, obligation, log)
            }
            Obligation::Keep | Obligation::Stay(_) | Obligation::Fall(_) => {
                self.step.test(alloc, claim, obligation, log)
            }
        }
    }
}

/// Clauses that are shared, with none behind them.
fn base_of(clauses: Vec<Clause>) -> Base
    ensures { IsKept clauses.items result }
{
    let shared = clauses.len();
    Base {
        cnf: Cnf { vars: 0, clauses },
        shared,
    }
}

impl Base {
    /// Tests the log of an obligation that shares these clauses.
    fn test(
        &mut self,
        alloc: Global,
        claim: &Claim<'_>,
        obligation: Obligation,
        log: &ObligationLog,
    ) -> Result<(), ObligationFault>
        requires fits { IsWitnessFor claim.now }
        requires owed { IsObligationOf claim.now.witness obligation }
        requires read { AreWithin log.now.vars log.now.entries }
        requires kept { IsKept (base_clauses (shared claim.now obligation)) self.old }
        ensures kept { OnOk result (IsKept (base_clauses (shared claim.now obligation)) self.new) }
        ensures ok { IsOk result → HoldsOver (variables_of claim.now obligation) (clauses_of claim.now obligation) log.now }
        ensures fault { IfErr result (IsFaultOver (variables_of claim.now obligation) (clauses_of claim.now obligation) log.now) }
    {
        obligations_are_formulas();
        self.list(alloc, claim, obligation)?;
        test_log(alloc, &self.cnf, log)
    }

    /// Puts the clauses of an obligation behind those that are shared.
    fn list(
        &mut self,
        alloc: Global,
        claim: &Claim<'_>,
        obligation: Obligation,
    ) -> Result<(), AllocError>
        requires fits { IsWitnessFor claim.now }
        requires owed { IsObligationOf claim.now.witness obligation }
        requires kept { IsKept (base_clauses (shared claim.now obligation)) self.old }
        ensures kept { OnOk result (IsKept (base_clauses (shared claim.now obligation)) self.new) }
        ensures vars { OnOk result (self.new.cnf.vars ≡ variables_of claim.now obligation) }
        ensures clauses { OnOk result (self.new.cnf.clauses.items ≡ clauses_of claim.now obligation) }
        ensures countable { IsCountable claim.now }
    {
        self.cnf.vars = claim.variables(obligation);
        self.cnf.clauses.truncate(self.shared);
        claim.add_own(alloc, obligation, &mut self.cnf.clauses)?;
        Ok(())
    }
}

/// Tests a log over base clauses.
fn test_log(alloc: Global, base: &Cnf, log: &ObligationLog) -> Result<(), ObligationFault>
    requires formula { IsFormula base.now.vars base.now.clauses.items }
    requires read { AreWithin log.now.vars log.now.entries }
    ensures ok { IsOk result → HoldsOver base.now.vars base.now.clauses.items log.now }
    ensures fault { IfErr result (IsFaultOver base.now.vars base.now.clauses.items log.now) }
{
    if log.vars != base.vars {
        return Err(ObligationFault::Head);
    }
    if log.base != base.clauses.len() as u64 {
        return Err(ObligationFault::Head);
    }
    match check_log(alloc, base, None, &log.entries) {
        Ok(()) => Ok(()),
        Err(LogFault::NoMemory) => Err(ObligationFault::NoMemory),
        Err(fault) => Err(ObligationFault::Log(fault)),
    }
}
