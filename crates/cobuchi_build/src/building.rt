ghost use Rattle.std.specs.Prelude.{◌≡◌, ◌≤◌, Err, IfOk, OnOk, length};
ghost use Rattle.ltl_formula.specs.NormalForm.{IsNormal};
ghost use Rattle.ltl_formula.specs.Nodes.{IsNodeList, IsNodeIn, tree_at};
ghost use Rattle.cobuchi_build.specs.Built.{AcceptsExactly, IsAutomatonOf, IsFinished, PassesLimit};
ghost use Rattle.cobuchi_build.specs.Limits.{NamesSignalsOf};
ghost use Rattle.cobuchi_build.specs.Occurring.{untils_of};
ghost use Rattle.machine_model.specs.Automaton.{states_of};

use crate::cover_table::CoverTable;
use crate::exploring::Found;
use crate::untils::untils_of;
use ltl_formula::{FormulaId, Formulas};
use machine_model::Automaton;
use obligation_sets::{CoverFault, Covering};
use std::alloc::{AllocError, AllocFailed, Global};
use text_limits::AutomatonLimits;

/// Why an automaton wasn't given.
#[derive(Clone, Copy, Debug, PartialEq, Eq)]
pub enum BuildFault {
    /// 1: the automaton passes a limit on its states, its edges or the leaves of a set.
    TooLarge,
    /// 2: a formula list has no room for the normal forms. `build` never gives it.
    TooManyNodes,
    /// There was no memory.
    NoMemory,
}

impl From<AllocError> for BuildFault {
    ghost use Rattle.cobuchi_build.specs.declared.building.BuildFault.TheVariants.{NoMemory};

    ghost from_gives = { λ _ e. e ≡ NoMemory };

    fn from(_error: AllocError) -> BuildFault {
        BuildFault::NoMemory
    }
}

impl<T: Drop> From<AllocFailed<T>> for BuildFault {
    ghost use Rattle.cobuchi_build.specs.declared.building.BuildFault.TheVariants.{NoMemory};

    ghost from_gives = { λ _ e. e ≡ NoMemory };

    fn from(_error: AllocFailed<T>) -> BuildFault {
        BuildFault::NoMemory
    }
}

impl From<CoverFault> for BuildFault {
    ghost use Rattle.cobuchi_build.specs.Built.{fault_of};

    ghost from_gives = { λ fault e. e ≡ fault_of fault };

    fn from(fault: CoverFault) -> BuildFault {
        match fault {
            CoverFault::TooManyLeaves => BuildFault::TooLarge,
            CoverFault::NoMemory => BuildFault::NoMemory,
        }
    }
}

/// The automaton of a formula in normal form, over plain or reduced covers, which accepts exactly the lassos on which
/// the formula is true. States and
/// edges are found by hashing. It takes time for each leaf of each set, as much as there are formulas, and for each cover
/// of each state, as much as there are untils.
pub fn build(
    alloc: Global,
    formulas: &Formulas,
    f: FormulaId,
    covering: Covering,
    limits: AutomatonLimits,
) -> Result<Automaton, BuildFault>
    requires stands { IsNodeIn formulas.now f }
    requires normal { IsNormal (tree_at formulas.now f) }

    ensures automaton { IfOk result (λ a. IsAutomatonOf covering formulas.now f a) }
    ensures within { OnOk result (PassesLimit covering limits formulas.now f → ⊥) }
    ensures accepts { IfOk result (λ a. AcceptsExactly formulas.now f a) }
    ensures signals { IfOk result (NamesSignalsOf formulas.now) }
    ensures small { IfOk result (λ a. states_of a ≤ limits.states) }

    ensures too_large { result ≡ Err BuildFault.TooLarge → PassesLimit covering limits formulas.now f }
    ensures nodes { result ≡ Err BuildFault.TooManyNodes → ⊥ }
{
    let untils = untils_of(alloc, formulas, f)?;
    let found = explore(alloc, formulas, f, &untils, covering, limits)?;
    let (edges, rejecting) = found.into_parts(alloc, untils.len())?;
    match Automaton::new(edges, rejecting) {
        Ok(automaton) => Ok(automaton),
        Err(_) => unreachable!(),
    }
}

/// All states and edges of the automaton of `f`.
fn explore(
    alloc: Global,
    formulas: &Formulas,
    f: FormulaId,
    untils: &[FormulaId],
    covering: Covering,
    limits: AutomatonLimits,
) -> Result<Found, BuildFault>
    requires list { IsNodeList formulas.now }
    requires stands { IsNodeIn formulas.now f }
    requires normal { IsNormal (tree_at formulas.now f) }
    requires untils { untils.now ≡ untils_of formulas.now f }

    ensures all { IfOk result (IsFinished covering formulas.now f) }
    ensures within { OnOk result (PassesLimit covering limits formulas.now f → ⊥) }
    ensures few { IfOk result (λ found. length found.states ≤ limits.states) }
    ensures too_large { result ≡ Err BuildFault.TooLarge → PassesLimit covering limits formulas.now f }
    ensures nodes { result ≡ Err BuildFault.TooManyNodes → ⊥ }
{
    if limits.allows_none() {
        return Err(BuildFault::TooLarge);
    }
    let mut found = Found::start(alloc, f)?;
    let mut table = CoverTable::new(alloc);
    let mut number = 0;
    while let Some(state) = found.state(number) {
        let counter = state.counter;
        let place = table.place(alloc, formulas, &state.set, covering)?;
        let covers = table.at(place);
        found.expand(alloc, untils, number as u32, counter, covers, limits)?;
        number += 1;
    }
    Ok(found)
}
