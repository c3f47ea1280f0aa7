//! The problems of both sides of a formula.

ghost use Rattle.std.specs.Prelude.{◌≡◌, ℕ, ◌≤◌, Err, IfOk, IfSome, OnOk};
ghost use Rattle.text_limits.specs.declared.TheConstants.{SMALL_LIMITS};
ghost use Rattle.ltl_formula.specs.ListSignals.{KeepsSignals};
ghost use Rattle.ltl_formula.specs.Nodes.{Grows, IsNodeList, IsNodeIn, tree_at};
ghost use Rattle.machine_model.specs.Automaton.{states_of};
ghost use Rattle.spec_faults.specs.declared.code.SpecCode.{SpecCode as Code};
ghost use Rattle.spec_faults.specs.declared.code.SpecFault.TheVariants.{At};
ghost use Rattle.tlsf_expand.specs.FewSignals.{HasFewSignals};
ghost use Rattle.spec_problems.specs.OfFormula.{AcceptBySide, AreProblems, AreProblemsIn, AreProblemsOver, IsEnvironmentOver, IsFormFault, IsProblemOver, refusal_of};

use cobuchi_build::BuildFault;
use letters_and_lassos::{Kind, Side};
use ltl_formula::{FormulaId, Formulas};
use machine_model::{Automaton, Counts, Problem};
use side_automata::{Automata, problems};
use spec_faults::{SpecCode, SpecFault};
use std::alloc::{AllocError, Global};
use std::sync::Arc;

/// What the problems of both sides share.
#[derive(Clone, Copy)]
pub struct Interface {
    /// The number of inputs, whose signals come first.
    pub inputs: u32,
    /// The number of outputs.
    pub outputs: u32,
    /// The kind of the system's machines. Those of the environment are of the other one.
    pub kind: Kind,
    /// What the numbers of annotations are to count.
    pub counts: Counts,
}

/// The problems of both sides of a formula, for machines of one state.
#[derive(Debug, Drop)]
pub struct SideProblems {
    /// Its automaton accepts the lassos on which the formula is false.
    pub system: Problem,
    /// Its automaton accepts the lassos on which the formula is true. None where that passes a limit.
    pub environment: Option<Problem>,
}

/// The problems of both sides of a formula. Its normal forms are added to the list and stay there whatever the answer is. Where
/// they find no room there, or the system's automaton passes a limit, the formula is refused at byte 0. It takes the time of
/// both forms and of both automata.
pub fn problems_of(
    alloc: Global,
    formulas: &mut Formulas,
    whole: FormulaId,
    interface: Interface,
) -> Result<SideProblems, SpecFault>
    requires stands { IsNodeIn formulas.old whole }
    requires few { HasFewSignals SMALL_LIMITS interface.inputs interface.outputs formulas.old }
    ensures problems { IfOk result (AreProblemsIn interface (tree_at formulas.old whole) formulas.old formulas.new) }
    ensures meet { IfOk result AreProblems }
    ensures accept { IfOk result (AcceptBySide (tree_at formulas.old whole)) }
    ensures fault { (code : Code) (place : ℕ) → result ≡ Err (At code place) → IsFormFault (tree_at formulas.old whole) formulas.old code place }
    ensures signals { OnOk result (KeepsSignals formulas.old formulas.new) }
    ensures grows { Grows formulas.old formulas.new }
    ensures list { IsNodeList formulas.new }
{
    let automata = match problems(alloc, formulas, whole) {
        Ok(automata) => automata,
        Err(fault) => return Err(refusal_of(fault)),
    };
    match sides(alloc, interface, automata) {
        Ok(sides) => Ok(sides),
        Err(_) => Err(SpecFault::NoMemory),
    }
}

/// The refusal of a formula whose automata weren't given.
fn refusal_of(fault: BuildFault) -> SpecFault
    ensures { result ≡ refusal_of fault }
{
    match fault {
        BuildFault::TooLarge => SpecFault::At {
            code: SpecCode::AutomatonTooLarge,
            place: 0,
        },
        BuildFault::TooManyNodes => SpecFault::At {
            code: SpecCode::TooManyNodes,
            place: 0,
        },
        BuildFault::NoMemory => SpecFault::NoMemory,
    }
}

/// The problems of both sides over their automata.
fn sides(
    alloc: Global,
    interface: Interface,
    automata: Automata,
) -> Result<SideProblems, AllocError>
    requires system { states_of automata.system ≤ SMALL_LIMITS.automaton.states }
    requires environment { IfSome automata.environment (λ a. states_of a ≤ SMALL_LIMITS.automaton.states) }
    ensures { IfOk result (AreProblemsOver interface automata) }
{
    let environment = environment(alloc, interface, automata.environment)?;
    let system = problem(
        alloc,
        interface,
        Side::System,
        interface.kind,
        automata.system,
    )?;
    Ok(SideProblems {
        system,
        environment,
    })
}

/// The environment's problem, if it has an automaton.
fn environment(
    alloc: Global,
    interface: Interface,
    automaton: Option<Automaton>,
) -> Result<Option<Problem>, AllocError>
    requires { IfSome automaton (λ a. states_of a ≤ SMALL_LIMITS.automaton.states) }
    ensures { IfOk result (IsEnvironmentOver interface automaton) }
{
    match automaton {
        Some(automaton) => Ok(Some(problem(
            alloc,
            interface,
            Side::Environment,
            interface.kind.other(),
            automaton,
        )?)),
        None => Ok(None),
    }
}

/// The problem of a side whose machines are of this kind.
fn problem(
    alloc: Global,
    interface: Interface,
    side: Side,
    kind: Kind,
    automaton: Automaton,
) -> Result<Problem, AllocError>
    requires { states_of automaton ≤ SMALL_LIMITS.automaton.states }
    ensures { IfOk result (IsProblemOver interface side kind automaton) }
{
    let counting = interface.counts.over(alloc, &automaton)?;
    Ok(Problem {
        automaton: Arc::new(alloc, automaton)?,
        inputs: interface.inputs,
        outputs: interface.outputs,
        side,
        kind,
        size: 1,
        counting,
    })
}
