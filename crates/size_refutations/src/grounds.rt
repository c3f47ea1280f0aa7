//! What the logs of one side are tested against.
ghost use Rattle.std.specs.Prelude.{◌≡◌, ◌≤◌, ◌+◌, All, IfOk, IfSome, None};
ghost use Rattle.std.specs.Arc.{arc_value};
ghost use Rattle.std.specs.Bool.{OnFalse, OnTrue};
ghost use Rattle.propositional_logic.specs.Clause.{IsFormula};
ghost use Rattle.text_limits.specs.declared.TheConstants.{LARGE_LIMITS};
ghost use Rattle.machine_model.specs.Automaton.{states_of};
ghost use Rattle.machine_model.specs.Problem.{NamesSignals, automaton_of};
ghost use Rattle.size_refutations.specs.FirstBad.{LogFails};
ghost use Rattle.size_refutations.specs.Ground.{HasNoAutomaton, IsAutomatonFor, IsSizeOf, reads_on};
ghost use Rattle.size_refutations.specs.Parts.{IsAutomatonOrNone, IsReadLog, IsSearched, IsSought, ground_of};
ghost use Rattle.size_refutations.specs.Sizes.{AreClausesAt, IsCountOf};

use crate::logs::searched_line;
use crate::sizes::{clauses_at, count_at};
use cobuchi_build::{BuildFault, build};
use letters_and_lassos::{Kind, Side};
use ltl_formula::{FormulaId, Formulas};
use machine_model::{Automaton, Counts, Edge, Problem};
use obligation_sets::Covering;
use propositional_logic::Cnf;
use solved_text::SizeLog;
use std::alloc::{AllocError, Global};
use std::marker::Model;
use std::sync::Arc;
use text_limits::LARGE_LIMITS;

/// Whose machines a document's logs are about, and when that side loses.
#[derive(Clone, Copy)]
pub struct Sought<'a> {
    /// A list in which the form stands.
    pub formulas: &'a Formulas,
    /// A formula in normal form that is true where the side loses.
    pub form: FormulaId,
    pub side: Side,
    /// The kind of the side's machines.
    pub kind: Kind,
    /// The number of inputs, whose signals come first, and that of outputs.
    pub inputs: u32,
    pub outputs: u32,
}

/// What the logs of one side are tested against, made once for all of them. Seen by contracts as the form and what goes with it.
#[derive(Drop)]
pub struct Ground<'a> {
    sought: Sought<'a>,
    /// The problem of the side's machines of one state. None where the side's automaton passes a limit.
    search: Option<Problem>,
}

impl<'a> Model for Ground<'a> {
    ghost use Rattle.size_refutations.specs.Ground.{LogGround};
    ghost use Rattle.size_refutations.specs.Parts.{IsKeptProblem, ground_of};

    ghost Value = { LogGround };

    ghost view = { λ g. ground_of g.sought };

    ghost invariant = { λ g. IsKeptProblem (ground_of g.sought) g.search };
}

impl<'a> Ground<'a> {
    /// What the logs of a side are tested against. It takes the time of the form's automaton and of its components.
    pub fn new(alloc: Global, sought: Sought<'a>) -> Result<Ground<'a>, AllocError>
        requires { IsSought (ground_of sought) }
        ensures { IfOk result (λ made. made ≡ ground_of sought.entry) }
    {
        let search = search_for(alloc, sought)?;
        Ok(Ground { sought, search })
    }

    /// The line at which a log fails. Its base clauses are counted before any is made, and its entries are tested one after the other. It takes
    /// the memory of the base clauses of one size.
    pub fn log_line(&self, alloc: Global, log: &SizeLog) -> Result<Option<u64>, AllocError>
        requires { IsReadLog log.now }
        ensures { IfOk result (LogFails self.now log.now) }
    {
        match &self.search {
            Some(search) => searched_line(alloc, self.sought, search, log),
            None => Ok(Some(log.line)),
        }
    }

    /// The number of signals that the side's machines read.
    pub fn reads(&self) -> u32
        ensures value { result ≡ reads_on self.now }
        ensures few { result ≤ LARGE_LIMITS.signals }
    {
        let _search = &self.search;
        match self.sought.side {
            Side::System => self.sought.inputs,
            Side::Environment => self.sought.outputs,
        }
    }

    /// The problem of the side's machines of one state, over its automaton. None where it has none.
    pub fn problem(&self) -> Option<&Problem>
        ensures some { IfSome result (λ problem. IsSizeOf self.now 1 problem.now) }
        ensures none { result ≡ None → HasNoAutomaton self.now }
    {
        match &self.search {
            Some(search) => Some(search),
            None => None,
        }
    }

    /// The number of base clauses of a size over letters. None where the side has no automaton, the letters aren't a list of letters that are
    /// read, by rising number, or the size isn't allowed over them. An error means that the automaton has as many owners as can be counted.
    pub fn count(&self, size: u32, letters: &[u32]) -> Result<Option<u64>, AllocError>
        ensures { IfOk result (IsCountOf self.now size letters.now) }
    {
        match &self.search {
            Some(search) => count_at(self.sought, search, size, letters),
            None => Ok(None),
        }
    }

    /// These base clauses, in their order, where there is such a number of them.
    pub fn encoded(
        &self,
        alloc: Global,
        size: u32,
        letters: &[u32],
    ) -> Result<Option<Cnf>, AllocError>
        ensures clauses { IfOk result (AreClausesAt self.now size letters.now) }
        ensures formula { IfOk result (λ made. IfSome made (λ base. IsFormula base.vars base.clauses.items)) }
    {
        match &self.search {
            Some(search) => clauses_at(alloc, self.sought, search, size, letters),
            None => Ok(None),
        }
    }
}

/// The search of a side, if it has an automaton.
fn search_for(alloc: Global, sought: Sought<'_>) -> Result<Option<Problem>, AllocError>
    requires { IsSought (ground_of sought) }
    ensures { IfOk result (IsSearched (ground_of sought.entry)) }
{
    let Some(automaton) = automaton_for(alloc, sought)? else {
        return Ok(None);
    };
    let problem = problem_over(alloc, sought, automaton)?;
    Ok(Some(problem))
}

/// The automaton of a side, if it has one.
fn automaton_for(alloc: Global, sought: Sought<'_>) -> Result<Option<Automaton>, AllocError>
    requires { IsSought (ground_of sought) }
    ensures automaton { IfOk result (IsAutomatonOrNone (ground_of sought.entry)) }
    ensures few { IfOk result (λ made. IfSome made (λ a. states_of a ≤ LARGE_LIMITS.automaton.states)) }
{
    let limits = LARGE_LIMITS.automaton;
    match build(
        alloc,
        sought.formulas,
        sought.form,
        Covering::Reduced,
        limits,
    ) {
        Ok(automaton) => {
            if names_signals(automaton.edges(), sought.inputs + sought.outputs) {
                Ok(Some(automaton))
            } else {
                Ok(None)
            }
        }
        Err(BuildFault::TooLarge) => Ok(None),
        Err(BuildFault::TooManyNodes) => unreachable!(),
        Err(BuildFault::NoMemory) => Err(AllocError),
    }
}

/// The problem over an automaton, for machines of one state.
fn problem_over(
    alloc: Global,
    sought: Sought<'_>,
    automaton: Automaton,
) -> Result<Problem, AllocError>
    requires automaton { IsAutomatonFor (ground_of sought) automaton }
    requires few { states_of automaton ≤ LARGE_LIMITS.automaton.states }
    ensures size { IfOk result (IsSizeOf (ground_of sought.entry) 1) }
    ensures kept { IfOk result (λ problem. automaton_of problem ≡ automaton) }
{
    let counting = Counts::Local.over(alloc, &automaton)?;
    Ok(Problem {
        automaton: Arc::new(alloc, automaton)?,
        inputs: sought.inputs,
        outputs: sought.outputs,
        side: sought.side,
        kind: sought.kind,
        size: 1,
        counting,
    })
}

/// Whether no edge's cube names a signal but the first ones.
fn names_signals(edges: &[Edge], signals: u32) -> bool
    requires { signals ≤ 32 }
    ensures all { OnTrue result (All (NamesSignals signals) edges.now) }
    ensures other { OnFalse result (All (NamesSignals signals) edges.now → ⊥) }
{
    for edge in edges {
        if !names_its_signals(*edge, signals) {
            return false;
        }
    }
    true
}

/// Whether an edge's cube names no signal but the first ones.
fn names_its_signals(edge: Edge, signals: u32) -> bool
    requires { signals ≤ 32 }
    ensures all { OnTrue result (NamesSignals signals edge) }
    ensures other { OnFalse result (NamesSignals signals edge → ⊥) }
{
    let end = 1u64 << signals;
    u64::from(edge.cube.must) < end && u64::from(edge.cube.not) < end
}
