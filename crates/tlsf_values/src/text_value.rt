//! The public call: the value of an expression of a text.

ghost use Rattle.std.specs.Prelude.{◌≡◌, ◌+◌, IfOk, OnErr, OnOk, [], map, reverse, take};
ghost use Rattle.ltl_formula.specs.Nodes.{Grows, IsNodeIn};
ghost use Rattle.tlsf_values.specs.EnvSeen.{binding_of, buses_named, env_bound, env_names, metered, signals_named, work_of};
ghost use Rattle.tlsf_values.specs.NamesSeen.{names_seen};
ghost use Rattle.tlsf_values.specs.Results.{IsOutcome};
ghost use Rattle.tlsf_syntax.specs.Seen.{expr_seen};
ghost use Rattle.tlsf_values.specs.Values.{value_at};

use crate::names::Names;
use crate::scope::Scope;
use crate::value::Value;
use crate::work::{MOST_DEPTH, Work};
use ltl_formula::{AddFault, FormulaId, Formulas, MAX_NODES};
use names_and_numbers::Name;
use spec_faults::SpecFault;
use std::alloc::{AllocError, Global};
use text_limits::Limits;
use tlsf_syntax::{Expr, SpecTree};

/// What stands around an expression beside its text's definitions.
#[derive(Debug, Drop)]
pub struct Env {
    /// The bound names with their values, of which the last one of a name counts.
    pub bound: Vec<(Name, Value)>,
    /// The signal of each single name.
    pub signals: Vec<(Name, u32)>,
    /// The first signal and the width of each bus.
    pub buses: Vec<(Name, u32, u32)>,
}

/// The evaluations that were done, and the nodes and calls that are entered and not left.
#[derive(Clone, Copy, Debug, PartialEq, Eq)]
pub struct Meter {
    pub done: u64,
    pub depth: u32,
}

impl<'t> Names<'t> {
    /// The value of an expression of the text that has these names, where no name is bound and no node entered. After a
    /// refusal too the formulas that stood keep their ids; how many evaluations were done isn't said then.
    pub fn value_of(&self, expr: &'t Expr, work: &mut Work) -> Result<Value, SpecFault>
        ensures value { IsOutcome result work.new (value_at (names_seen self.now) [] (expr_seen expr.now) 0 work.old) }
        ensures grows { Grows work.old.formulas work.new.formulas }
    {
        let mut bound = Scope::new(self.alloc);
        self.value(&mut bound, expr, MOST_DEPTH, work)
    }

    fn add_signals(&mut self, signals: &[(Name, u32)]) -> Result<(), AllocError>
        ensures { OnOk result (names_seen self.new ≡ signals_named (names_seen self.old) signals.now) }
    {
        for signal in signals {
            self.add_signal(&signal.0, signal.1)?;
        }
        Ok(())
    }

    fn add_buses(&mut self, buses: &[(Name, u32, u32)]) -> Result<(), AllocError>
        ensures { OnOk result (names_seen self.new ≡ buses_named (names_seen self.old) buses.now) }
    {
        for bus in buses {
            self.add_bus(&bus.0, bus.1, bus.2)?;
        }
        Ok(())
    }

    /// The names of a text's definitions and of the signals around them.
    fn of_env(alloc: Global, tree: &'t SpecTree, env: &Env) -> Result<Names<'t>, AllocError>
        ensures { IfOk result (λ names. names_seen names ≡ env_names tree.now env.now) }
    {
        let mut names = Names::new(alloc);
        names.add_definitions(&tree.definitions)?;
        names.add_signals(&env.signals)?;
        names.add_buses(&env.buses)?;
        Ok(names)
    }
}

/// The bound names with their values.
fn scope<'e>(alloc: Global, bound: &'e [(Name, Value)]) -> Result<Scope<'e>, AllocError>
    ensures { IfOk result (λ scope. scope ≡ reverse (map binding_of bound.now)) }
{
    let mut scope = Scope::new(alloc);
    for entry in bound {
        scope.push(&entry.0, entry.1.clone()?)?;
    }
    Ok(scope)
}

/// Adds a node of the list to a copy of those before it.
fn add_same(copy: &mut Formulas, formulas: &Formulas, id: FormulaId) -> Result<(), AllocError>
    requires stands { IsNodeIn formulas.now id }
    requires before { copy.old ≡ take id.0 formulas.now }
    ensures { OnOk result (copy.new ≡ take (id.0 + 1) formulas.now) }
{
    match copy.add(MAX_NODES, formulas.node(id)) {
        Ok(_) => Ok(()),
        Err(AddFault::NoMemory) => Err(AllocError),
        Err(AddFault::TooManyNodes) => unreachable!(),
    }
}

/// A list of the same formulas.
fn copied(alloc: Global, formulas: &Formulas) -> Result<Formulas, AllocError>
    ensures { IfOk result (λ copy. copy ≡ formulas.now) }
{
    let mut copy = Formulas::new(alloc);
    for place in 0..formulas.len() as u32 {
        add_same(&mut copy, formulas, FormulaId(place))?;
    }
    Ok(copy)
}

/// The value of an expression of a text, or its first fault: the meter counts the evaluations, and the formulas that the
/// value needs join the list. A formula that passes the limits is refused. After a
/// refusal the meter and the list are as before.
/// It makes a map of the text's names and copies the list first; for several expressions of one text make `Names` once.
pub fn value_of(
    tree: &SpecTree,
    expr: &Expr,
    env: &Env,
    limits: Limits,
    meter: &mut Meter,
    formulas: &mut Formulas,
) -> Result<Value, SpecFault>
    ensures value { IsOutcome result (work_of limits meter.new.done formulas.new) (metered limits (value_at (env_names tree.now env.now) (env_bound env.now) (expr_seen expr.now) meter.old.depth (work_of limits meter.old.done formulas.old))) }
    ensures depth { meter.new.depth ≡ meter.old.depth }
    ensures refused { OnErr result (formulas.new ≡ formulas.old) }
    ensures uncounted { OnErr result (meter.new.done ≡ meter.old.done) }
{
    let alloc = *env.bound.allocator();
    let names = Names::of_env(alloc, tree, env)?;
    let mut work = Work {
        limits,
        done: meter.done,
        formulas: copied(alloc, formulas)?,
    };
    let mut bound = scope(alloc, &env.bound)?;
    let left = MOST_DEPTH.saturating_sub(meter.depth);
    let value = names.value(&mut bound, expr, left, &mut work)?;
    meter.done = work.done;
    *formulas = work.formulas;
    Ok(value)
}
