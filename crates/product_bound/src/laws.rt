//! From cycles to run lassos, and from machines to numbered ones.
ghost use Rattle.std.specs.Prelude.{◌≡◌, ◌<◌, ◌^◌, All, IfOk, OnOk, length, map, suc};
ghost use Rattle.std.specs.List.{range_with_len};
ghost use Rattle.machine_model.specs.Accepts.{Accepts};
ghost use Rattle.machine_model.specs.Problem.{IsMachineOf, IsProblem, automaton_of};
ghost use Rattle.machine_model.specs.Run.{IsRunLasso};
ghost use Rattle.product_bound.specs.Laws.{AcceptedIsAnnotated, AcceptedOrRejected, IsNumberedForm, NumberedSuffices};
ghost use Rattle.product_bound.specs.Numbered.{named_before, numbered_of, numbered_row, place_in};

use crate::annotations::letter_count;
use letters_and_lassos::{Lasso, Letter};
use machine_model::laws::{components_are_classes, joined_is_reached};
use machine_model::{Machine, Problem, Row, RunLasso, whole_letter};
use std::alloc::{AllocError, Global};

/// A step of a path in the product of a machine and an automaton: the pair of their states, and the letter that the
/// machine reads when the pair is left.
#[derive(Clone, Copy, Debug, PartialEq, Eq)]
pub struct ProductStep {
    pub t: u32,
    pub q: u32,
    pub letter: u32,
}

ghost use Rattle.product_bound.specs.Product.{IsRejectingCycle, IsStepOf, letters_of, states_of_cycle, word_of_cycle};

/// The run lasso of a path that comes back at its end to the pair at place `from`, and meets a rejecting state from
/// there on: the automaton accepts its word. The letter of the path's last step isn't read.
pub fn lasso_of_cycle(
    alloc: Global,
    problem: &Problem,
    machine: &Machine,
    path: &[ProductStep],
    from: usize,
) -> Result<RunLasso, AllocError>
    requires problem { IsProblem problem.now }
    requires machine { IsMachineOf problem.now machine.now }
    requires cycle { IsRejectingCycle problem.now machine.now path.now from }
    ensures word { IfOk result (λ run. run.word ≡ word_of_cycle problem.now machine.now path.now from) }
    ensures states { IfOk result (λ run. run.states.items ≡ states_of_cycle path.now) }
    ensures run { IfOk result (λ run. IsRunLasso machine.now problem.now.side run.word run.states.items) }
    ensures accepted { IfOk result (λ run. Accepts (automaton_of problem.now) run.word) }
{
    let size = machine.size();
    prove!(size == problem.size);
    let left = &path[..path.len() - 1];
    let stem = letters_of(alloc, problem, machine, &left[..from])?;
    let ring = letters_of(alloc, problem, machine, &left[from..])?;
    let states = left.iter().map(|step| step.t).collect(alloc)?;
    let Ok(word) = Lasso::new(stem, ring) else {
        unreachable!()
    };
    Ok(RunLasso { word, states })
}

/// The whole letters of steps.
fn letters_of(
    alloc: Global,
    problem: &Problem,
    machine: &Machine,
    steps: &[ProductStep],
) -> Result<Vec<Letter>, AllocError>
    requires { All (IsStepOf machine.now) steps.now }
    ensures { IfOk result (λ letters. letters.items ≡ letters_of problem.now machine.now steps.now) }
{
    let mut letters = Vec::with_capacity(alloc, steps.len())?;
    for step in steps {
        letters.push(whole_letter(machine, problem.side, step.t, step.letter))?;
    }
    Ok(letters)
}

/// The machine with its states numbered as its rows first name them, from state 0 on. States that are never named stand
/// last; their rows go to state 0 and write nothing. It has the same run lassos.
///
/// Takes as many steps as there are rows and states, multiplied.
pub fn numbered(alloc: Global, machine: &Machine) -> Result<Machine, AllocError>
    ensures value { IfOk result (λ new. new ≡ numbered_of machine.now) }
    ensures form { IfOk result (IsNumberedForm machine.now) }
{
    let table = numbered_table(alloc, machine)?;
    let Ok(new) = Machine::new(machine.kind(), machine.reads(), machine.writes(), table) else {
        unreachable!()
    };
    Ok(new)
}

/// The rows of the numbered machine.
fn numbered_table(alloc: Global, machine: &Machine) -> Result<Vec<Row>, AllocError>
    ensures { IfOk result (λ table. table.items ≡ map (numbered_row machine.now) (range_with_len 0 (length machine.now.table))) }
{
    let rows = row_count(machine);
    let mut named = Vec::new(alloc);
    named.push(0)?;
    let mut table = Vec::with_capacity(alloc, rows as usize)?;
    for place in 0..rows {
        let row = numbered_row(machine, &mut named, place)?;
        table.push(row)?;
    }
    Ok(table)
}

/// The number of rows of a machine.
fn row_count(machine: &Machine) -> u32
    ensures { result ≡ length machine.now.table }
{
    machine.size() * letter_count(machine)
}

/// The row of the numbered machine at a place, where `named` has the old states in the order of their new numbers, as far
/// as they are named before that place. The state that this row names is added to them.
fn numbered_row(machine: &Machine, named: &mut Vec<u32>, place: u32) -> Result<Row, AllocError>
    requires place { place < length machine.now.table }
    requires named { named.old.items ≡ named_before machine.now place }
    ensures row { IfOk result (λ row. row ≡ numbered_row machine.now place) }
    ensures named { OnOk result (named.new.items ≡ named_before machine.now (suc place)) }
{
    let _size = machine.size();
    let letters = letter_count(machine);
    let t = (place / letters) as usize;
    if t >= named.len() {
        return Ok(Row { next: 0, writes: 0 });
    }
    let old = named[t];
    let letter = place % letters;
    let to = machine.next(old, letter);
    let next = place_in(named, to);
    if next >= named.len() {
        named.push(to)?;
    }
    Ok(Row {
        next: next as u32,
        writes: machine.writes_at(old, letter),
    })
}

/// The place of a state among some states, or their number where it isn't among them.
fn place_in(states: &[u32], state: u32) -> usize
    ensures { result ≡ place_in states.now state }
{
    for (place, at) in states.iter().enumerate() {
        if *at == state {
            return place;
        }
    }
    states.len()
}

/// A side accepts a machine exactly where the machine has a valid annotation.
pub fn accepted_is_annotated()
    ensures { AcceptedIsAnnotated }
{
    joined_is_reached();
    components_are_classes();
}

/// A machine of a problem is accepted by its side, or has a run that the side's automaton accepts.
pub fn accepted_or_rejected()
    ensures { AcceptedOrRejected }
{
    joined_is_reached();
    components_are_classes();
}

/// Each machine has a numbered one of its kind and size with the same run lassos.
pub fn numbered_suffices()
    ensures { NumberedSuffices }
{}
