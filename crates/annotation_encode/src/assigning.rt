ghost use Rattle.std.specs.Prelude.{◌≡◌, ◌+◌, ◌^◌, ◌<◌, ◌≤◌, ◌++◌, ◌∷◌, [], true, IfOk, OnOk, length};
ghost use Rattle.propositional_logic.specs.Truth.{meets};
ghost use Rattle.machine_model.specs.Problem.{IsMachineOf, IsProblem, numbers_states};
ghost use Rattle.product_bound.specs.Annotation.{IsValidAnnotation, places_of};
ghost use Rattle.product_bound.specs.Numbered.{IsNumbered};
ghost use Rattle.annotation_encode.specs.Assigned.{IsAssignmentOf, machine_value, machine_values, move_value, reaches, state_values, write_value, written_at};
ghost use Rattle.annotation_encode.specs.BaseClauses.{base_clauses, each_below};
ghost use Rattle.annotation_encode.specs.Variables.{letter_count, move_count, write_count, write_places};

use crate::clauses::number_has;
use crate::numbering::{Numbering, letter_count, move_count, write_count};
use letters_and_lassos::Kind;
use machine_model::{Machine, Problem};
use product_bound::Annotation;
use propositional_logic::Assignment;
use std::alloc::{AllocError, Global};

/// The assignment of a machine and a valid annotation of it: of the moves and the writes those of the machine alone are
/// true, and of the numbers each up to the pair's. It meets every base clause. Where states are numbered
/// those of the machine have to be.
///
/// Takes a few steps for each variable.
pub fn assignment_of(
    alloc: Global,
    problem: &Problem,
    machine: &Machine,
    annotation: &Annotation,
) -> Result<Assignment, AllocError>
    requires problem { IsProblem problem.now }
    requires machine { IsMachineOf problem.now machine.now }
    requires places { length annotation.now.numbers.items ≡ places_of problem.now }
    requires valid { IsValidAnnotation problem.now machine.now annotation.now.numbers.items }
    requires numbered { numbers_states problem.now ≡ true → IsNumbered machine.now }
    ensures assigned { IfOk result (λ assignment. IsAssignmentOf problem.now machine.now annotation.now.numbers.items assignment.values.items) }
    ensures met { IfOk result (λ assignment. meets assignment.values.items (base_clauses problem.now) ≡ true) }
{
    let _states = problem.automaton.states();
    let _size = machine.size();
    let numbering = Numbering::new(problem);
    let mut values = Vec::with_capacity(alloc, numbering.variables() as usize)?;
    push_machine_values(problem, machine, &mut values)?;
    for t in 0..problem.size {
        push_state_values(numbering, annotation, t, &mut values)?;
    }
    Ok(Assignment { values })
}

/// Adds the values of the moves, and behind them of the writes.
fn push_machine_values(
    problem: &Problem,
    machine: &Machine,
    values: &mut Vec<bool>,
) -> Result<(), AllocError>
    requires problem { IsProblem problem.now }
    requires machine { IsMachineOf problem.now machine.now }
    ensures { OnOk result (values.new.items ≡ values.old.items ++ machine_values problem.now machine.now) }
{
    for place in 0..move_count(problem) + write_count(problem) {
        values.push(machine_value(problem, machine, place))?;
    }
    Ok(())
}

/// The value of the move or the write at a place.
fn machine_value(problem: &Problem, machine: &Machine, place: u32) -> bool
    requires problem { IsProblem problem.now }
    requires machine { IsMachineOf problem.now machine.now }
    requires within { place < move_count problem.now + write_count problem.now }
    ensures { result ≡ machine_value problem.now machine.now place }
{
    let moves = move_count(problem);
    if place < moves {
        move_value(problem, machine, place)
    } else {
        write_value(problem, machine, place - moves)
    }
}

/// Adds the values of the pairs of the machine's state `t`.
fn push_state_values(
    numbering: Numbering<'_>,
    annotation: &Annotation,
    t: u32,
    values: &mut Vec<bool>,
) -> Result<(), AllocError>
    requires problem { IsProblem numbering.problem.now }
    requires places { length annotation.now.numbers.items ≡ places_of numbering.problem.now }
    requires state { t < numbering.problem.now.size }
    ensures { OnOk result (values.new.items ≡ values.old.items ++ state_values numbering.entry.problem.now annotation.now.numbers.items t) }
{
    let states = numbering.problem.automaton.states();
    for q in 0..states {
        let number = annotation.numbers[(t * states + q) as usize];
        push_pair_values(numbering.bound_at(q), number, values)?;
    }
    Ok(())
}

/// Adds the values of a pair with this number.
fn push_pair_values(
    bound: u32,
    number: Option<u32>,
    values: &mut Vec<bool>,
) -> Result<(), AllocError>
    requires { bound < 2 ^ 31 }
    ensures { OnOk result (values.new.items ≡ values.old.items ++ each_below (bound + 1) (λ c. reaches number c ∷ [])) }
{
    for count in 0..bound + 1 {
        values.push(reaches(number, count))?;
    }
    Ok(())
}

/// Whether the machine moves as the move at this place says.
fn move_value(problem: &Problem, machine: &Machine, place: u32) -> bool
    requires problem { IsProblem problem.now }
    requires machine { IsMachineOf problem.now machine.now }
    requires within { place < move_count problem.now }
    ensures { result ≡ move_value problem.now machine.now place }
{
    let letters = letter_count(problem);
    let row = place / problem.size;
    machine.next(row / letters, row % letters) == place % problem.size
}

/// Whether it writes as the write at this place says.
fn write_value(problem: &Problem, machine: &Machine, place: u32) -> bool
    requires problem { IsProblem problem.now }
    requires machine { IsMachineOf problem.now machine.now }
    requires within { place < write_count problem.now }
    ensures { result ≡ write_value problem.now machine.now place }
{
    let written = written_at(problem, machine, place / problem.writes());
    number_has(written, place % problem.writes())
}

/// The letter that the machine writes at a place of its writes.
fn written_at(problem: &Problem, machine: &Machine, place: u32) -> u32
    requires problem { IsProblem problem.now }
    requires machine { IsMachineOf problem.now machine.now }
    requires within { place < write_places problem.now.kind (letter_count problem.now) problem.now.size }
    ensures { result ≡ written_at problem.now.kind (letter_count problem.now) machine.now place }
{
    let letters = letter_count(problem);
    match problem.kind {
        Kind::Mealy => machine.writes_at(place / letters, place % letters),
        Kind::Moore => machine.writes_at(place, 0),
    }
}

/// Whether a pair with this number reaches the count.
fn reaches(number: Option<u32>, count: u32) -> bool
    ensures { result ≡ reaches number count }
{
    match number {
        Some(number) => count <= number,
        None => false,
    }
}
