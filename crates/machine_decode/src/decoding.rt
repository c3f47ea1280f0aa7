ghost use Rattle.std.specs.Prelude.{◌≡◌, ◌+◌, ◌/◌, ◌%◌, ◌^◌, ◌<◌, ◌≤◌, Some, true, IfOk, length, vec_len, if◌then◌else◌};
ghost use Rattle.propositional_logic.specs.Truth.{meets, value_of};
ghost use Rattle.machine_model.specs.Accepts.{SideAccepts};
ghost use Rattle.machine_model.specs.Automaton.{states_of};
ghost use Rattle.machine_model.specs.Machine.{IsMachine};
ghost use Rattle.machine_model.specs.Problem.{IsMachineOf, IsProblem, automaton_of, writes_of};
ghost use Rattle.product_bound.specs.Annotation.{IsValidAnnotation, places_of};
ghost use Rattle.annotation_encode.specs.BaseClauses.{base_clauses, row_count, row_move};
ghost use Rattle.annotation_encode.specs.Variables.{letter_count, var_write, variables_of};
ghost use Rattle.machine_decode.specs.Decoded.{IsDecoded, IsLeastMove};
ghost use Rattle.machine_decode.specs.Written.{AreRows, HasMoves, IsRow, greatest_from, letter_from, numbers_of, pair_number, written_of};

use annotation_encode::{Numbering, letter_count, row_count, var_move, var_write};
use machine_model::laws::joined_is_reached;
use machine_model::{Machine, Problem, Row};
use product_bound::Annotation;
use propositional_logic::Assignment;
use std::alloc::{AllocError, Global};

/// A machine, and a valid annotation of it.
#[derive(Debug, Drop)]
pub struct Decoded {
    pub machine: Machine,
    pub annotation: Annotation,
}

/// The machine and the annotation of an assignment that meets every base clause. Each state goes to the least one to which
/// it may, writes what is true, and each pair has the greatest number that it reaches. The annotation is valid, so the
/// side accepts the machine.
///
/// Takes a few steps for each variable.
pub fn decode(
    alloc: Global,
    problem: &Problem,
    assignment: &Assignment,
) -> Result<Decoded, AllocError>
    requires problem { IsProblem problem.now }
    requires places { length assignment.now.values.items ≡ variables_of problem.now }
    requires met { meets assignment.now.values.items (base_clauses problem.now) ≡ true }
    ensures machine { IfOk result (λ decoded. IsMachineOf problem.now decoded.machine) }
    ensures made { IfOk result (λ decoded. IsMachine decoded.machine) }
    ensures decoded { IfOk result (λ decoded. IsDecoded problem.now assignment.now.values.items decoded.machine decoded.annotation.numbers.items) }
    ensures valid { IfOk result (λ decoded. IsValidAnnotation problem.now decoded.machine decoded.annotation.numbers.items) }
    ensures accepted { IfOk result (λ decoded. SideAccepts (automaton_of problem.now) problem.now.side decoded.machine) }
{
    joined_is_reached();
    let _states = problem.automaton.states();
    let values = assignment.values.as_slice();
    let table = decoded_table(alloc, problem, values)?;
    let Ok(machine) = Machine::new(problem.kind, problem.reads(), problem.writes(), table) else {
        unreachable!()
    };
    let numbers = decoded_numbers(alloc, problem, values)?;
    Ok(Decoded {
        machine,
        annotation: Annotation { numbers },
    })
}

/// The machine's rows.
fn decoded_table(alloc: Global, problem: &Problem, values: &[bool]) -> Result<Vec<Row>, AllocError>
    requires problem { IsProblem problem.now }
    requires moves { HasMoves problem.now values.now }
    ensures rows { IfOk result (λ table. AreRows problem.now values.now (row_count problem.now) table.items) }
    ensures few { IfOk result (λ table. vec_len table < 2 ^ 32) }
{
    let rows = row_count(problem);
    let mut table = Vec::with_capacity(alloc, rows as usize)?;
    for place in 0..rows {
        let row = decoded_row(problem, values, place);
        table.push(row)?;
    }
    Ok(table)
}

/// The row at a place.
fn decoded_row(problem: &Problem, values: &[bool], place: u32) -> Row
    requires problem { IsProblem problem.now }
    requires moves { HasMoves problem.now values.now }
    requires within { place < row_count problem.now }
    ensures { IsRow problem.now values.now place result }
{
    let next = least_move(problem, values, place);
    let writes = written_letter(problem, values, place);
    Row { next, writes }
}

/// The letter that the row at a place writes.
fn written_letter(problem: &Problem, values: &[bool], place: u32) -> u32
    requires problem { IsProblem problem.now }
    requires within { place < row_count problem.now }
    ensures { result ≡ written_of problem.now values.now place }
{
    let signals = problem.writes();
    if signals == 0 {
        return 0;
    }
    let first = first_write(problem, place);
    letter_from(values, first, signals)
}

/// The variable of the first signal that is written on the row at a place.
fn first_write(problem: &Problem, place: u32) -> u32
    requires problem { IsProblem problem.now }
    requires within { place < row_count problem.now }
    requires some { 0 < writes_of problem.now }
    ensures value { result ≡ var_write problem.now (place / letter_count problem.now) (place % letter_count problem.now) 0 }
    ensures small { result ≤ 2 ^ 29 }
{
    let letters = letter_count(problem);
    var_write(problem, place / letters, place % letters, 0)
}

/// The variable of the first move from the row at a place.
fn first_move(problem: &Problem, place: u32) -> u32
    requires problem { IsProblem problem.now }
    requires within { place < row_count problem.now }
    ensures value { result ≡ row_move problem.now place 0 }
    ensures small { result ≤ 2 ^ 29 }
{
    let letters = letter_count(problem);
    var_move(problem, place / letters, place % letters, 0)
}

/// The least state to which the machine may move from the row at a place.
fn least_move(problem: &Problem, values: &[bool], place: u32) -> u32
    requires problem { IsProblem problem.now }
    requires moves { HasMoves problem.now values.now }
    requires within { place < row_count problem.now }
    ensures { IsLeastMove problem.now values.now place result }
{
    let first = first_move(problem, place);
    for to in 0..problem.size {
        if value_of(values, first + to) {
            return to;
        }
    }
    unreachable!()
}

/// The value of a variable.
fn value_of(values: &[bool], var: u32) -> bool
    ensures { result ≡ value_of values.now var }
{
    let place = var.saturating_sub(1) as usize;
    values.get(place).copied().unwrap_or(false)
}

/// The letter of the signals that are true, the first one having this variable.
fn letter_from(values: &[bool], first: u32, signals: u32) -> u32
    requires small { first ≤ 2 ^ 29 }
    requires signals { signals ≤ 8 }
    ensures { result ≡ letter_from values.now first signals }
{
    let mut letter = 0;
    for signal in 0..signals {
        letter += signal_set(value_of(values, first + signal), signal);
    }
    letter
}

/// The set of this signal alone, where it is set.
fn signal_set(is_set: bool, signal: u32) -> u32
    requires { signal < 8 }
    ensures value { result ≡ (if is_set then 2 ^ signal else 0) }
    ensures small { result ≤ 128 }
{
    if is_set { 1 << signal } else { 0 }
}

/// The annotation's numbers.
fn decoded_numbers(
    alloc: Global,
    problem: &Problem,
    values: &[bool],
) -> Result<Vec<Option<u32>>, AllocError>
    requires { IsProblem problem.now }
    ensures { IfOk result (λ numbers. numbers.items ≡ numbers_of problem.now values.now) }
{
    let numbering = Numbering::new(problem);
    let states = problem.automaton.states();
    let pairs = pair_count(problem);
    let mut numbers = Vec::with_capacity(alloc, pairs as usize)?;
    for pair in 0..pairs {
        let number = decoded_number(&numbering, values, (pair / states, pair % states));
        numbers.push(number)?;
    }
    Ok(numbers)
}

/// The greatest number that a pair reaches.
fn decoded_number(numbering: &Numbering, values: &[bool], pair: (u32, u32)) -> Option<u32>
    requires problem { IsProblem numbering.now.problem.now }
    requires state { pair.0 < numbering.now.problem.now.size }
    requires pair { pair.1 < states_of (automaton_of numbering.now.problem.now) }
    ensures { result ≡ pair_number numbering.now.problem.now values.now pair.0 pair.1 }
{
    let first = numbering.var_count(pair, 0);
    let bound = numbering.bound_at(pair.1);
    greatest_from(values, first, bound + 1)
}

/// The number of pairs.
fn pair_count(problem: &Problem) -> u32
    requires { IsProblem problem.now }
    ensures value { result ≡ places_of problem.now }
    ensures small { result ≤ 16000 }
{
    problem.size * problem.automaton.states()
}

/// The greatest of the first numbers whose variable is true, that of 0 being the first.
fn greatest_from(values: &[bool], first: u32, counts: u32) -> Option<u32>
    requires small { first ≤ 2 ^ 30 }
    requires counts { counts ≤ 16001 }
    ensures { result ≡ greatest_from values.now first counts }
{
    let mut greatest = None;
    for count in 0..counts {
        greatest = later(greatest, value_of(values, first + count), count);
    }
    greatest
}

/// This count where it is reached, else the greatest before.
fn later(before: Option<u32>, is_reached: bool, count: u32) -> Option<u32>
    ensures { result ≡ (if is_reached then Some count else before) }
{
    if is_reached { Some(count) } else { before }
}
