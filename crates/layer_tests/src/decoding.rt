//! Assignments of a problem whose clauses are known.
ghost use Rattle.std.specs.Prelude.{◌≡◌};
ghost use Rattle.propositional_logic.specs.Truth.{is_true_clause, is_true_literal, meets};

use crate::problems::{checked, digit, rows_of, wire};
use annotation_encode::{assignment_of, encode, variables};
use machine_decode::{Decoded, decode};
use propositional_logic::{Assignment, Clause, Lit};
use std::test::Fail;

fn is_true(values: &[bool], lit: Lit) -> bool
    ensures { result ≡ is_true_literal values.now lit }
{
    let place = lit.var().saturating_sub(1) as usize;
    let value = values.get(place).copied().unwrap_or(false);
    if lit.is_positive() { value } else { !value }
}

fn is_true_clause(values: &[bool], clause: &Clause) -> bool
    ensures { result ≡ is_true_clause values.now clause.now }
{
    clause.lits().iter().any(|lit| is_true(values, *lit))
}

fn is_met(values: &[bool], clauses: &[Clause]) -> bool
    ensures { result ≡ meets values.now clauses.now }
{
    clauses.iter().all(|clause| is_true_clause(values, clause))
}

/// The bits of a text.
fn bits(rt: &HostRuntime, digits: &[u8]) -> Result<Vec<bool>, Fail> {
    let mut bits = Vec::new(rt.alloc());
    for digit in digits {
        bits.push(*digit == b'1')?;
    }
    Ok(bits)
}

/// A digit for each number, `-` where there is none.
fn push_numbers(text: &mut Vec<u8>, numbers: &[Option<u32>]) -> Result<(), Fail> {
    for number in numbers {
        text.push(number.map_or(b'-', digit))?;
    }
    Ok(())
}

/// The machine's rows, the number of each pair, and what the values of that machine and annotation are.
fn told(rt: &HostRuntime, decoded: &Decoded, again: &Assignment) -> Result<Vec<u8>, Fail> {
    let machine = decoded.machine.clone()?;
    let mut text = rows_of(rt, &machine)?;
    text.push(b' ')?;
    push_numbers(&mut text, &decoded.annotation.numbers)?;
    text.push(b' ')?;
    for value in &again.values {
        text.push(b'0' + u8::from(*value))?;
    }
    Ok(text)
}

/// What an assignment of the wire decodes to; nothing, if it doesn't meet the clauses.
fn decoded(rt: &HostRuntime, digits: &[u8]) -> Result<Vec<u8>, Fail> {
    let problem = checked(wire(rt)?).ok_or("a problem within the limits")?;
    let assignment = Assignment {
        values: bits(rt, digits)?,
    };
    let cnf = encode(rt.alloc(), &problem)?;
    if assignment.values.len() != variables(&problem) as usize || problem.counting.is_numbered() {
        return Ok(Vec::new(rt.alloc()));
    }
    if !is_met(&assignment.values, &cnf.clauses) {
        return Ok(Vec::new(rt.alloc()));
    }
    let decoded = decode(rt.alloc(), &problem, &assignment)?;
    let again = assignment_of(rt.alloc(), &problem, &decoded.machine, &decoded.annotation)?;
    told(rt, &decoded, &again)
}

#[test]
fn a_wire(rt: HostRuntime) -> Result<(), Fail> {
    for (digits, want) in [
        // The machine copies r, and no pair with the rejecting state is met.
        (b"11011000".as_slice(), b"0001 0- 11011000".as_slice()),
        // The greatest count.
        (b"11011100", b"0001 1- 11011100"),
        // The machine would write the opposite of r.
        (b"11101000", b""),
    ] {
        assert_eq!(rt; decoded(&rt, digits)?.as_slice(), want);
    }
    Ok(())
}
