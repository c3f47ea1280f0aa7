use names_and_numbers::push_number;
use propositional_logic::{Clause, Cnf, Lit};
use std::alloc::AllocError;

/// Appends a formula in DIMACS form: a head line, and a line for each clause.
pub fn push_formula(base: &Cnf, out: &mut Vec<u8>) -> Result<(), AllocError> {
    out.extend_from_slice(b"p cnf ")?;
    push_number(out, base.vars as u64)?;
    out.push(b' ')?;
    push_number(out, base.clauses.len() as u64)?;
    out.push(b'\n')?;
    for clause in &base.clauses {
        push_clause(clause, out)?;
    }
    Ok(())
}

pub(crate) fn push_clause(clause: &Clause, out: &mut Vec<u8>) -> Result<(), AllocError> {
    for lit in clause.lits() {
        push_literal(*lit, out)?;
    }
    out.extend_from_slice(b"0\n")
}

pub(crate) fn push_literal(lit: Lit, out: &mut Vec<u8>) -> Result<(), AllocError> {
    if !lit.is_positive() {
        out.push(b'-')?;
    }
    push_number(out, lit.var() as u64)?;
    out.push(b' ')?;
    Ok(())
}
