//! The entries of a log in LRAT, and their clauses in DRAT.

use crate::dimacs::{push_clause, push_literal};
use names_and_numbers::push_number;
use refutation_log::Entry;
use std::alloc::AllocError;

/// Each entry with its number, which comes behind those of the base clauses, and its hints.
pub(crate) fn push_lrat(base: u64, entries: &[Entry], out: &mut Vec<u8>) -> Result<(), AllocError> {
    let mut number = base;
    for entry in entries {
        number = number.saturating_add(1);
        push_number(out, number)?;
        out.push(b' ')?;
        push_literals(entry, out)?;
        for hint in entry.hints.numbers() {
            push_number(out, *hint)?;
            out.push(b' ')?;
        }
        out.extend_from_slice(b"0\n")?;
    }
    Ok(())
}

/// The literals of an entry, and a 0.
fn push_literals(entry: &Entry, out: &mut Vec<u8>) -> Result<(), AllocError> {
    for lit in entry.clause.lits() {
        push_literal(*lit, out)?;
    }
    out.extend_from_slice(b"0 ")
}

/// A line for each entry's clause.
pub(crate) fn push_drat(entries: &[Entry], out: &mut Vec<u8>) -> Result<(), AllocError> {
    for entry in entries {
        push_clause(entry.clause.as_clause(), out)?;
    }
    Ok(())
}
