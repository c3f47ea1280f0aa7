//! The base clauses of version 4 of a text's sizes.
ghost use Rattle.std.specs.Prelude.{ℕ, None, List};
ghost use Rattle.size_refutations.specs.Parts.{IsSought, ground_of};
ghost use Rattle.solve_ground.specs.SolveText.{IsSolveText};

use crate::lines::Lines;
use crate::push_fault;
use letters_and_lassos::Side;
use propositional_logic::{Clause, Cnf};
use size_refutations::{Ground, Sought};
use solve_ground::{SolveText, solve_text};
use std::alloc::{AllocError, Global};

/// What a side keeps from being true.
fn sought(text: &SolveText, side: Side) -> Sought<'_>
    requires { (bytes : List ℕ) × IsSolveText bytes None text.now }
    ensures { IsSought (ground_of result) }
{
    let (form, kind) = match side {
        Side::System => (text.negated, text.kind),
        Side::Environment => (text.normal, text.kind.other()),
    };
    Sought {
        formulas: &text.formulas,
        form,
        side,
        kind,
        inputs: text.inputs.len() as u32,
        outputs: text.outputs.len() as u32,
    }
}

/// The letters of a word: `all`, or their numbers with commas between.
fn letters_of(alloc: Global, word: &[u8], reads: u32) -> Result<Vec<u32>, AllocError> {
    if word == b"all".as_slice() {
        return all_letters(alloc, reads);
    }
    let mut letters = Vec::new(alloc);
    for digits in word.split(|byte| *byte == b',') {
        letters.push(number_of(digits))?;
    }
    Ok(letters)
}

fn all_letters(alloc: Global, reads: u32) -> Result<Vec<u32>, AllocError> {
    let mut letters = Vec::new(alloc);
    for letter in 0..1u32 << reads.min(16) {
        letters.push(letter)?;
    }
    Ok(letters)
}

fn number_of(digits: &[u8]) -> u32 {
    let mut number: u32 = 0;
    for digit in digits {
        number = number
            .saturating_mul(10)
            .saturating_add(u32::from(digit & 15));
    }
    number
}

/// The number of each literal's variable, negative where it is negated.
fn push_clause(lines: &mut Lines, clause: &Clause) -> Result<(), AllocError> {
    for lit in clause.lits() {
        let sign = if lit.is_positive() { "" } else { "-" };
        let word = format!(in lines.alloc; "{sign}{} ", lit.var())?;
        lines.push(word.as_bytes())?;
    }
    lines.push(b"0\n")
}

/// The numbers of states, of variables and of clauses, and the clauses where they are fewer than ten.
fn push_size(lines: &mut Lines, size: u32, base: &Cnf) -> Result<(), AllocError> {
    let line = format!(in lines.alloc; "{size}: {} {}\n", base.vars, base.clauses.len())?;
    lines.push(line.as_bytes())?;
    if base.clauses.len() < 10 {
        for clause in &base.clauses {
            push_clause(lines, clause)?;
        }
    }
    Ok(())
}

/// The sizes 1 to 3 over the letters of a word.
fn push_over(lines: &mut Lines, ground: &Ground<'_>, word: &[u8]) -> Result<(), AllocError> {
    let letters = letters_of(lines.alloc, word, ground.reads())?;
    for size in 1..4 {
        match ground.encoded(lines.alloc, size, &letters)? {
            Some(base) => push_size(lines, size, &base)?,
            None => lines.push(b"not allowed\n")?,
        }
    }
    Ok(())
}

/// The side of a word, and the words behind it.
fn side_of(words: &[u8]) -> (Side, &[u8]) {
    match words.strip_prefix(b"environment ") {
        Some(rest) => (Side::Environment, rest),
        None => (
            Side::System,
            words.strip_prefix(b"system ").unwrap_or(words),
        ),
    }
}

/// What comes of a text for `SIDE LETTERS` and a name.
pub(crate) fn push_sizes(lines: &mut Lines, words: &[u8], text: &[u8]) -> Result<(), AllocError> {
    let (side, rest) = side_of(words);
    let word = rest.split(|byte| *byte == b' ').next().unwrap_or(b"");
    match solve_text(lines.alloc, text, None) {
        Ok(text) => {
            let ground = Ground::new(lines.alloc, sought(&text, side))?;
            push_over(lines, &ground, word)
        }
        Err(fault) => push_fault(lines, fault),
    }
}
