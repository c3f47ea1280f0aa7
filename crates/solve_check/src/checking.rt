//! A document against a text, as a whole.
ghost use Rattle.std.specs.Prelude.{ℕ, List, Option, IfOk};
ghost use Rattle.letters_and_lassos.specs.declared.kinds.Kind.{Kind as AKind};
ghost use Rattle.solve_ground.specs.SolveText.{IsSolveText};
ghost use Rattle.solve_check.specs.Checked.{IsCheckedFor, IsMeantOf, IsReady};
ghost use Rattle.solve_check.specs.Parts.{AreLaws, IsTested};
ghost use Rattle.solved_text.specs.Reading.{Reads};

use crate::acceptance::{Acceptance, told_of};
use crate::claims::{circuit_is_sound, claim_line};
use crate::line_tests::{Tested, test_lines};
use circuit_laws::laws::{
    losing_circuits_defeat, no_small_circuit_defeats, no_small_circuit_satisfies,
};
use named_annotation::laws::valid_named_lists_show;
use size_refutations::laws::{holding_logs_refute, logs_are_determined};
use solve_ground::SolveText;
use solved_text::laws::solved_are_determined;
use solved_text::{SolvedLines, read_solved};
use std::alloc::{AllocError, Global};

/// What a document is for a text.
#[derive(Clone, Copy)]
pub enum Checked {
    /// It holds.
    Accepted(Acceptance),
    /// Its first bad line, from 1.
    BadLine(u64),
}

/// Tests a document of version 6 against a text, and gives what is told of it where it holds, else its first bad line.
///
/// Where it holds, its circuit satisfies the text, or defeats every machine, by the meaning of the text as it is written, it reaches
/// exactly the states that the verdict says, and the sizes whose logs it has are refuted. It takes a step of the circuit for each state
/// and each letter that is read, at most 2^26, and the same for the pairs of the annotation.
pub fn check_solved(alloc: Global, text: &SolveText, bytes: &[u8]) -> Result<Checked, AllocError>
    requires { IsReady text.now }
    ensures checked { IfOk result (IsCheckedFor text.now bytes.now) }
    ensures means { (source : List ℕ) (given : Option AKind) → IsSolveText source given text.now → IfOk result (IsMeantOf source given bytes.now) }
{
    let lines = read_solved(alloc, bytes)?;
    let tested = test_lines(alloc, text, bytes, &lines)?;
    checked_of(alloc, text, bytes, &lines, &tested)
}

/// What a document is of whose lines this was found.
#[tactic(none)]
fn checked_of(
    alloc: Global,
    text: &SolveText,
    bytes: &[u8],
    lines: &SolvedLines,
    tested: &Tested,
) -> Result<Checked, AllocError>
    requires reads { Reads bytes.now lines.now }
    requires tests { IsTested text.now bytes.now lines.now tested.now }
    ensures checked { IfOk result (IsCheckedFor text.now bytes.now) }
    ensures means { (source : List ℕ) (given : Option AKind) → IsSolveText source given text.now → IfOk result (IsMeantOf source given bytes.now) }
{
    laws_hold();
    if let Some(line) = tested.first {
        return Ok(Checked::BadLine(line));
    }
    match claim_line(alloc, text, bytes, lines, &tested.reading)? {
        Some(line) => Ok(Checked::BadLine(line)),
        None => {
            circuit_is_sound(&lines.circuit);
            let told = told_of(text, lines)?;
            Ok(Checked::Accepted(told))
        }
    }
}

/// What is known of documents, logs, annotations and circuits.
fn laws_hold()
    ensures { AreLaws }
{
    solved_are_determined();
    logs_are_determined();
    holding_logs_refute();
    valid_named_lists_show();
    losing_circuits_defeat();
    no_small_circuit_satisfies();
    no_small_circuit_defeats();
}
