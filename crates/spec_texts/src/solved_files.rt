//! The files of the logs of a document of version 6, which are over base clauses of version 4.

ghost use Rattle.std.specs.Prelude.{ℕ, List, Option, IfOk};
ghost use Rattle.letters_and_lassos.specs.declared.kinds.Kind.{Kind as AKind};
ghost use Rattle.size_refutations.specs.Parts.{IsSought, ground_of};
ghost use Rattle.solve_ground.specs.SolveText.{IsSolveText};

use crate::faults::TextFault;
use crate::files::{ProofFile, push_log};
use letters_and_lassos::Side;
use machine_table::{ShowFault, Shown, ShownLog, SolvedDocument};
use program_replies::refused;
use propositional_logic::Cnf;
use size_refutations::{Ground, Sought};
use solve_ground::{SolveText, solve_text};
use solved_text::Letters;
use spec_faults::SpecFault;
use std::alloc::{AllocError, Global};

/// The files of its logs. A document without logs has none, and its text isn't looked at.
pub(crate) fn files_of_solved(
    alloc: Global,
    shown: &Shown,
    document: &SolvedDocument,
    text: &[u8],
) -> Result<Vec<ProofFile>, TextFault> {
    let (Some(side), Some(first)) = (document.side(), shown.log(0)) else {
        return Ok(Vec::new(alloc));
    };
    let text = text_of(alloc, document, text)?;
    let is_as_said = text.semantics.is_some() == document.semantics.is_some();
    if text.kind != document.kind || !is_as_said {
        return Err(TextFault::NotShown(ShowFault::OtherText(first.line)));
    }
    files_over(alloc, &text, side, shown)
}

/// The text as the document takes it: for machines of its kind, or by its own kinds where the document says that it was converted.
fn text_of(alloc: Global, document: &SolvedDocument, text: &[u8]) -> Result<SolveText, TextFault>
    ensures { IfOk result (λ taken. (bytes : List ℕ) × (given : Option AKind) × IsSolveText bytes given taken) }
{
    let given = match document.semantics {
        None => Some(document.kind),
        Some(_) => None,
    };
    match solve_text(alloc, text, given) {
        Ok(taken) => Ok(taken),
        Err(SpecFault::NoMemory) => Err(TextFault::NotShown(ShowFault::NoMemory)),
        Err(SpecFault::At { code, place }) => {
            Err(TextFault::RefusedBySolve(refused(alloc, code, place)?.bytes))
        }
    }
}

fn files_over(
    alloc: Global,
    text: &SolveText,
    side: Side,
    shown: &Shown,
) -> Result<Vec<ProofFile>, TextFault>
    requires { (bytes : List ℕ) × (given : Option AKind) × IsSolveText bytes given text.now }
{
    let ground = Ground::new(alloc, sought(text, side))?;
    let mut files = Vec::new(alloc);
    for place in 0..shown.log_count() {
        if let Some(log) = shown.log(place) {
            push_over(alloc, &ground, log, &mut files)?;
        }
    }
    Ok(files)
}

/// What a side keeps from being true.
fn sought(text: &SolveText, side: Side) -> Sought<'_>
    requires { (bytes : List ℕ) × (given : Option AKind) × IsSolveText bytes given text.now }
    ensures { IsSought (ground_of result) }
{
    let (form, kind) = match side {
        Side::System => (text.negated, text.kind),
        Side::Environment => (text.normal, text.kind.other()),
    };
    Sought {
        formulas: &text.formulas,
        form,
        side,
        kind,
        inputs: text.inputs.len() as u32,
        outputs: text.outputs.len() as u32,
    }
}

fn push_over(
    alloc: Global,
    ground: &Ground<'_>,
    log: ShownLog<'_>,
    files: &mut Vec<ProofFile>,
) -> Result<(), TextFault> {
    match base_of(alloc, ground, log)? {
        Some(base) => push_log(alloc, &base, log, files),
        None => Err(TextFault::NotShown(ShowFault::OtherText(log.line))),
    }
}

/// The base clauses of a log's size over its letters; none where there are none that are allowed.
fn base_of(
    alloc: Global,
    ground: &Ground<'_>,
    log: ShownLog<'_>,
) -> Result<Option<Cnf>, AllocError> {
    match log.letters {
        Some(Letters::Few(list)) => ground.encoded(alloc, log.size, list.numbers()),
        _ => ground.encoded(alloc, log.size, &all_letters(alloc, ground.reads())?),
    }
}

/// All letters of so many signals.
fn all_letters(alloc: Global, signals: u32) -> Result<Vec<u32>, AllocError> {
    let mut letters = Vec::new(alloc);
    for letter in 0..1u32 << signals.min(16) {
        letters.push(letter)?;
    }
    Ok(letters)
}
