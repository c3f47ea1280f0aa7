//! The files of a document's logs.

ghost use Rattle.document_check.specs.Shown.{AreFactsFor, facts_of as facts_seen};

use crate::base::{Over, base_of};
use crate::dimacs::push_formula;
use crate::entries::{push_drat, push_lrat};
use crate::faults::TextFault;
use crate::solved_files::files_of_solved;
use document_check::counts_for;
use document_text::Document;
use letters_and_lassos::Side;
use machine_table::{ShowFault, Shown, ShownLog};
use program_replies::refused;
use propositional_logic::Cnf;
use spec_faults::SpecFault;
use spec_problems::text_problems;
use std::alloc::{AllocError, Global};
use text_ground::facts_of;
use text_limits::SMALL_LIMITS;

/// A file, and what stands behind a prefix in its name.
#[derive(Drop)]
pub struct ProofFile {
    pub ending: String,
    pub bytes: Vec<u8>,
}

/// For each log of a document its base clauses in DIMACS form (`.cnf`), its entries in LRAT (`.lrat`) and their clauses in DRAT (`.drat`).
/// The names of a log that isn't closed say that it is no refutation. The entries themselves aren't tested.
pub fn proof_files(alloc: Global, shown: &Shown, text: &[u8]) -> Result<Vec<ProofFile>, TextFault> {
    match shown {
        Shown::Document(document) => files_of_document(alloc, shown, document, text),
        Shown::Solved(document) => files_of_solved(alloc, shown, document, text),
        Shown::Circuit(_) => Err(TextFault::NotShown(ShowFault::NoSuchDocument)),
    }
}

fn files_of_document(
    alloc: Global,
    shown: &Shown,
    document: &Document,
    text: &[u8],
) -> Result<Vec<ProofFile>, TextFault> {
    let version = document.version;
    let kind = document.kind;
    let text = match text_problems(alloc, text, Some(kind), counts_for(version)) {
        Ok(text) => text,
        Err(SpecFault::NoMemory) => return Err(TextFault::NotShown(ShowFault::NoMemory)),
        Err(SpecFault::At { code, place }) => {
            return Err(TextFault::Refused(refused(alloc, code, place)?.bytes));
        }
    };
    let over = Over {
        facts: facts_of(&text),
        kind,
        version,
    };
    files_of(alloc, over, shown)
}

fn files_of(alloc: Global, over: Over<'_>, shown: &Shown) -> Result<Vec<ProofFile>, TextFault>
    requires { AreFactsFor over.version (facts_seen over.facts) }
{
    let mut files = Vec::new(alloc);
    for place in 0..shown.log_count() {
        if let Some(log) = shown.log(place) {
            push_files(alloc, over, log, &mut files)?;
        }
    }
    Ok(files)
}

fn push_files(
    alloc: Global,
    over: Over<'_>,
    log: ShownLog<'_>,
    files: &mut Vec<ProofFile>,
) -> Result<(), TextFault>
    requires { AreFactsFor over.version (facts_seen over.facts) }
{
    if log.size < 1 || log.size > SMALL_LIMITS.machine {
        return Err(TextFault::NotShown(ShowFault::OtherText(log.line)));
    }
    let Some(base) = base_of(alloc, over, log.side, log.size)? else {
        return Err(TextFault::NotShown(ShowFault::OtherText(log.line)));
    };
    push_log(alloc, &base, log, files)
}

/// The files of a log, if it has as many variables and base clauses as it says.
pub(crate) fn push_log(
    alloc: Global,
    base: &Cnf,
    log: ShownLog<'_>,
    files: &mut Vec<ProofFile>,
) -> Result<(), TextFault> {
    if base.vars != log.vars || base.clauses.len() as u64 != log.base {
        return Err(TextFault::NotShown(ShowFault::OtherText(log.line)));
    }
    push_three(alloc, base, log, files)?;
    Ok(())
}

fn push_three(
    alloc: Global,
    base: &Cnf,
    log: ShownLog<'_>,
    files: &mut Vec<ProofFile>,
) -> Result<(), AllocError> {
    let mut bytes = Vec::new(alloc);
    push_formula(base, &mut bytes)?;
    push_file(alloc, log, "cnf", bytes, files)?;
    let mut bytes = Vec::new(alloc);
    push_lrat(log.base, log.entries, &mut bytes)?;
    push_file(alloc, log, "lrat", bytes, files)?;
    let mut bytes = Vec::new(alloc);
    push_drat(log.entries, &mut bytes)?;
    push_file(alloc, log, "drat", bytes, files)
}

fn push_file(
    alloc: Global,
    log: ShownLog<'_>,
    form: &str,
    bytes: Vec<u8>,
    files: &mut Vec<ProofFile>,
) -> Result<(), AllocError> {
    let side = match log.side {
        Side::System => "system",
        Side::Environment => "environment",
    };
    let size = log.size;
    let what = if is_closed(log) { "" } else { "-no-refutation" };
    let ending = format!(in alloc; "-{side}-{size}{what}.{form}")?;
    files.push(ProofFile { ending, bytes })?;
    Ok(())
}

fn is_closed(log: ShownLog<'_>) -> bool {
    log.entries
        .last()
        .is_some_and(|entry| entry.clause.lits().is_empty())
}
