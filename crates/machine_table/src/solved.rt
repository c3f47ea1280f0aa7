//! Documents of version 6.

use crate::faults::ShowFault;
use aiger_text::Circuit;
use document_text::CircuitPart;
use letters_and_lassos::{Kind, Side};
use solved_text::{SizeLog, SolvedLines, Verdict, read_solved};
use std::alloc::Global;

/// What a document of version 6 says. Its annotation isn't looked at.
#[derive(Drop)]
pub struct SolvedDocument {
    pub verdict: Verdict,
    /// The kind of the system's machines.
    pub kind: Kind,
    /// The text's SEMANTICS, where that is the other kind and the text was converted.
    pub semantics: Option<Kind>,
    pub circuit: Option<Circuit>,
    /// The logs of the sizes that are refuted, from 1 up.
    pub logs: Vec<SizeLog>,
}

impl SolvedDocument {
    /// The side whose machine it is.
    pub fn side(&self) -> Option<Side> {
        match self.verdict {
            Verdict::Realizable(_) => Some(Side::System),
            Verdict::Unrealizable(_) => Some(Side::Environment),
            Verdict::Unknown => None,
        }
    }

    /// How many states its machine has.
    pub fn states(&self) -> Option<u32> {
        match self.verdict {
            Verdict::Realizable(states) => Some(states),
            Verdict::Unrealizable(states) => Some(states),
            Verdict::Unknown => None,
        }
    }

    /// Whether all smaller sizes are refuted.
    pub fn is_smallest(&self) -> bool {
        let refuted = self.logs.len() as u64;
        self.states()
            .is_some_and(|states| u64::from(states) == refuted.saturating_add(1))
    }
}

/// Reads a document of version 6.
pub(crate) fn read_sixth(alloc: Global, bytes: &[u8]) -> Result<SolvedDocument, ShowFault> {
    let lines = read_solved(alloc, bytes)?;
    if let Some(line) = lines.bad {
        return Err(ShowFault::BadDocument(line));
    }
    if !bytes.ends_with(b"\nend\n") {
        return Err(ShowFault::BadDocument(line_behind(bytes)));
    }
    document_of(lines)
}

/// The line behind the last that is ended.
fn line_behind(bytes: &[u8]) -> u64 {
    let ends = bytes.iter().filter(|byte| **byte == b'\n').count();
    (ends as u64).saturating_add(1)
}

fn document_of(lines: SolvedLines) -> Result<SolvedDocument, ShowFault> {
    let SolvedLines {
        circuit,
        header,
        verdict_line,
        logs,
        ..
    } = lines;
    let (Some(verdict), Some(kind)) = (header.verdict, header.kind) else {
        return Err(ShowFault::BadDocument(verdict_line));
    };
    Ok(SolvedDocument {
        verdict,
        kind,
        semantics: header.converted.then_some(kind.other()),
        circuit: circuit_in(circuit),
        logs,
    })
}

fn circuit_in(part: CircuitPart) -> Option<Circuit> {
    match part {
        CircuitPart::Stated(file) => Some(file.circuit),
        CircuitPart::Absent | CircuitPart::Faulty => None,
    }
}
