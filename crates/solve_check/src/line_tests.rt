//! The tests that each look at some lines of a document.
ghost use Rattle.std.specs.Prelude.{◌≡◌, ◌+◌, ◌<◌, ◌^◌, All, IfOk, None};
ghost use Rattle.size_refutations.specs.Parts.{IsReadLog};
ghost use Rattle.solve_check.specs.Checked.{IsReady};
ghost use Rattle.solve_check.specs.FirstBad.{annotation_line, circuit_line as line_of_circuit, taken_line as line_of_taken};
ghost use Rattle.solve_check.specs.Parts.{IsReadingOf, IsTested, refused_in};
ghost use Rattle.solved_text.specs.Places.{AreNumbered};

use crate::annotated::{Reading, circuit_line, reading_of, side_in};
use crate::given::is_taken_so;
use crate::numbers::number_line;
use crate::size_logs::logs_line;
use circuit_names::earliest;
use solve_ground::SolveText;
use solved_text::SolvedLines;
use std::alloc::{AllocError, Global};

/// The first line that fails, and what was read of the annotation where none does.
#[derive(Drop)]
pub(crate) struct Tested {
    pub(crate) first: Option<u64>,
    pub(crate) reading: Reading,
}

/// Tests the lines that were read of a document's bytes.
pub(crate) fn test_lines(
    alloc: Global,
    text: &SolveText,
    bytes: &[u8],
    lines: &SolvedLines,
) -> Result<Tested, AllocError>
    requires ready { IsReady text.now }
    requires numbered { AreNumbered bytes.now lines.now }
    requires logs { All IsReadLog lines.now.logs }
    ensures { IfOk result (IsTested text.now bytes.now lines.now) }
{
    let circuit = circuit_line(text, bytes, lines.header, &lines.circuit);
    let number = number_line(alloc, lines)?;
    let taken = taken_line(text, lines);
    let logs = logs_line(alloc, text, side_in(lines.header), &lines.logs)?;
    let reading = reading_behind(alloc, text, bytes, lines, circuit)?;
    let behind = earliest(number, earliest(taken, earliest(reading.refused(), logs)));
    Ok(Tested {
        first: earliest(circuit, earliest(lines.bad, behind)),
        reading,
    })
}

/// What is read of the annotation. It isn't looked at where a line of the circuit fails, all of which stand before it.
fn reading_behind(
    alloc: Global,
    text: &SolveText,
    bytes: &[u8],
    lines: &SolvedLines,
    circuit: Option<u64>,
) -> Result<Reading, AllocError>
    requires ready { IsReady text.now }
    requires numbered { AreNumbered bytes.now lines.now }
    requires is_circuit_line { circuit ≡ line_of_circuit text.now bytes.now lines.now.header lines.now.circuit }
    ensures refused { IfOk result (λ reading. refused_in reading ≡ annotation_line text.now bytes.now lines.now) }
    ensures reading { IfOk result (λ reading. circuit ≡ None → IsReadingOf text.now bytes.now lines.now reading) }
{
    match circuit {
        Some(_) => Ok(Reading::Absent),
        None => reading_of(alloc, text, bytes, lines),
    }
}

/// The line that says how the text is taken, where it is taken otherwise.
fn taken_line(text: &SolveText, lines: &SolvedLines) -> Option<u64>
    requires { lines.now.verdict_line + 2 < 2 ^ 64 }
    ensures { result ≡ line_of_taken text.now lines.now }
{
    let header = lines.header;
    let kind = header.kind?;
    if is_taken_so(text, kind, header.converted) {
        return None;
    }
    let line = lines.verdict_line + 1;
    if header.converted {
        Some(line + 1)
    } else {
        Some(line)
    }
}
