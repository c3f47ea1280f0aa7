//! What one line of numbers states.

ghost use Rattle.std.specs.Prelude.{◌≡◌, ◌+◌, ◌*◌, ◌≤◌, IfSome, IfOk};
ghost use Rattle.text_limits.specs.declared.TheConstants.{CIRCUIT_VARIABLES};
ghost use Rattle.aiger_text.specs.Sound.{InRange, IsOwn, IsOwnLatch, IsOwnGate};
ghost use Rattle.aiger_text.specs.CircuitFile.{literal_in, definable_in, latch_of, latch_in, gate_in};

use crate::circuits::{Gate, Latch};
use crate::counts::Counts;
use crate::faults::CircuitFault;
use crate::words::{cut_at, number_within};

/// The literal that a word writes.
pub(crate) fn literal_in(counts: Counts, word: &[u8]) -> Option<u32>
    requires { counts.variables ≤ CIRCUIT_VARIABLES }
    ensures literal { result ≡ literal_in counts word.now }
    ensures within { IfSome result (InRange counts) }
{
    let most = 2 * u64::from(counts.variables) + 1;
    let literal = number_within(word, most)?;
    Some(literal as u32)
}

/// The literal that a word writes, where it is one that a line may define.
pub(crate) fn definable_in(counts: Counts, word: &[u8]) -> Option<u32>
    requires { counts.variables ≤ CIRCUIT_VARIABLES }
    ensures literal { result ≡ definable_in counts word.now }
    ensures own { IfSome result (IsOwn counts) }
{
    let literal = literal_in(counts, word)?;
    if literal % 2 == 0 && literal != 0 {
        Some(literal)
    } else {
        None
    }
}

/// The latch that a line states by its literal, its next literal and its reset.
fn latch_of(
    number: u64,
    literal: Option<u32>,
    next: Option<u32>,
    reset: Option<u32>,
) -> Result<Latch, CircuitFault>
    ensures latch { result ≡ latch_of number literal next reset }
    ensures own { IfOk result (λ latch. (literal ≡ Some latch.literal) × (next ≡ Some latch.next)) }
{
    match (literal, next, reset) {
        (Some(literal), Some(next), Some(reset)) => {
            if reset == literal {
                Err(CircuitFault::Unsupported(number))
            } else if reset <= 1 {
                Ok(Latch {
                    literal,
                    next,
                    reset: reset == 1,
                })
            } else {
                Err(CircuitFault::BadLine(number))
            }
        }
        _ => Err(CircuitFault::BadLine(number)),
    }
}

/// The latch that a line states.
pub(crate) fn latch_in(counts: Counts, number: u64, line: &[u8]) -> Result<Latch, CircuitFault>
    requires { counts.variables ≤ CIRCUIT_VARIABLES }
    ensures latch { result ≡ latch_in counts number line.now }
    ensures own { IfOk result (IsOwnLatch counts) }
{
    let Some((literal, rest)) = cut_at(line, b' ') else {
        return Err(CircuitFault::BadLine(number));
    };
    let literal = definable_in(counts, literal);
    match cut_at(rest, b' ') {
        None => latch_of(number, literal, literal_in(counts, rest), Some(0)),
        Some((next, reset)) => latch_of(
            number,
            literal,
            literal_in(counts, next),
            literal_in(counts, reset),
        ),
    }
}

/// The gate that a line states.
pub(crate) fn gate_in(counts: Counts, line: &[u8]) -> Option<Gate>
    requires { counts.variables ≤ CIRCUIT_VARIABLES }
    ensures gate { result ≡ gate_in counts line.now }
    ensures own { IfSome result (IsOwnGate counts) }
{
    let (literal, rest) = cut_at(line, b' ')?;
    let (left, right) = cut_at(rest, b' ')?;
    let literal = definable_in(counts, literal)?;
    let left = literal_in(counts, left)?;
    let right = literal_in(counts, right)?;
    Some(Gate {
        literal,
        left,
        right,
    })
}
