//! The first line of a witness with a literal out of its bound.

ghost use Rattle.std.specs.Prelude.{◌≡◌, ◌<◌, ◌+◌, ◌*◌, ◌^◌, is_none, length};
ghost use Rattle.std.specs.List.{list_all};
ghost use Rattle.witness_bounds.specs.Lines.{always_refused, are_before, first_outside as first_line_outside, first_refused, is_of_frame, is_part_of_frame};
ghost use Rattle.witness_bounds.specs.Seen.{lines_seen};

use crate::bounds::Bounds;
use truth_witness::{Operands, Part};

/// The lines of a witness that were read, each of a kind behind those of the kind before it. Where one is missing, so is what stands
/// behind it.
#[derive(Clone, Copy)]
pub struct StatedLiterals<'a> {
    pub latches: &'a [u32],
    pub gates: &'a [Operands],
    pub always: Option<u32>,
    pub parts: &'a [Part],
}

/// A line of a witness; of latches, gates and parts by its number among these, from 0.
#[derive(Clone, Copy, Debug, PartialEq, Eq)]
pub enum WitnessPlace {
    Latch(usize),
    Gate(usize),
    Always,
    APart(usize),
}

/// The first line with a literal out of its bound. Linear in the lines.
pub fn first_outside(bounds: Bounds, lines: StatedLiterals<'_>) -> Option<WitnessPlace>
    requires { bounds.first_gate + 2 * length lines.gates.now < 2 ^ 32 }
    ensures { result ≡ first_line_outside bounds (lines_seen lines.entry) }
{
    if let Some(place) = first_latch(bounds, lines.latches) {
        return Some(WitnessPlace::Latch(place));
    }
    if let Some(place) = first_gate(bounds, lines.gates) {
        return Some(WitnessPlace::Gate(place));
    }
    if !has_always(bounds, lines.always) {
        return Some(WitnessPlace::Always);
    }
    match first_part(bounds, lines.parts) {
        Some(place) => Some(WitnessPlace::APart(place)),
        None => None,
    }
}

fn first_latch(bounds: Bounds, latches: &[u32]) -> Option<usize>
    ensures { result ≡ first_refused (λ _ l. is_of_frame bounds l) 0 latches.now }
{
    for (place, next) in latches.iter().enumerate() {
        if *next > bounds.top {
            return Some(place);
        }
    }
    None
}

fn first_gate(bounds: Bounds, gates: &[Operands]) -> Option<usize>
    requires { bounds.first_gate + 2 * length gates.now < 2 ^ 32 }
    ensures { result ≡ first_refused (are_before bounds) 0 gates.now }
{
    for (place, operands) in gates.iter().enumerate() {
        if !are_before(bounds, place, *operands) {
            return Some(place);
        }
    }
    None
}

/// Whether the operands of the gate with this number are below its own literal.
fn are_before(bounds: Bounds, place: usize, operands: Operands) -> bool
    requires { bounds.first_gate + 2 * place < 2 ^ 32 }
    ensures { result ≡ are_before bounds place operands }
{
    let own = bounds.first_gate + 2 * place as u32;
    operands.left < own && operands.right < own
}

/// Whether `always`, where it was read, is a literal of a frame.
fn has_always(bounds: Bounds, always: Option<u32>) -> bool
    ensures { result ≡ is_none (always_refused bounds always) }
{
    match always {
        Some(lit) => lit <= bounds.top,
        None => true,
    }
}

fn first_part(bounds: Bounds, parts: &[Part]) -> Option<usize>
    ensures { result ≡ first_refused (λ _ p. is_part_of_frame bounds p) 0 parts.now }
{
    for (place, part) in parts.iter().enumerate() {
        if !is_part_of_frame(bounds, part) {
            return Some(place);
        }
    }
    None
}

/// Whether all literals of a part are those of a frame.
fn is_part_of_frame(bounds: Bounds, part: &Part) -> bool
    ensures { result ≡ is_part_of_frame bounds part.now }
{
    part.start <= bounds.top
        && part.inv <= bounds.top
        && are_of_frame(bounds, &part.rank)
        && are_of_frame(bounds, &part.index)
}

/// Whether all are literals of a frame.
fn are_of_frame(bounds: Bounds, lits: &[u32]) -> bool
    ensures { result ≡ list_all (is_of_frame bounds) lits.now }
{
    for lit in lits {
        if *lit > bounds.top {
            return false;
        }
    }
    true
}
