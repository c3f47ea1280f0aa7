//! What one line of a witness states.
ghost use Rattle.std.specs.Prelude.{◌≡◌, IfOk, option_map};
ghost use Rattle.document_text.specs.Header.{front};
ghost use Rattle.witness_text.specs.Forms.{always_in as always_in_line, are_bits as are_bits_of, are_counts, counts_in as counts_in_line, counts_of as counts_of_numbers, gate_in as gate_in_line, latch_in as latch_in_line, one_of as one_of_numbers, operands_of as operands_of_numbers, part_in as part_in_line, part_of as part_of_numbers};

use crate::lines::WitnessCounts;
use crate::numbers::numbers_behind;
use aiger_text::cut_at;
use std::alloc::{AllocError, Global};
use truth_witness::{MAX_INDEX_BITS, MAX_RANK_BITS, Operands, Part};

const MOST_LATCHES: u32 = 65_536;

const MOST_GATES: u32 = 1_000_000;

const MOST_PARTS: u32 = 256;

/// How many latches, gates and parts there are, where the line that says so comes first, and the bytes behind it.
pub(crate) fn next_counts(
    alloc: Global,
    bytes: &[u8],
) -> Result<Option<(WitnessCounts, &[u8])>, AllocError>
    ensures { IfOk result (λ read. option_map (λ p. (p.0, p.1.now)) read ≡ front counts_in_line bytes.now) }
{
    let Some((line, rest)) = cut_at(bytes, b'\n') else {
        return Ok(None);
    };
    match counts_in(alloc, line)? {
        Some(counts) => Ok(Some((counts, rest))),
        None => Ok(None),
    }
}

/// The next literal of a latch, where its line comes first, and the bytes behind it.
pub(crate) fn next_latch(alloc: Global, bytes: &[u8]) -> Result<Option<(u32, &[u8])>, AllocError>
    ensures { IfOk result (λ read. option_map (λ p. (p.0, p.1.now)) read ≡ front latch_in_line bytes.now) }
{
    let Some((line, rest)) = cut_at(bytes, b'\n') else {
        return Ok(None);
    };
    match latch_in(alloc, line)? {
        Some(next) => Ok(Some((next, rest))),
        None => Ok(None),
    }
}

/// The operands of a gate, where its line comes first, and the bytes behind it.
pub(crate) fn next_gate(
    alloc: Global,
    bytes: &[u8],
) -> Result<Option<(Operands, &[u8])>, AllocError>
    ensures { IfOk result (λ read. option_map (λ p. (p.0, p.1.now)) read ≡ front gate_in_line bytes.now) }
{
    let Some((line, rest)) = cut_at(bytes, b'\n') else {
        return Ok(None);
    };
    match gate_in(alloc, line)? {
        Some(gate) => Ok(Some((gate, rest))),
        None => Ok(None),
    }
}

/// What holds at each position, where its line comes first, and the bytes behind it.
pub(crate) fn next_always(alloc: Global, bytes: &[u8]) -> Result<Option<(u32, &[u8])>, AllocError>
    ensures { IfOk result (λ read. option_map (λ p. (p.0, p.1.now)) read ≡ front always_in_line bytes.now) }
{
    let Some((line, rest)) = cut_at(bytes, b'\n') else {
        return Ok(None);
    };
    match always_in(alloc, line)? {
        Some(always) => Ok(Some((always, rest))),
        None => Ok(None),
    }
}

/// A part, where its line comes first, and the bytes behind it.
pub(crate) fn next_part(alloc: Global, bytes: &[u8]) -> Result<Option<(Part, &[u8])>, AllocError>
    ensures { IfOk result (λ read. option_map (λ p. (p.0, p.1.now)) read ≡ front part_in_line bytes.now) }
{
    let Some((line, rest)) = cut_at(bytes, b'\n') else {
        return Ok(None);
    };
    match part_in(alloc, line)? {
        Some(part) => Ok(Some((part, rest))),
        None => Ok(None),
    }
}

fn counts_in(alloc: Global, line: &[u8]) -> Result<Option<WitnessCounts>, AllocError>
    ensures { IfOk result (λ counts. counts ≡ counts_in_line line.now) }
{
    match numbers_behind(alloc, b"witness ", line)? {
        Some(numbers) => Ok(counts_of(&numbers)),
        None => Ok(None),
    }
}

fn latch_in(alloc: Global, line: &[u8]) -> Result<Option<u32>, AllocError>
    ensures { IfOk result (λ next. next ≡ latch_in_line line.now) }
{
    match numbers_behind(alloc, b"latch ", line)? {
        Some(numbers) => Ok(one_of(&numbers)),
        None => Ok(None),
    }
}

fn gate_in(alloc: Global, line: &[u8]) -> Result<Option<Operands>, AllocError>
    ensures { IfOk result (λ gate. gate ≡ gate_in_line line.now) }
{
    match numbers_behind(alloc, b"gate ", line)? {
        Some(numbers) => Ok(operands_of(&numbers)),
        None => Ok(None),
    }
}

fn always_in(alloc: Global, line: &[u8]) -> Result<Option<u32>, AllocError>
    ensures { IfOk result (λ always. always ≡ always_in_line line.now) }
{
    match numbers_behind(alloc, b"always ", line)? {
        Some(numbers) => Ok(one_of(&numbers)),
        None => Ok(None),
    }
}

fn part_in(alloc: Global, line: &[u8]) -> Result<Option<Part>, AllocError>
    ensures { IfOk result (λ part. part ≡ part_in_line line.now) }
{
    match numbers_behind(alloc, b"part ", line)? {
        Some(numbers) => part_of(alloc, &numbers),
        None => Ok(None),
    }
}

fn counts_of(numbers: &[u32]) -> Option<WitnessCounts>
    ensures { result ≡ counts_of_numbers numbers.now }
{
    let [latches, gates, parts] = numbers else {
        return None;
    };
    let counts = WitnessCounts {
        latches: *latches,
        gates: *gates,
        parts: *parts,
    };
    if counts.are_within_limits() {
        Some(counts)
    } else {
        None
    }
}

impl WitnessCounts {
    fn are_within_limits(self) -> bool
        ensures { result ≡ are_counts self }
    {
        self.latches <= MOST_LATCHES
            && self.gates <= MOST_GATES
            && 1 <= self.parts
            && self.parts <= MOST_PARTS
    }
}

fn one_of(numbers: &[u32]) -> Option<u32>
    ensures { result ≡ one_of_numbers numbers.now }
{
    match numbers {
        [number] => Some(*number),
        _ => None,
    }
}

fn operands_of(numbers: &[u32]) -> Option<Operands>
    ensures { result ≡ operands_of_numbers numbers.now }
{
    match numbers {
        [left, right] => Some(Operands {
            left: *left,
            right: *right,
        }),
        _ => None,
    }
}

fn part_of(alloc: Global, numbers: &[u32]) -> Result<Option<Part>, AllocError>
    ensures { IfOk result (λ part. part ≡ part_of_numbers numbers.now) }
{
    let [start, inv, rank, index, bits @ ..] = numbers else {
        return Ok(None);
    };
    if !are_bits(*rank as usize, *index as usize, bits) {
        return Ok(None);
    }
    let (rank_bits, index_bits) = bits.split_at(*rank as usize);
    Ok(Some(Part {
        start: *start,
        inv: *inv,
        rank: Vec::from_slice(alloc, rank_bits)?,
        index: Vec::from_slice(alloc, index_bits)?,
    }))
}

/// Whether a rank and an index have so many bits, and these are as many.
fn are_bits(rank: usize, index: usize, bits: &[u32]) -> bool
    ensures { result ≡ are_bits_of rank index bits.now }
{
    rank <= MAX_RANK_BITS && index <= MAX_INDEX_BITS && bits.len() == rank + index
}
