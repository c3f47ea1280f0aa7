//! The text of an annotation.

ghost use Rattle.std.specs.Prelude.{◌≡◌, ◌==◌, ◌||◌, ◌+◌, ◌-◌, ◌^◌, ◌<◌, ◌≤◌, ◌∷◌, ◌++◌, ℕ, [], All, Err, IfErr, IfOk, None, Ok, OnOk, Some, if◌then◌else◌, is_some, length, not};
ghost use Rattle.annot_check.specs.declared.pairs.Pair.{Pair as APair};
ghost use Rattle.annot_check.specs.declared.faults.AnnotFault.TheVariants.{BadLine};
ghost use Rattle.annot_check.specs.AnnotationText.{IsFirstBadAnnotationLine, StatesPairs, behind_head, head_from, pairs_in, pieces_of, reading_of};
ghost use Rattle.annot_check.specs.Numbers.{pair_place};
ghost use Rattle.annot_check.specs.Readings.{IsIndexed, IsReadFault, headed_of, is_held, left_of, next_of};

use crate::faults::AnnotFault;
use crate::numbers::Place;
use crate::pairs::{Pair, PairList};
use crate::words::{behind_head, count_of, pair_in};
use aiger_text::cut_at;
use indexmap::IndexSet;
use std::alloc::{AllocError, Global};

/// The list of pairs that the lines of a circuit's comment state, for so many latches and states: lines that are skipped, the line
/// `annotation P`, P lines `CODE Q C`, and the line `end`. CODE has a digit for each latch, latch 0 first, or is `-` where there is
/// none; Q is a state and C a number of 32 bits; P is at most 100,000; no CODE and Q come twice. Lines count from 1. Refused at the
/// first line that isn't of this form, where a line is missing at the next one.
///
/// It is linear in the bytes.
pub fn read_annotation(
    alloc: Global,
    lines: &[u8],
    latches: u32,
    states: u32,
) -> Result<PairList, AnnotFault>
    ensures pairs { IfOk result (StatesPairs lines.now latches states) }
    ensures bad { (n : ℕ) → result ≡ Err (BadLine n) → IsFirstBadAnnotationLine lines.now latches states n }
    ensures no_other { IfErr result IsReadFault }
    ensures codes { IfOk result (λ list. All (λ (pair : APair). length pair.code ≡ latches) list.pairs) }
    ensures lines { IfOk result (λ list. list.head_line + length list.pairs ≤ length lines.now) }
    ensures within { (n : ℕ) → result ≡ Err (BadLine n) → n ≤ length lines.now + 1 }
{
    let found = match read_head(lines) {
        Ok(found) => found,
        Err(line) => return Err(AnnotFault::BadLine(line)),
    };
    let pairs = read_pairs(alloc, &found, latches, states)?;
    Ok(PairList {
        pairs,
        head_line: found.line,
    })
}

/// The head of an annotation: what stands behind its first word, its line, from 1, and what stands behind that line.
#[derive(Drop)]
pub struct Head<'a> {
    pub word: &'a [u8],
    pub line: u64,
    pub rest: &'a [u8],
}

/// The lines of pairs: how many there are, the line above them, and what stands from the first of them on.
#[derive(Drop)]
pub struct PairLines<'a> {
    pub count: u64,
    pub line: u64,
    pub rest: &'a [u8],
}

/// The lines of pairs below the head, or the line that is refused.
fn read_head(lines: &[u8]) -> Result<PairLines<'_>, u64>
    ensures ok { IfOk result (λ found. (latches states : ℕ) → left_of latches states found ≡ reading_of latches states lines.now) }
    ensures counted { IfOk result (λ found. found.line + length found.rest.now ≤ length lines.now) }
    ensures bad { IfErr result (λ n. (latches states : ℕ) → reading_of latches states lines.now ≡ Err n) }
    ensures within { IfErr result (λ n. n ≤ length lines.now + 1) }
{
    let head = match find_head(lines) {
        Ok(head) => head,
        Err(line) => return Err(line),
    };
    match count_of(head.word) {
        Some(count) => Ok(PairLines {
            count,
            line: head.line,
            rest: head.rest,
        }),
        None => Err(head.line),
    }
}

/// Finds the head, the first line that begins as one, or the line that is refused. Linear in the bytes.
pub fn find_head(lines: &[u8]) -> Result<Head<'_>, u64>
    ensures ok { IfOk result (λ head. head_from (pieces_of lines.now) 1 ≡ Ok (headed_of head)) }
    ensures counted { IfOk result (λ head. head.line + length head.rest.now ≤ length lines.now) }
    ensures bad { IfErr result (λ n. head_from (pieces_of lines.now) 1 ≡ Err n) }
    ensures within { IfErr result (λ n. n ≤ length lines.now + 1) }
{
    let mut rest = lines;
    let mut number = 1u64;
    while let Some((line, behind)) = cut_at(rest, b'\n') {
        if let Some(word) = behind_head(line) {
            return Ok(Head {
                word,
                line: number,
                rest: behind,
            });
        }
        rest = behind;
        number += 1;
    }
    if is_missed(rest) {
        return Err(number);
    }
    Err(number + 1)
}

/// Whether the head is refused in the place of a last part that isn't ended: where that is empty, or begins as a head.
fn is_missed(last: &[u8]) -> bool
    ensures { result ≡ ((length last.now == 0) || is_some (behind_head last.now)) }
{
    last.is_empty() || behind_head(last).is_some()
}

/// The pairs that were read so far, with their places.
#[derive(Drop)]
struct Taken {
    pairs: Vec<Pair>,
    places: IndexSet<Place>,
}

impl Taken {
    /// Takes the pair that a line states, or says that it states none whose place is free.
    fn take(
        &mut self,
        alloc: Global,
        line: &[u8],
        latches: u32,
        states: u32,
    ) -> Result<bool, AllocError>
        requires { IsIndexed latches self.old }
        ensures next { IfOk result (λ taken. next_of latches states self.old.pairs.items line.now ≡ (if taken then Some self.new.pairs.items else None)) }
        ensures indexed { OnOk result (IsIndexed latches self.new) }
    {
        let Some(pair) = pair_in(alloc, line, latches, states)? else {
            return Ok(false);
        };
        if !insert_place(&mut self.places, &pair)? {
            return Ok(false);
        }
        self.pairs.push(pair)?;
        Ok(true)
    }
}

/// Adds the place of a pair, and says whether it is new.
fn insert_place(places: &mut IndexSet<Place>, pair: &Pair) -> Result<bool, AllocError>
    ensures new { IfOk result (λ new. new ≡ not (is_held pair.now places.old.keys)) }
    ensures keys { OnOk result (places.new.keys ≡ (if is_held pair.now places.old.keys then places.old.keys else places.old.keys ++ pair_place pair.now ∷ [])) }
{
    let new = places.insert(Place::of(pair)?)?;
    Ok(new)
}

/// Reads pairs, and the line `end` behind them, for so many latches and states. Linear in the bytes.
pub fn read_pairs(
    alloc: Global,
    lines: &PairLines<'_>,
    latches: u32,
    states: u32,
) -> Result<Vec<Pair>, AnnotFault>
    requires { lines.now.line + length lines.now.rest.now < 2 ^ 64 - 1 }
    ensures ok { IfOk result (λ pairs. pairs_in latches states lines.now.count [] (pieces_of lines.now.rest.now) (lines.now.line + 1) ≡ Ok pairs.items) }
    ensures bad { (n : ℕ) → result ≡ Err (BadLine n) → pairs_in latches states lines.now.count [] (pieces_of lines.now.rest.now) (lines.now.line + 1) ≡ Err n }
    ensures no_other { IfErr result IsReadFault }
    ensures codes { IfOk result (λ pairs. All (λ (pair : APair). length pair.code ≡ latches) pairs.items) }
    ensures lines { IfOk result (λ pairs. length pairs.items ≤ length lines.now.rest.now) }
    ensures within { (n : ℕ) → result ≡ Err (BadLine n) → n ≤ lines.now.line + length lines.now.rest.now + 1 }
{
    let mut taken = Taken {
        pairs: Vec::new(alloc),
        places: IndexSet::new(alloc),
    };
    let mut rest = lines.rest;
    let mut number = lines.line + 1;
    while let Some((line, behind)) = cut_at(rest, b'\n') {
        if taken.pairs.len() as u64 >= lines.count {
            if line == b"end".as_slice() {
                return Ok(taken.pairs);
            }
            return Err(AnnotFault::BadLine(number));
        }
        if !taken.take(alloc, line, latches, states)? {
            return Err(AnnotFault::BadLine(number));
        }
        rest = behind;
        number += 1;
    }
    Err(AnnotFault::BadLine(number))
}
