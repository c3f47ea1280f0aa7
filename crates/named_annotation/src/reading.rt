//! The text of an annotation over named states.

ghost use Rattle.std.specs.Prelude.{◌≡◌, ◌+◌, ◌-◌, ◌^◌, ◌<◌, ◌≤◌, ℕ, All, Err, IfErr, IfOk, length};
ghost use Rattle.ltl_formula.specs.Nodes.{IsNodeIn};
ghost use Rattle.annot_check.specs.declared.pairs.Pair.{Pair as APair};
ghost use Rattle.annot_check.specs.declared.faults.AnnotFault.TheVariants.{BadLine};
ghost use Rattle.annot_check.specs.Readings.{IsReadFault};
ghost use Rattle.named_annotation.specs.NamedText.{IsFirstBadNamedLine, StatesNamed};
ghost use Rattle.named_annotation.specs.Parts.{HasCovers, KnowsFormula, StatesAreRead, StatesEndAt};

use crate::edges::automaton_over;
use crate::formula::OfFormula;
use crate::states::NamedStates;
use crate::words::{Counts, counts_in};
use aiger_text::cut_at;
use annot_check::{AnnotFault, Head, PairLines, PairList, find_head, read_pairs};
use cobuchi_build::State;
use indexmap::IndexSet;
use ltl_formula::{FormulaId, Formulas};
use machine_model::Automaton;
use std::alloc::Global;
use std::marker::Model;

/// An annotation over named states: the states, their automaton, and its pairs with the line of its head, from 1.
#[derive(Drop)]
pub struct NamedAnnotation {
    pub states: IndexSet<State>,
    pub automaton: Automaton,
    pub list: PairList,
}

impl Model for NamedAnnotation {
    ghost use Rattle.named_annotation.specs.NamedStates.{Named};

    ghost Value = { Named };

    ghost view = { λ a. record { states = a.states.keys; automaton = a.automaton; list = a.list } };
}

/// What the lines of a circuit's comment name and list, for so many latches and inputs of the circuit and a formula in normal form:
/// lines that are skipped, the line `annotation P A`, A lines `state K C I I ..`, P lines `CODE K C`, and the line `end`. K is a
/// state's number, from 0; C of a state is its counter, and the ids I are its set, which has at most 100,000 leaves. Refused at the first
/// line that isn't of this form, where a line is missing at the next one.
///
/// It takes the time and the memory of the covers of all sets.
pub fn read_named_annotation(
    alloc: Global,
    lines: &[u8],
    latches: u32,
    inputs: u32,
    formulas: &Formulas,
    f: FormulaId,
) -> Result<NamedAnnotation, AnnotFault>
    requires stands { IsNodeIn formulas.now f }
    requires few { inputs < 17 }
    ensures named { IfOk result (StatesNamed lines.now latches inputs formulas.now f) }
    ensures bad { (n : ℕ) → result ≡ Err (BadLine n) → IsFirstBadNamedLine lines.now latches inputs formulas.now f n }
    ensures no_other { IfErr result IsReadFault }
    ensures codes { IfOk result (λ named. All (λ (pair : APair). length pair.code ≡ latches) named.list.pairs) }
    ensures lines { IfOk result (λ named. named.list.head_line + length named.states + length named.list.pairs ≤ length lines.now) }
    ensures within { (n : ℕ) → result ≡ Err (BadLine n) → n ≤ length lines.now + 1 }
{
    let head = match find_head(lines) {
        Ok(head) => head,
        Err(line) => return Err(AnnotFault::BadLine(line)),
    };
    let Some(counts) = counts_in(inputs, head.word) else {
        return Err(AnnotFault::BadLine(head.line));
    };
    let of = OfFormula::new(alloc, formulas, f)?;
    let read = read_states(alloc, &of, counts.states, &head)?;
    let below = PairLines {
        count: counts.pairs,
        line: read.line,
        rest: read.rest,
    };
    let pairs = read_pairs(alloc, &below, latches, counts.states as u32)?;
    let automaton = automaton_over(alloc, &of, &read.named)?;
    Ok(NamedAnnotation {
        states: read.named.states,
        automaton,
        list: PairList {
            pairs,
            head_line: head.line,
        },
    })
}

/// The states that were read, the line above the pairs, and what stands from there on.
#[derive(Drop)]
struct StatesRead<'a> {
    named: NamedStates,
    line: u64,
    rest: &'a [u8],
}

/// Reads so many states below a head.
fn read_states<'a>(
    alloc: Global,
    of: &OfFormula<'_>,
    states: u64,
    head: &Head<'a>,
) -> Result<StatesRead<'a>, AnnotFault>
    requires known { KnowsFormula of.now }
    requires few { head.now.line + length head.now.rest.now < 2 ^ 64 - 1 }
    ensures ok { IfOk result (λ read. StatesAreRead of.now.formulas.now of.now.f states head.now read) }
    ensures bad { (n : ℕ) → result ≡ Err (BadLine n) → StatesEndAt of.now.formulas.now of.now.f states head.now n }
    ensures no_other { IfErr result IsReadFault }
    ensures covers { IfOk result (λ read. HasCovers of.now.formulas.now of.now.f read.named) }
{
    let mut named = NamedStates {
        states: IndexSet::new(alloc),
        covers: Vec::new(alloc),
    };
    let mut rest = head.rest;
    let mut line = head.line;
    while (named.states.len() as u64) < states {
        let Some((text, behind)) = cut_at(rest, b'\n') else {
            return Err(AnnotFault::BadLine(line + 1));
        };
        if !named.take(alloc, of, text)? {
            return Err(AnnotFault::BadLine(line + 1));
        }
        rest = behind;
        line += 1;
    }
    Ok(StatesRead { named, line, rest })
}
