//! What a text gives for a check, and the sizes that a document wants.
ghost use Rattle.std.specs.Prelude.{◌≡◌, ◌==◌, ◌++◌, ◌≤◌, ◌^◌, All, IfOk, IfSome, OnOk, not, option_map};
ghost use Rattle.machine_model.specs.Counting.{CountsBy};
ghost use Rattle.machine_model.specs.Problem.{IsProblem, automaton_of, parts_of};
ghost use Rattle.machine_model.specs.declared.counting.Counts.TheVariants.{Local};
ghost use Rattle.document_check.specs.Facts.{allowed_at, counting_for, counting_from, counts_for, for_side, names_in, problem_at, sizes_to, wanted_sizes};
ghost use Rattle.circuit_names.specs.Names.{names_of};
ghost use Rattle.document_check.specs.FirstBad.{asked_in as asked_of};
ghost use Rattle.document_check.specs.Shown.{AreFactsFor, counts_of as counts_of_header, facts_of, IsProblemAt, IsSize};

use annotation_encode::allowed_sizes;
use circuit_names::TextNames;
use document_text::{Header, Order, Place, Verdict};
use letters_and_lassos::{Kind, Side};
use machine_model::{Counting, Counts, Problem};
use names_and_numbers::Name;
use std::alloc::{AllocError, Global};

/// What a document is checked against. The kinds and sizes of the problems, and what their numbers count, aren't looked at: a document
/// has its own.
#[derive(Clone, Copy)]
pub struct TextFacts<'a> {
    /// The names of the inputs, and of the outputs.
    pub inputs: &'a [Name],
    pub outputs: &'a [Name],
    /// The system's problem, and the environment's, if it has an automaton.
    pub system: &'a Problem,
    pub environment: Option<&'a Problem>,
}

/// What a document asks for, once its line `max` is good.
#[derive(Clone, Copy)]
pub struct Asked {
    pub version: u32,
    pub verdict: Verdict,
    pub kind: Kind,
    pub max: u32,
}

/// What a header asks for, where it is good so far.
pub fn asked_in(header: &Header) -> Option<Asked>
    ensures { result ≡ asked_of header.now }
{
    let version = header.version?;
    let verdict = header.verdict?;
    let kind = header.kind?;
    let max = header.max?;
    Some(Asked {
        version,
        verdict,
        kind,
        max,
    })
}

impl<'a> TextFacts<'a> {
    /// The names alone.
    pub(crate) fn names(self) -> TextNames<'a>
        ensures { names_of result ≡ names_in (facts_of self.entry) }
    {
        TextNames {
            inputs: self.inputs,
            outputs: self.outputs,
        }
    }

    /// The problem of one size of one side, for a document of this kind and version.
    pub fn problem_at(
        self,
        kind: Kind,
        version: u32,
        side: Side,
        size: u32,
    ) -> Result<Option<Problem>, AllocError>
        requires { AreFactsFor version (facts_of self) }
        ensures same { IfOk result (IsProblemAt (problem_at (facts_of self.entry) kind version side size)) }
        ensures problem { 1 ≤ size → size ≤ 8 → IfOk result (λ found. IfSome found IsProblem) }
    {
        match side {
            Side::System => {
                let problem = problem_for(self.system, kind, version, size)?;
                Ok(Some(problem))
            }
            Side::Environment => {
                let Some(problem) = self.environment else {
                    return Ok(None);
                };
                let problem = problem_for(problem, kind.other(), version, size)?;
                Ok(Some(problem))
            }
        }
    }

    /// The number of a side's allowed sizes.
    pub(crate) fn allowed_at(
        self,
        kind: Kind,
        version: u32,
        max: u32,
        side: Side,
    ) -> Result<u32, AllocError>
        requires facts { AreFactsFor version (facts_of self) }
        requires max { max ≤ 8 }
        ensures value { IfOk result (λ n. n ≡ allowed_at (facts_of self.entry) kind version max side) }
        ensures few { IfOk result (λ n. n ≤ 8) }
    {
        match self.problem_at(kind, version, side, 1)? {
            Some(problem) => Ok(allowed_sizes(&problem, max)),
            None => Ok(0),
        }
    }
}

/// The same problem for another kind and size, with what numbers count in documents of a version.
fn problem_for(
    problem: &Problem,
    kind: Kind,
    version: u32,
    size: u32,
) -> Result<Problem, AllocError>
    requires { counts_for version ≡ Local → CountsBy (automaton_of problem.now) problem.now.counting }
    ensures { IfOk result (λ p. parts_of p ≡ parts_of (record problem.now { kind = kind; size = size; counting = counting_for version (automaton_of problem.now) })) }
{
    let sized = problem.sized(size)?;
    Ok(Problem {
        automaton: sized.automaton,
        inputs: sized.inputs,
        outputs: sized.outputs,
        side: sized.side,
        kind,
        size: sized.size,
        counting: counting_from(version, sized.counting),
    })
}

/// What numbers count in the base clauses of documents of a version.
pub fn counts_for(version: u32) -> Counts
    ensures { result ≡ counts_for version }
{
    match version {
        5 => Counts::Local,
        _ => Counts::Whole,
    }
}

/// What they count of a problem, in which they count so where they count by component.
fn counting_from(version: u32, by_component: Counting) -> Counting
    ensures { result ≡ counting_from (counts_for version) (not (version == 1)) by_component }
{
    match counts_for(version) {
        Counts::Whole => Counting::AllRejecting {
            numbered: version != 1,
        },
        Counts::Local => by_component,
    }
}

/// What numbers count in the base clauses of a document with this header.
pub(crate) fn counts_of(header: &Header) -> Counts
    ensures { result ≡ counts_of_header header.now }
{
    match header.version {
        Some(version) => counts_for(version),
        None => Counts::Whole,
    }
}

/// The sizes of the logs that are wanted in this order, where so many sizes of each side are allowed.
pub fn wanted_sizes(
    alloc: Global,
    order: Order,
    system: u32,
    environment: u32,
) -> Result<Vec<Place>, AllocError>
    requires system { system ≤ 8 }
    requires environment { environment ≤ 8 }
    ensures sizes { IfOk result (λ sizes. sizes.items ≡ wanted_sizes order system environment) }
    ensures few { IfOk result (λ sizes. All IsSize sizes.items) }
{
    let mut sizes = Vec::new(alloc);
    match order {
        Order::UpTo(side, count) => {
            let most = for_side(side, system, environment);
            push_sizes(&mut sizes, side, count.min(most))?;
        }
        Order::AnyUpTo(_) => {
            push_sizes(&mut sizes, Side::System, system)?;
            push_sizes(&mut sizes, Side::Environment, environment)?;
        }
    }
    Ok(sizes)
}

/// Of a number for each side, that of this side.
pub fn for_side(side: Side, system: u32, environment: u32) -> u32
    ensures value { result ≡ for_side side system environment }
    ensures few { system ≤ 8 → environment ≤ 8 → result ≤ 8 }
{
    match side {
        Side::System => system,
        Side::Environment => environment,
    }
}

/// Appends the sizes of a side from 1 up to a number.
fn push_sizes(sizes: &mut Vec<Place>, side: Side, count: u32) -> Result<(), AllocError>
    requires { count ≤ 8 }
    ensures sizes { OnOk result (sizes.new.items ≡ sizes.old.items ++ sizes_to side count) }
    ensures few { OnOk result (All IsSize sizes.old.items → All IsSize sizes.new.items) }
{
    for n in 0..count {
        sizes.push(Place { side, size: n + 1 })?;
    }
    Ok(())
}
