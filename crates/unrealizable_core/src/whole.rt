//! The formula of a whole text with some of its guarantees.

ghost use Rattle.std.specs.Prelude.{◌≡◌, [], ◌∷◌, ◌++◌, All, Err, IfErr, IfOk, None, Some, false, if◌then◌else◌, length, map, replicate, slice_index_or};
ghost use Rattle.ltl_formula.specs.ListSignals.{KeepsSignals};
ghost use Rattle.ltl_formula.specs.Nodes.{IsNodeList, IsNodeIn, tree_at};
ghost use Rattle.tlsf_expand.specs.Standing.{SectionsStand};
ghost use Rattle.tlsf_syntax.specs.Text.{section_lists};
ghost use Rattle.spec_faults.specs.declared.code.SpecCode.TheVariants.{TooManyNodes};
ghost use Rattle.tlsf_values.specs.Outcomes.{fails};
ghost use Rattle.tlsf_values.specs.Results.{IsFault, IsOutcomeAs};
ghost use Rattle.unrealizable_core.specs.Copies.{AreCopies};
ghost use Rattle.unrealizable_core.specs.Put.{put_all};
ghost use Rattle.unrealizable_core.specs.Reduced.{add_fault, kept, kept_sections, put_sections, reduced, reduced_in};
ghost use Rattle.unrealizable_core.specs.Truths.{SaysWhole};

use crate::copies::put_all;
use ltl_formula::{AddFault, FormulaId, Formulas};
use spec_faults::SpecFault;
use std::alloc::{AllocError, Global};
use text_limits::SMALL_LIMITS;
use tlsf_expand::whole_formula;
use tlsf_syntax::Sections;
use tlsf_values::Work;

/// The formula of the whole of a text with some of its guarantees, in a list that has no other nodes than it needs.
#[derive(Debug, Drop)]
pub struct Reduced {
    pub formulas: Formulas,
    /// The formula of the whole.
    pub whole: FormulaId,
}

/// The formula of the whole of a text with those guarantees alone for which `keep` is true, in a list of its own: the formulas of
/// the sections in order, each with its parts from left to right before it, and then the nodes that join them, for strict or
/// standard semantics. It is refused exactly where that list would have more than 1,024 nodes. It takes a step for each node and
/// each formula of a section.
pub fn whole_of(
    alloc: Global,
    formulas: &Formulas,
    sections: &Sections<Vec<FormulaId>>,
    strict: bool,
    keep: &[bool],
) -> Result<Reduced, AddFault>
    requires stand { SectionsStand formulas.now (section_lists sections.now) }
    requires each { length keep.now ≡ length (section_lists sections.now).guarantee }
    ensures ok { IfOk result (λ r. reduced_in (reduced strict (kept_sections formulas.now keep.now (section_lists sections.now))) ≡ Some r) }
    ensures too_many { result ≡ Err AddFault.TooManyNodes → reduced strict (kept_sections formulas.now keep.now (section_lists sections.now)) ≡ fails TooManyNodes 0 }
    ensures truth { IfOk result (λ r. SaysWhole strict (kept_sections formulas.now keep.now (section_lists sections.now)) r.formulas r.whole) }
    ensures list { IfOk result (λ r. IsNodeList r.formulas) }
    ensures signals { IfOk result (λ r. KeepsSignals formulas.now r.formulas) }
{
    is_list(formulas);
    match reduce(alloc, formulas, sections, strict, keep) {
        Ok(reduced) => Ok(reduced),
        Err(fault) => Err(add_fault(fault)),
    }
}

/// The list has no other fault than want of room.
fn add_fault(fault: SpecFault) -> AddFault
    ensures { result ≡ add_fault fault }
{
    match fault {
        SpecFault::At { .. } => AddFault::TooManyNodes,
        SpecFault::NoMemory => AddFault::NoMemory,
    }
}

fn reduce(
    alloc: Global,
    formulas: &Formulas,
    sections: &Sections<Vec<FormulaId>>,
    strict: bool,
    keep: &[bool],
) -> Result<Reduced, SpecFault>
    requires stand { SectionsStand formulas.now (section_lists sections.now) }
    requires list { IsNodeList formulas.now }
    ensures ok { IfOk result (λ r. reduced_in (reduced strict (kept_sections formulas.now keep.now (section_lists sections.now))) ≡ Some r) }
    ensures fault { IfErr result (λ e. IsFault (reduced strict (kept_sections formulas.now keep.now (section_lists sections.now))) e) }
{
    let mut work = Work {
        limits: SMALL_LIMITS,
        done: 0,
        formulas: Formulas::new(alloc),
    };
    let sections = sections_put(alloc, formulas, sections, keep, &mut work)?;
    let whole = whole_formula(strict, &sections, &mut work)?;
    Ok(Reduced {
        formulas: work.formulas,
        whole,
    })
}

/// The copies of the formulas of all sections, with the guarantees that are kept.
fn sections_put(
    alloc: Global,
    formulas: &Formulas,
    sections: &Sections<Vec<FormulaId>>,
    keep: &[bool],
    work: &mut Work,
) -> Result<Sections<Vec<FormulaId>>, SpecFault>
    requires stand { SectionsStand formulas.now (section_lists sections.now) }
    requires list { IsNodeList formulas.now }
    requires empty { work.old.formulas ≡ [] }
    ensures value { IsOutcomeAs section_lists result work.new (put_sections (kept_sections formulas.now keep.now (section_lists sections.now)) work.old) }
{
    let mut known = none_known(alloc, formulas)?;
    let initially = put_all(alloc, formulas, &sections.initially, &mut known, work)?;
    let preset = put_all(alloc, formulas, &sections.preset, &mut known, work)?;
    let require = put_all(alloc, formulas, &sections.require, &mut known, work)?;
    let assert = put_all(alloc, formulas, &sections.assert, &mut known, work)?;
    let assume = put_all(alloc, formulas, &sections.assume, &mut known, work)?;
    let guarantee = put_kept(alloc, formulas, &sections.guarantee, keep, &mut known, work)?;
    Ok(Sections {
        initially,
        preset,
        require,
        assert,
        assume,
        guarantee,
    })
}

/// The copies of those formulas that are kept, by their places.
fn put_kept(
    alloc: Global,
    from: &Formulas,
    ids: &[FormulaId],
    keep: &[bool],
    known: &mut [Option<FormulaId>],
    work: &mut Work,
) -> Result<Vec<FormulaId>, SpecFault>
    requires stand { All (IsNodeIn from.now) ids.now }
    requires copies { AreCopies from.now known.old work.old.formulas }
    requires room { length known.old ≡ length from.now }
    ensures value { IsOutcomeAs (λ put. put.items) result work.new (put_all (kept keep.now (map (tree_at from.now) ids.now)) work.old) }
{
    let ids = kept(alloc, ids, keep)?;
    put_all(alloc, from, &ids, known, work)
}

/// What the type of a list keeps.
fn is_list(formulas: &Formulas)
    ensures { IsNodeList formulas.now }
{
    let _count = formulas.len();
}

/// No node of the list has a copy.
fn none_known(alloc: Global, formulas: &Formulas) -> Result<Vec<Option<FormulaId>>, AllocError>
    ensures { IfOk result (λ known. known.items ≡ replicate (length formulas.now) None) }
{
    vec![in alloc; None; formulas.len()]
}

/// The formulas that are kept, by their places.
#[tactic(auto, using(crate::proofs::Reducing::kept_past))]
fn kept(alloc: Global, ids: &[FormulaId], keep: &[bool]) -> Result<Vec<FormulaId>, AllocError>
    ensures { IfOk result (λ list. list.items ≡ kept keep.now ids.now) }
{
    let mut list = Vec::new(alloc);
    for (place, id) in ids.iter().enumerate() {
        push_if(&mut list, *id, is_kept(keep, place))?;
    }
    Ok(list)
}

fn is_kept(keep: &[bool], place: usize) -> bool
    ensures { result ≡ slice_index_or keep.now place false }
{
    match keep.get(place) {
        Some(keep) => *keep,
        None => false,
    }
}

fn push_if(list: &mut Vec<FormulaId>, id: FormulaId, keep: bool) -> Result<(), AllocError>
    ensures { IfOk result (λ _. list.new.items ≡ list.old.items ++ (if keep then id ∷ [] else [])) }
{
    if keep {
        list.push(id)?;
    }
    Ok(())
}
