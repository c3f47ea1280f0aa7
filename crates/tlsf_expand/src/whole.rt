//! The formula of a whole text. Its faults have place 0.

ghost use Rattle.std.specs.Prelude.{◌≡◌};
ghost use Rattle.tlsf_expand.specs.Sections.{conjoined, standard_value, strict_value, whole_value};
ghost use Rattle.tlsf_syntax.specs.Text.{section_lists};
ghost use Rattle.tlsf_values.specs.Results.{IsOutcome};

use ltl_formula::{FormulaId, Node};
use spec_faults::SpecFault;
use tlsf_syntax::Sections;
use tlsf_values::Work;

/// The formulas of a section, joined to the left; without any it is true.
fn joined(ids: &[FormulaId], work: &mut Work) -> Result<FormulaId, SpecFault>
    ensures { IsOutcome result work.new (conjoined ids.now work.old) }
{
    let [first, more @ ..] = ids else {
        return work.made(0, Node::True);
    };
    let mut so_far = *first;
    for id in more {
        so_far = work.made(0, Node::And(so_far, *id))?;
    }
    Ok(so_far)
}

/// `e -> (s && ((G E && A) -> (G S && H)))`, the parts from left to right before the whole.
fn standard(sections: &Sections<Vec<FormulaId>>, work: &mut Work) -> Result<FormulaId, SpecFault>
    ensures { IsOutcome result work.new (standard_value (section_lists sections.now) work.old) }
{
    let initially = joined(&sections.initially, work)?;
    let preset = joined(&sections.preset, work)?;
    let require = joined(&sections.require, work)?;
    let always_require = work.made(0, Node::Globally(require))?;
    let assume = joined(&sections.assume, work)?;
    let given = work.made(0, Node::And(always_require, assume))?;
    let assert = joined(&sections.assert, work)?;
    let always_assert = work.made(0, Node::Globally(assert))?;
    let guarantee = joined(&sections.guarantee, work)?;
    let owed = work.made(0, Node::And(always_assert, guarantee))?;
    let kept = work.made(0, Node::Implies(given, owed))?;
    let all = work.made(0, Node::And(preset, kept))?;
    work.made(0, Node::Implies(initially, all))
}

/// `e -> (s && (S W !E) && ((G E && A) -> H))`, the parts from left to right before the whole.
fn strict(sections: &Sections<Vec<FormulaId>>, work: &mut Work) -> Result<FormulaId, SpecFault>
    ensures { IsOutcome result work.new (strict_value (section_lists sections.now) work.old) }
{
    let initially = joined(&sections.initially, work)?;
    let preset = joined(&sections.preset, work)?;
    let assert = joined(&sections.assert, work)?;
    let require = joined(&sections.require, work)?;
    let broken = work.made(0, Node::Not(require))?;
    let until_broken = work.made(0, Node::WeakUntil(assert, broken))?;
    let both = work.made(0, Node::And(preset, until_broken))?;
    let always_require = work.made(0, Node::Globally(require))?;
    let assume = joined(&sections.assume, work)?;
    let given = work.made(0, Node::And(always_require, assume))?;
    let guarantee = joined(&sections.guarantee, work)?;
    let kept = work.made(0, Node::Implies(given, guarantee))?;
    let all = work.made(0, Node::And(both, kept))?;
    work.made(0, Node::Implies(initially, all))
}

/// The formula of the whole for strict or standard semantics, over the formulas of the sections.
pub fn whole_formula(
    is_strict: bool,
    sections: &Sections<Vec<FormulaId>>,
    work: &mut Work,
) -> Result<FormulaId, SpecFault>
    ensures { IsOutcome result work.new (whole_value is_strict (section_lists sections.now) work.old) }
{
    if is_strict {
        strict(sections, work)
    } else {
        standard(sections, work)
    }
}
