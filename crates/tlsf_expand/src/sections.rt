//! The flat formulas of the sections, with those that are added for signals of a type.

ghost use Rattle.std.specs.Prelude.{◌≡◌, ◌++◌, map};
ghost use Rattle.tlsf_expand.specs.Sections.{added_value, sections_value, written_sections};
ghost use Rattle.tlsf_expand.specs.SignalsSeen.{signals_seen, typed_seen};
ghost use Rattle.tlsf_syntax.specs.Seen.{text_seen};
ghost use Rattle.tlsf_syntax.specs.Text.{section_lists};
ghost use Rattle.tlsf_values.specs.NamesSeen.{names_seen};
ghost use Rattle.tlsf_values.specs.Outcomes.{gives, go_on};
ghost use Rattle.tlsf_values.specs.Results.{IsOutcomeAs};

use crate::signals::{Signals, TypedSignal};
use ltl_formula::FormulaId;
use spec_faults::SpecFault;
use tlsf_syntax::{Sections, SpecTree};
use tlsf_values::{Names, Work};

/// The formulas of each section, which is evaluated by one call.
fn written_sections<'t>(
    names: &mut Names<'t>,
    tree: &'t SpecTree,
    work: &mut Work,
) -> Result<Sections<Vec<FormulaId>>, SpecFault>
    ensures value { IsOutcomeAs section_lists result work.new (written_sections (names_seen names.old) (text_seen tree.now).sections work.old) }
    ensures names { names_seen names.new ≡ names_seen names.old }
{
    let initially = names.formulas_of(&tree.sections.initially, work)?;
    let preset = names.formulas_of(&tree.sections.preset, work)?;
    let require = names.formulas_of(&tree.sections.require, work)?;
    let assert = names.formulas_of(&tree.sections.assert, work)?;
    let assume = names.formulas_of(&tree.sections.assume, work)?;
    let guarantee = names.formulas_of(&tree.sections.guarantee, work)?;
    Ok(Sections {
        initially,
        preset,
        require,
        assert,
        assume,
        guarantee,
    })
}

/// For each signal of a type, one of the type's values stands there.
fn add_typed(
    ids: &mut Vec<FormulaId>,
    signals: &[TypedSignal<'_>],
    work: &mut Work,
) -> Result<(), SpecFault>
    ensures { IsOutcomeAs (λ _. ids.new.items) result work.new (go_on (added_value (map typed_seen signals.now) work.old) (λ more w. gives (ids.old.items ++ more) w)) }
{
    for signal in signals {
        ids.push(work.members_made(signal.place, signal.first, signal.members)?)?;
    }
    Ok(())
}

/// The flat sections. The formulas that are added come last: those for inputs in REQUIRE, and then those for outputs in
/// ASSERT.
pub(crate) fn flat_sections<'t>(
    signals: &mut Signals<'t>,
    tree: &'t SpecTree,
    work: &mut Work,
) -> Result<Sections<Vec<FormulaId>>, SpecFault>
    ensures value { IsOutcomeAs section_lists result work.new (sections_value (signals_seen signals.old) (text_seen tree.now).sections work.old) }
    ensures signals { signals_seen signals.new ≡ signals_seen signals.old }
{
    let mut sections = written_sections(&mut signals.names, tree, work)?;
    add_typed(&mut sections.require, &signals.typed_inputs, work)?;
    add_typed(&mut sections.assert, &signals.typed_outputs, work)?;
    Ok(sections)
}
