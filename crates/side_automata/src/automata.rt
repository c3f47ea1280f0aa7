ghost use Rattle.std.specs.Prelude.{◌≡◌, ◌≤◌, Err, IfOk, IfSome, OnOk, None, false, true};
ghost use Rattle.text_limits.specs.declared.TheConstants.{SMALL_LIMITS};
ghost use Rattle.ltl_formula.specs.NormalForm.{IsNormal};
ghost use Rattle.ltl_formula.specs.ListSignals.{KeepsSignals};
ghost use Rattle.ltl_formula.specs.Nodes.{Grows, IsNodeList, IsNodeIn, tree_at};
ghost use Rattle.cobuchi_build.specs.Built.{AcceptsExactly};
ghost use Rattle.cobuchi_build.specs.Limits.{NamesSignalsOf};
ghost use Rattle.side_automata.specs.BothForms.{AreForms, IsFormWhere, both_forms, fault_of};
ghost use Rattle.side_automata.specs.Limits.{FitProblemsOf};
ghost use Rattle.side_automata.specs.Sides.{AcceptsWhere, AreAutomataOf, IsWithinLimits, SystemPassesLimit};
ghost use Rattle.machine_model.specs.Automaton.{states_of};

use cobuchi_build::{BuildFault, build};
use ltl_formula::{AddFault, FormulaId, Formulas};
use ltl_normal::{negated, normal};
use machine_model::Automaton;
use obligation_sets::Covering;
use std::alloc::Global;
use text_limits::SMALL_LIMITS;

/// What each side has to keep away from.
#[derive(Debug, Drop)]
pub struct Automata {
    /// It accepts the lassos on which the formula is false.
    pub system: Automaton,
    /// It accepts the lassos on which the formula is true. None where it passes a limit.
    pub environment: Option<Automaton>,
}

/// The automata of both sides of a formula. Its negated form is added to the list and then its normal form; they stay there
/// whatever the answer is. It takes the time of both forms and of both automata.
pub fn problems(
    alloc: Global,
    formulas: &mut Formulas,
    whole: FormulaId,
) -> Result<Automata, BuildFault>
    requires { IsNodeIn formulas.old whole }
    ensures automata { IfOk result (AreAutomataOf (tree_at formulas.old whole) formulas.old formulas.new) }
    ensures system { IfOk result (λ a. AcceptsWhere false (tree_at formulas.old whole) a.system) }
    ensures environment { IfOk result (λ a. IfSome a.environment (AcceptsWhere true (tree_at formulas.old whole))) }
    ensures limits { IfOk result (FitProblemsOf formulas.old) }
    ensures signals { OnOk result (KeepsSignals formulas.old formulas.new) }
    ensures too_large { result ≡ Err BuildFault.TooLarge → SystemPassesLimit (tree_at formulas.old whole) formulas.old formulas.new }
    ensures too_many { result ≡ Err BuildFault.TooManyNodes → both_forms (tree_at formulas.old whole) formulas.old ≡ record { nodes = formulas.new; made = None } }
    ensures grows { Grows formulas.old formulas.new }
    ensures list { IsNodeList formulas.new }
{
    let forms = both_forms(formulas, whole)?;
    let system = build(
        alloc,
        formulas,
        forms.negated,
        Covering::Plain,
        SMALL_LIMITS.automaton,
    )?;
    let environment = build_within(alloc, formulas, forms.normal)?;
    Ok(Automata {
        system,
        environment,
    })
}

/// The ids of a formula's two forms.
#[derive(Clone, Copy)]
struct FormIds {
    negated: FormulaId,
    normal: FormulaId,
}

/// Both forms, the negated one first.
fn both_forms(formulas: &mut Formulas, whole: FormulaId) -> Result<FormIds, BuildFault>
    requires { IsNodeIn formulas.old whole }
    ensures made { IfOk result (λ ids. AreForms (tree_at formulas.old whole) formulas.old formulas.new ids.negated ids.normal) }
    ensures negated { IfOk result (λ ids. IsFormWhere false (tree_at formulas.old whole) formulas.new ids.negated) }
    ensures normal { IfOk result (λ ids. IsFormWhere true (tree_at formulas.old whole) formulas.new ids.normal) }
    ensures signals { OnOk result (KeepsSignals formulas.old formulas.new) }
    ensures too_large { result ≡ Err BuildFault.TooLarge → ⊥ }
    ensures too_many { result ≡ Err BuildFault.TooManyNodes → both_forms (tree_at formulas.old whole) formulas.old ≡ record { nodes = formulas.new; made = None } }
    ensures grows { Grows formulas.old formulas.new }
    ensures list { IsNodeList formulas.new }
{
    let negated = match negated(formulas, SMALL_LIMITS.nodes, whole) {
        Ok(id) => id,
        Err(fault) => return Err(fault_of(fault)),
    };
    let normal = match normal(formulas, SMALL_LIMITS.nodes, whole) {
        Ok(id) => id,
        Err(fault) => return Err(fault_of(fault)),
    };
    Ok(FormIds { negated, normal })
}

/// The fault of `problems` where a node wasn't added.
fn fault_of(fault: AddFault) -> BuildFault
    ensures { result ≡ fault_of fault }
{
    match fault {
        AddFault::TooManyNodes => BuildFault::TooManyNodes,
        AddFault::NoMemory => BuildFault::NoMemory,
    }
}

/// The automaton of a formula in normal form, if it passes no limit.
fn build_within(
    alloc: Global,
    formulas: &Formulas,
    f: FormulaId,
) -> Result<Option<Automaton>, BuildFault>
    requires stands { IsNodeIn formulas.now f }
    requires normal { IsNormal (tree_at formulas.now f) }
    ensures within { IfOk result (IsWithinLimits formulas.now f) }
    ensures accepts { IfOk result (λ a. IfSome a (AcceptsExactly formulas.now f)) }
    ensures signals { IfOk result (λ a. IfSome a (NamesSignalsOf formulas.now)) }
    ensures small { IfOk result (λ a. IfSome a (λ automaton. states_of automaton ≤ SMALL_LIMITS.automaton.states)) }
    ensures too_large { result ≡ Err BuildFault.TooLarge → ⊥ }
    ensures nodes { result ≡ Err BuildFault.TooManyNodes → ⊥ }
{
    match build(alloc, formulas, f, Covering::Plain, SMALL_LIMITS.automaton) {
        Ok(automaton) => Ok(Some(automaton)),
        Err(BuildFault::TooLarge) => Ok(None),
        Err(fault) => Err(fault),
    }
}
