ghost use Rattle.std.specs.Prelude.{◌≡◌, ◌++◌, ◌∷◌, ◌<◌, [], All, Err, IfErr, IfOk, None, OnOk, Some, length};
ghost use Rattle.ltl_formula.specs.Nodes.{PartsBelow, SignalBelow, IsNodeIn};
ghost use Rattle.ltl_formula.specs.declared.nodes.TheConstants.{MAX_SIGNALS};
ghost use Rattle.kind_conversion.specs.Laws.{IsConversion};
ghost use Rattle.kind_conversion.specs.ShiftedList.{converted_of, form_at, is_shifted_node, over_forms, put_form};

use crate::shifts::Shift;
use ltl_formula::{AddFault, FormulaId, Formulas, Node};
use std::alloc::Global;

/// The shifted form of a formula, in a list of its own.
#[derive(Debug, Drop)]
pub struct ConvertedList {
    pub formulas: Formulas,
    pub whole: FormulaId,
}

/// The shifted form of the whole, where so many signals are inputs: X stands before each shifted signal. The list is made
/// anew from all its nodes, so that what it holds goes by the list as written alone, and takes no new node once `most` stand.
/// It takes time linear in the list.
pub fn converted(
    alloc: Global,
    formulas: &Formulas,
    most: usize,
    whole: FormulaId,
    shift: Shift,
    inputs: u32,
) -> Result<ConvertedList, AddFault>
    requires { IsNodeIn formulas.now whole }
    ensures ok { IfOk result (λ c. converted_of most shift inputs formulas.now whole ≡ Some c) }
    ensures too_many { result ≡ Err AddFault.TooManyNodes → converted_of most shift inputs formulas.now whole ≡ None }
    ensures says { IfOk result (λ c. IsConversion shift inputs formulas.now whole c) }
{
    let mut made = Formulas::new(alloc);
    let mut forms = Vec::new(alloc);
    for place in 0..formulas.len() as u32 {
        let node = formulas.node(FormulaId(place));
        let form = put_form(&mut made, most, &forms, node, shift, inputs)?;
        push_form(&mut forms, form)?;
    }
    Ok(ConvertedList {
        formulas: made,
        whole: form_at(&forms, whole),
    })
}

/// The shifted form of a node, where its parts have these.
fn put_form(
    made: &mut Formulas,
    most: usize,
    forms: &[FormulaId],
    node: Node,
    shift: Shift,
    inputs: u32,
) -> Result<FormulaId, AddFault>
    requires parts { PartsBelow (length forms.now) node }
    requires signal { SignalBelow MAX_SIGNALS node }
    requires stand { All (IsNodeIn made.old) forms.now }
    ensures ok { IfOk result (λ id. put_form most shift inputs forms.now node made.old ≡ record { nodes = made.new; made = Some id }) }
    ensures too_many { result ≡ Err AddFault.TooManyNodes → (put_form most shift inputs forms.now node made.old).made ≡ None }
{
    let form = made.add(most, over_forms(node, forms))?;
    if is_shifted_node(node, shift, inputs) {
        return made.add(most, Node::Next(form));
    }
    Ok(form)
}

fn is_shifted_node(node: Node, shift: Shift, inputs: u32) -> bool
    ensures { result ≡ is_shifted_node shift inputs node }
{
    match node {
        Node::Signal(signal) => shift.takes(inputs, signal),
        _ => false,
    }
}

/// The node over the shifted forms of its parts.
fn over_forms(node: Node, forms: &[FormulaId]) -> Node
    requires { PartsBelow (length forms.now) node }
    ensures { result ≡ over_forms forms.now node }
{
    match node {
        Node::True | Node::False | Node::Signal(_) => node,
        Node::Not(a) => Node::Not(form_at(forms, a)),
        Node::Next(a) => Node::Next(form_at(forms, a)),
        Node::Finally(a) => Node::Finally(form_at(forms, a)),
        Node::Globally(a) => Node::Globally(form_at(forms, a)),
        Node::And(a, b) => Node::And(form_at(forms, a), form_at(forms, b)),
        Node::Or(a, b) => Node::Or(form_at(forms, a), form_at(forms, b)),
        Node::Implies(a, b) => Node::Implies(form_at(forms, a), form_at(forms, b)),
        Node::Equiv(a, b) => Node::Equiv(form_at(forms, a), form_at(forms, b)),
        Node::Until(a, b) => Node::Until(form_at(forms, a), form_at(forms, b)),
        Node::Release(a, b) => Node::Release(form_at(forms, a), form_at(forms, b)),
        Node::WeakUntil(a, b) => Node::WeakUntil(form_at(forms, a), form_at(forms, b)),
    }
}

fn form_at(forms: &[FormulaId], part: FormulaId) -> FormulaId
    requires { part.0 < length forms.now }
    ensures { result ≡ form_at forms.now part }
{
    forms[part.0 as usize]
}

fn push_form(forms: &mut Vec<FormulaId>, form: FormulaId) -> Result<(), AddFault>
    ensures ok { OnOk result (forms.new.items ≡ forms.old.items ++ form ∷ []) }
    ensures memory { IfErr result (λ fault. fault ≡ AddFault.NoMemory) }
{
    match forms.push(form) {
        Ok(()) => Ok(()),
        Err(_) => Err(AddFault::NoMemory),
    }
}
