//! Formulas as ltl_formula has them, taken into a list of forms.

use crate::forms::{Form, FormId, Forms};
use crate::refusals::Refusal;
use ltl_formula::{FormulaId, Formulas, Node};
use std::alloc::Global;

/// The form of a formula in normal form; None where it isn't in normal form.
pub(crate) fn taken(
    alloc: Global,
    forms: &mut Forms,
    formulas: &Formulas,
    whole: FormulaId,
) -> Result<Option<FormId>, Refusal> {
    let mut made = Vec::new(alloc);
    for place in 0..formulas.len() {
        if place > whole.0 as usize {
            break;
        }
        let node = formulas.node(FormulaId(place as u32));
        let form = taken_node(forms, node, &made)?;
        made.push(form)?;
    }
    Ok(at(&made, whole))
}

fn at(made: &[Option<FormId>], id: FormulaId) -> Option<FormId> {
    match made.get(id.0 as usize) {
        Some(form) => *form,
        None => None,
    }
}

fn both(made: &[Option<FormId>], a: FormulaId, b: FormulaId) -> Option<(FormId, FormId)> {
    match (at(made, a), at(made, b)) {
        (Some(first), Some(second)) => Some((first, second)),
        _ => None,
    }
}

/// The form of a node whose parts have these forms.
fn taken_node(
    forms: &mut Forms,
    node: Node,
    made: &[Option<FormId>],
) -> Result<Option<FormId>, Refusal> {
    let form = match node {
        Node::True => Some(Form::True),
        Node::False => Some(Form::False),
        Node::Signal(signal) => Some(Form::Literal(signal, true)),
        Node::Not(a) => opposite_literal(forms, at(made, a)),
        Node::Next(a) => at(made, a).map(Form::Next),
        Node::And(a, b) => both(made, a, b).map(|(a, b)| Form::And(a, b)),
        Node::Or(a, b) => both(made, a, b).map(|(a, b)| Form::Or(a, b)),
        Node::Until(a, b) => both(made, a, b).map(|(a, b)| Form::Until(a, b)),
        Node::Release(a, b) => both(made, a, b).map(|(a, b)| Form::Release(a, b)),
        _ => None,
    };
    match form {
        Some(form) => added(forms, form),
        None => Ok(None),
    }
}

fn added(forms: &mut Forms, form: Form) -> Result<Option<FormId>, Refusal> {
    let id = forms.add(form)?;
    Ok(Some(id))
}

fn opposite_literal(forms: &Forms, id: Option<FormId>) -> Option<Form> {
    match forms.form(id?) {
        Form::Literal(signal, value) => Some(Form::Literal(signal, !value)),
        _ => None,
    }
}
