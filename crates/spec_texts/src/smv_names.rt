//! The signals of a module of SMV, and a text's formula over them.

ghost use Rattle.ltl_formula.specs.Nodes.{IsNodeIn};

use crate::beside::take_text;
use crate::faults::TextFault;
use crate::infix::atom_of;
use crate::plain_names::{SMV_WORDS, plain_names};
use crate::smv::put_smv;
use flat_lines::all_names;
use machine_table::{ShowFault, Shown, Text};
use names_and_numbers::Name;
use std::alloc::{AllocError, Global};
use tlsf_expand::Spec;

/// Names that SMV takes, for the inputs and the outputs of a machine.
#[derive(Drop)]
pub struct SmvNames {
    pub inputs: Vec<Name>,
    pub outputs: Vec<Name>,
}

impl SmvNames {
    pub fn of(alloc: Global, inputs: &[Name], outputs: &[Name]) -> Result<SmvNames, AllocError> {
        let mut names = Vec::new(alloc);
        push_names(inputs, &mut names)?;
        push_names(outputs, &mut names)?;
        let plain = plain_names(alloc, &names, &SMV_WORDS)?;
        let mut found = SmvNames {
            inputs: Vec::new(alloc),
            outputs: Vec::new(alloc),
        };
        for (place, name) in plain.iter().enumerate() {
            if place < inputs.len() {
                found.inputs.push(name.clone()?)?;
            } else {
                found.outputs.push(name.clone()?)?;
            }
        }
        Ok(found)
    }

    /// The name for a signal of a machine that has those inputs and outputs.
    fn name_for(&self, signal: &Name, inputs: &[Name], outputs: &[Name]) -> Option<&Name> {
        let own = inputs.iter().zip(&self.inputs);
        for (name, plain) in own.chain(outputs.iter().zip(&self.outputs)) {
            if name.bytes() == signal.bytes() {
                return Some(plain);
            }
        }
        None
    }
}

fn push_names(names: &[Name], out: &mut Vec<Name>) -> Result<(), AllocError> {
    for name in names {
        out.push(name.clone()?)?;
    }
    Ok(())
}

/// Puts the formula of a text, over the signals of the machine that is shown, with those inputs and outputs. Where the text was converted, X
/// stands before the signals that are those of the next step.
pub fn put_smv_formula(
    alloc: Global,
    text: &[u8],
    shown: &Shown,
    names: &SmvNames,
    inputs: &[Name],
    outputs: &[Name],
    out: &mut Text,
) -> Result<(), TextFault> {
    let taken = take_text(alloc, text, Some(shown))?;
    let mut plain = Vec::new(alloc);
    for (number, signal) in (0u32..64).zip(&all_names(alloc, &taken.spec)?) {
        let Some(name) = names.name_for(signal, inputs, outputs) else {
            return Err(TextFault::NotShown(ShowFault::OtherSignals));
        };
        plain.push(atom_of(alloc, name, taken.is_shifted(number))?)?;
    }
    put_whole(&taken.spec, &plain, out);
    Ok(())
}

fn put_whole(spec: &Spec, names: &[Name], out: &mut Text)
    requires { IsNodeIn spec.now.formulas spec.now.whole }
{
    put_smv(&spec.formulas, spec.whole, names, out);
}
