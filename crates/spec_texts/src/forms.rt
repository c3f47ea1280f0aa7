//! What is written of a text.

ghost use Rattle.flat_lines.specs.FlatLines.{CanBeWritten};
ghost use Rattle.ltl_formula.specs.Nodes.{IsNodeIn};
ghost use Rattle.tlsf_expand.specs.FlatText.{spec_seen};

use crate::beside::{Taken, take_text};
use crate::faults::TextFault;
use crate::infix::put_ltl;
use crate::tlsf::{put_apart, put_dual, put_same};
use machine_table::Text;
use std::alloc::Global;

/// What is written of a text.
#[derive(Clone, Copy)]
pub enum Form {
    /// The formula of the whole in infix LTL, with the lists of its signals.
    Ltl,
    /// The expanded text in basic TLSF.
    Tlsf,
    /// The same with each formula of ASSERT, and of PRESET where nothing is assumed, as a guarantee of its own.
    Apart,
    /// The task of the environment: inputs and outputs exchanged, the other kind, and that the whole is false.
    Dual,
}

/// What is written, and what a reader should know: how the text was taken, and what of it stays as it is.
#[derive(Drop)]
pub struct SpecText {
    pub bytes: Vec<u8>,
    pub taken: Option<&'static str>,
    pub note: Option<&'static str>,
}

/// Writes a text in one of these forms. A formula can be exponentially longer there; one that is too long is want of memory.
pub fn spec_text(alloc: Global, text: &[u8], form: Form) -> Result<SpecText, TextFault> {
    let taken = take_text(alloc, text, None)?;
    written(alloc, &taken, form)
}

fn written(alloc: Global, taken: &Taken, form: Form) -> Result<SpecText, TextFault>
    requires writable { CanBeWritten (spec_seen taken.now.spec) }
    requires stands { IsNodeIn taken.now.spec.formulas taken.now.spec.whole }
{
    let mut out = Text::new(alloc);
    let mut note = None;
    match form {
        Form::Ltl => put_ltl(alloc, taken, &mut out)?,
        Form::Tlsf => put_same(alloc, taken, &mut out)?,
        Form::Apart => note = put_apart(alloc, taken, &mut out)?,
        Form::Dual => put_dual(alloc, taken, &mut out)?,
    }
    Ok(SpecText {
        bytes: out.finish()?,
        taken: taken.note,
        note,
    })
}
