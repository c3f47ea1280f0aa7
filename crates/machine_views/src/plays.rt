//! What two machines do against each other.

use crate::partners::lasso_of;
use crate::runs::{Step, steps_on};
use crate::vcd::put_vcd;
use crate::wave::put_wave;
use circuit_steps::signal_bit;
use letters_and_lassos::{Lasso, Letter};
use machine_table::{Machine, ShowFault, Shown, Text, put_letter};
use std::alloc::{AllocError, Global};

/// How a play is shown.
#[derive(Clone, Copy)]
pub enum PlayView {
    /// As lines of text, with so many rounds of the ring.
    Wave(u32),
    /// As a VCD file, with so many rounds of the ring.
    Vcd(u32),
    /// As a word of the inputs and outputs of both.
    Word,
}

/// Puts what a machine and another one do against each other, with the states of the first one. Each must read what the other writes, and one
/// must write by its state alone.
///
/// A signal of the other one that has a name is the signal of that name, and one without a name that of the same place.
pub(crate) fn put_play(
    alloc: Global,
    shown: &Shown,
    other: &Shown,
    view: PlayView,
    out: &mut Text,
) -> Result<(), ShowFault> {
    let machine = shown.machine(alloc)?;
    let Some(circuit) = other.circuit() else {
        return Err(ShowFault::NoMachine);
    };
    let partner = Machine::of_circuit(alloc, circuit, Some(machine.kind.other()))?;
    let lasso = lasso_of(alloc, &machine, &partner, circuit)?;
    match view {
        PlayView::Wave(rounds) => put_wave(
            &machine,
            &play_steps(alloc, &machine, &lasso, rounds)?,
            out,
        ),
        PlayView::Vcd(rounds) => {
            put_vcd(
                alloc,
                &machine,
                &play_steps(alloc, &machine, &lasso, rounds)?,
                out,
            )?;
        }
        PlayView::Word => put_word(alloc, &machine, &lasso, out)?,
    }
    Ok(())
}

/// The machine's steps on what the other one writes.
fn play_steps(
    alloc: Global,
    machine: &Machine,
    lasso: &Lasso,
    rounds: u32,
) -> Result<Vec<Step>, ShowFault> {
    let stem = inputs_in(alloc, machine, lasso.stem())?;
    let ring = inputs_in(alloc, machine, lasso.ring())?;
    match Lasso::new(stem, ring) {
        Ok(word) => Ok(steps_on(alloc, machine, &word, rounds)?),
        Err(_) => Err(ShowFault::NoPartners),
    }
}

/// The letters of the inputs alone, which come first.
fn inputs_in(
    alloc: Global,
    machine: &Machine,
    letters: &[Letter],
) -> Result<Vec<Letter>, AllocError> {
    let mut mask = 0u64;
    for (signal, _label) in (0u32..64).zip(&machine.inputs.labels) {
        mask |= signal_bit(signal);
    }
    let mut found = Vec::new(alloc);
    for letter in letters {
        found.push(Letter(letter.0 & mask))?;
    }
    Ok(found)
}

/// The lasso as the file of a word has it.
fn put_word(
    alloc: Global,
    machine: &Machine,
    lasso: &Lasso,
    out: &mut Text,
) -> Result<(), AllocError> {
    let mut labels = Vec::new(alloc);
    for label in machine
        .inputs
        .labels
        .iter()
        .chain(machine.outputs.labels.iter())
    {
        labels.push(label.clone()?)?;
    }
    out.put("stem\n");
    put_letters(lasso.stem(), &labels, out);
    out.put("ring\n");
    put_letters(lasso.ring(), &labels, out);
    Ok(())
}

fn put_letters(letters: &[Letter], labels: &[String], out: &mut Text) {
    for letter in letters {
        put_letter(*letter, labels, out);
        out.put("\n");
    }
}
