//! Two machines as partners of a play.

use crate::matching::Matching;
use aiger_text::Circuit;
use circuit_steps::{few, signal_bit};
use indexmap::IndexSet;
use letters_and_lassos::{Lasso, Letter};
use machine_table::{Machine, ShowFault};
use std::alloc::Global;

/// The most steps before a play comes round.
const MOST_STEPS: usize = 65_536;

/// The states of both machines, that of the first one and that of the other one.
type States = (usize, usize);

/// A machine, and one that reads what it writes and writes what it reads.
#[derive(Clone, Copy)]
struct Partners<'a> {
    machine: &'a Machine,
    other: &'a Machine,
    /// What the other one reads, and what it writes, among the signals of the first one.
    reads: &'a Matching,
    writes: &'a Matching,
}

/// What both write in a step, over the signals of the first machine, and their states after that.
#[derive(Clone, Copy)]
struct Round {
    letter: Letter,
    next: States,
}

/// The lasso that both make, over the inputs and then the outputs of the first machine. The other one has that circuit.
pub(crate) fn lasso_of(
    alloc: Global,
    machine: &Machine,
    other: &Machine,
    circuit: &Circuit,
) -> Result<Lasso, ShowFault> {
    let reads = Matching::of(alloc, &circuit.input_names, &machine.outputs.names)?;
    let writes = Matching::of(alloc, &circuit.output_names, &machine.inputs.names)?;
    if !machine.is_moore() && !other.is_moore() {
        return Err(ShowFault::NoMoore);
    }
    let partners = Partners {
        machine,
        other,
        reads: &reads,
        writes: &writes,
    };
    partners.play(alloc)
}

impl Partners<'_> {
    /// The rounds until both states are met a second time, which close the ring.
    fn play(self, alloc: Global) -> Result<Lasso, ShowFault> {
        let mut met = IndexSet::new(alloc);
        let mut letters = Vec::new(alloc);
        let mut states: States = (0, 0);
        for _ in 0..=MOST_STEPS {
            let (place, is_new) = met.insert_full(states)?;
            if !is_new {
                return closed(letters, place);
            }
            let round = self.round(states)?;
            letters.push(round.letter)?;
            states = round.next;
        }
        Err(ShowFault::PlayTooLong)
    }

    /// A round, in which the one that writes by its state alone comes first.
    fn round(self, states: States) -> Result<Round, ShowFault> {
        let read = if self.machine.is_moore() {
            self.answer_of_other(states.1, self.written(states.0)?)?.0
        } else {
            self.answer_of_other(states.1, Letter(0))?.0
        };
        let own = self.machine.answer(states.0, read);
        let own = own.ok_or(ShowFault::NoPartners)?;
        let (_read, next) = self.answer_of_other(states.1, own.written)?;
        let shift = signal_bit(few(self.machine.inputs.names.len()));
        Ok(Round {
            letter: Letter(read.0 | own.written.0.saturating_mul(shift)),
            next: (own.next, next),
        })
    }

    /// What a Moore machine writes in a state.
    fn written(self, state: usize) -> Result<Letter, ShowFault> {
        let row = self.machine.rows.get(state).ok_or(ShowFault::NoPartners)?;
        Ok(row.first_written())
    }

    /// What the other one writes in a state where the first one writes that letter, as the first one reads it, and its state after that.
    fn answer_of_other(self, state: usize, written: Letter) -> Result<(Letter, usize), ShowFault> {
        let heard = self.reads.of_other(written);
        let answer = self.other.answer(state, heard);
        let answer = answer.ok_or(ShowFault::NoPartners)?;
        Ok((self.writes.to_other(answer.written), answer.next))
    }
}

/// The lasso of these letters, whose ring begins at that place.
fn closed(letters: Vec<Letter>, begin: usize) -> Result<Lasso, ShowFault> {
    let mut stem = letters;
    if begin > stem.len() {
        return Err(ShowFault::NoPartners);
    }
    let ring = stem.split_off(begin)?;
    Lasso::new(stem, ring).or(Err(ShowFault::NoPartners))
}
