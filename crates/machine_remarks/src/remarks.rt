//! The remarks on a circuit of the system's side.

use crate::assumptions::{Assumptions, assumptions_of};
use crate::meters::Meter;
use crate::runs::{automaton_of, runs_on_table};
use crate::silence::{Silence, unless_silent};
use crate::tables::Table;
use aiger_text::Circuit;
use letters_and_lassos::Kind;
use outcome_news::{Owed, Remarks};
use std::alloc::{AllocError, Global};
use time_limits::Deadline;

/// The most steps that are taken: four for each row of a state that is reached, and one for each look at a letter on an edge of a pair.
const MOST_STEPS: u64 = 1 << 24;

/// What is so of each run of a circuit of the system's side for a text. The circuit's inputs and outputs are in the text's order, and a given kind stands for
/// SEMANTICS and TARGET both. Beyond the most steps, and where the time is over, nothing more is said; nor of a text that `solve` refuses.
pub fn remarks_of<D: Deadline>(
    alloc: Global,
    text: &[u8],
    given: Option<Kind>,
    circuit: &Circuit,
    deadline: &D,
) -> Result<Remarks, AllocError> {
    let mut meter = Meter::new(deadline, MOST_STEPS);
    let Some(table) = unless_silent(Table::of(alloc, circuit, &mut meter))? else {
        return Ok(Remarks::default());
    };
    let owed = unless_silent(owed_by(alloc, text, given, &table, &mut meter))?;
    Ok(Remarks {
        owed: owed.unwrap_or_default(),
        always_true: table.always_true(),
        always_false: table.always_false(),
        unread: table.unread(),
    })
}

/// What a machine owes by the text.
fn owed_by<D: Deadline>(
    alloc: Global,
    text: &[u8],
    given: Option<Kind>,
    table: &Table,
    meter: &mut Meter<'_, D>,
) -> Result<Owed, Silence> {
    match assumptions_of(alloc, text, given)? {
        Some(assumptions) if are_broken(alloc, &assumptions, table, meter)? => {
            Ok(assumptions.else_owed)
        },
        _ => Ok(Owed::Guarantees),
    }
}

/// Whether the assumptions are true on no run of a machine.
fn are_broken<D: Deadline>(
    alloc: Global,
    assumptions: &Assumptions,
    table: &Table,
    meter: &mut Meter<'_, D>,
) -> Result<bool, Silence> {
    if assumptions.inputs != table.inputs as usize
        || assumptions.outputs != table.outputs as usize
    {
        return Ok(false);
    }
    let mut automaton = automaton_of(alloc, &assumptions.formulas, assumptions.form)?;
    let places = runs_on_table(alloc, table, &mut automaton, meter)?;
    Ok(!places.have_rejecting_ring(alloc)?)
}
