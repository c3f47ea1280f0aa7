//! The states that an annotation names.

ghost use Rattle.std.specs.Prelude.{◌≡◌, ◌<◌, IfOk, None, OnOk, Some, if◌then◌else◌, length, option_map, slice_index_or};
ghost use Rattle.cobuchi_build.specs.declared.exploring.State.{State as AState};
ghost use Rattle.named_annotation.specs.NamedText.{follows, numbers_behind};
ghost use Rattle.named_annotation.specs.Parts.{HasCovers, KnowsFormula, next_of};

use crate::formula::OfFormula;
use crate::words::{behind_state, is_numbered, numbers_in};
use cobuchi_build::State;
use indexmap::IndexSet;
use obligation_sets::Cover;
use std::alloc::{AllocError, Global};

/// The states that were named so far, each different, with the reduced covers of each.
#[derive(Drop)]
pub(crate) struct NamedStates {
    pub(crate) states: IndexSet<State>,
    pub(crate) covers: Vec<Vec<Cover>>,
}

impl NamedStates {
    /// Takes the state that a line names, or says that it names none that may stand here.
    pub(crate) fn take(
        &mut self,
        alloc: Global,
        of: &OfFormula<'_>,
        line: &[u8],
    ) -> Result<bool, AllocError>
        requires known { KnowsFormula of.now }
        requires covers { HasCovers of.now.formulas.now of.now.f self.old }
        ensures next { IfOk result (λ taken. next_of of.now.formulas.now of.now.f self.old.states.keys line.now ≡ (if taken then Some self.new.states.keys else None)) }
        ensures covers { OnOk result (HasCovers of.now.formulas.now of.now.f self.new) }
    {
        let Some(numbers) = named_numbers(alloc, line)? else {
            return Ok(false);
        };
        if !is_numbered(self.states.len(), &numbers) {
            return Ok(false);
        }
        let Some(state) = of.state(alloc, &numbers)? else {
            return Ok(false);
        };
        if !self.may_follow(&of.start, &state) {
            return Ok(false);
        }
        let Some(covers) = of.few_covers(alloc, &state)? else {
            return Ok(false);
        };
        self.states.insert(state)?;
        self.covers.push(covers)?;
        Ok(true)
    }

    /// The counter of a state, by its number.
    pub(crate) fn counter(&self, number: usize) -> u32
        requires { number < length self.now.states.keys }
        ensures { (d : AState) → result ≡ (slice_index_or self.now.states.keys number d).counter }
    {
        match self.states.get_index(number) {
            Some(state) => state.counter,
            None => unreachable!(),
        }
    }

    /// Whether a state may stand behind these: the first one is the start, and none stands twice.
    fn may_follow(&self, start: &State, state: &State) -> bool
        ensures { result ≡ follows self.now.states.keys start.now state.now }
    {
        (self.states.len() > 0 || *state == *start) && !self.states.contains(state)
    }
}

/// The numbers of a line that names a state.
fn named_numbers(alloc: Global, line: &[u8]) -> Result<Option<Vec<u32>>, AllocError>
    ensures { IfOk result (λ numbers. option_map (λ ns. ns.items) numbers ≡ numbers_behind line.now) }
{
    let Some(rest) = behind_state(line) else {
        return Ok(None);
    };
    numbers_in(alloc, rest)
}
