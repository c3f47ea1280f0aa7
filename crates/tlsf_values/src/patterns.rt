//! A bus compared with a member of an enumeration.

ghost use Rattle.std.specs.Prelude.{◌≡◌, map};
ghost use Rattle.ltl_formula.specs.Nodes.{Grows};
ghost use Rattle.tlsf_values.specs.Patterns.{all_values, are_wide, bit_made, bits_made, joined_to, matched, or_truth, values_joined, values_made};
ghost use Rattle.tlsf_syntax.specs.Seen.{member_seen, pattern_seen};
ghost use Rattle.tlsf_values.specs.Results.{IsOutcome, IsOutcomeAs};
ghost use Rattle.tlsf_values.specs.declared.formula.Formula.TheVariants.{Flat};

use crate::formula::{Pairing, truth_as_node};
use crate::numbers::Places;
use crate::work::Work;
use ltl_formula::{FormulaId, Node};
use spec_faults::{SpecCode, SpecFault, fault};
use tlsf_syntax::{Member, Pattern};

/// A bus, by its first signal and its width.
#[derive(Clone, Copy, PartialEq, Eq)]
pub(crate) struct BusRange {
    pub(crate) first: u32,
    pub(crate) width: u32,
}

/// Whether each of the values is so wide.
fn are_so_wide(width: u32, values: &[Pattern]) -> bool
    ensures { result ≡ are_wide width (map pattern_seen values.now) }
{
    for value in values {
        if value.bits.len() != width as usize {
            return false;
        }
    }
    true
}

impl Work {
    /// A bus with this first signal and this width has one of a member's values.
    pub(crate) fn matched(
        &mut self,
        places: Places,
        first: u32,
        width: u32,
        values: &[Pattern],
    ) -> Result<FormulaId, SpecFault>
        ensures value { IsOutcomeAs Flat result self.new (matched places first width (map pattern_seen values.now) self.old) }
        ensures grows { Grows self.old.formulas self.new.formulas }
    {
        if !are_so_wide(width, values) {
            return Err(fault(SpecCode::WrongSort, places.right));
        }
        self.values_made(places.own, first, values)
    }

    /// One of the values of these members stands at the signals from this one on. It counts no evaluation.
    pub fn members_made(
        &mut self,
        place: u64,
        first: u32,
        members: &[Member],
    ) -> Result<FormulaId, SpecFault>
        ensures value { IsOutcome result self.new (values_made place first (all_values (map member_seen members.now)) None self.old) }
        ensures grows { Grows self.old.formulas self.new.formulas }
    {
        let mut so_far = None;
        for member in members {
            so_far = self.values_joined(place, first, &member.values, so_far)?;
        }
        self.or_truth(place, false, so_far)
    }

    fn values_made(
        &mut self,
        place: u64,
        first: u32,
        values: &[Pattern],
    ) -> Result<FormulaId, SpecFault>
        ensures value { IsOutcome result self.new (values_made place first (map pattern_seen values.now) None self.old) }
        ensures grows { Grows self.old.formulas self.new.formulas }
    {
        let so_far = self.values_joined(place, first, values, None)?;
        self.or_truth(place, false, so_far)
    }

    /// Joins these values, as they may stand at the signals from this one on, to those so far.
    fn values_joined(
        &mut self,
        place: u64,
        first: u32,
        values: &[Pattern],
        so_far: Option<FormulaId>,
    ) -> Result<Option<FormulaId>, SpecFault>
        ensures value { IsOutcome result self.new (values_joined place first (map pattern_seen values.now) so_far self.old) }
        ensures grows { Grows self.old.formulas self.new.formulas }
    {
        let mut joined = so_far;
        for value in values {
            let id = self.bits_made(place, first, &value.bits)?;
            joined = Some(self.joined_to(place, Pairing::Or, joined, id)?);
        }
        Ok(joined)
    }

    /// The bits of a value stand at the signals from this one on; a star is passed over.
    fn bits_made(
        &mut self,
        place: u64,
        first: u32,
        bits: &[Option<bool>],
    ) -> Result<FormulaId, SpecFault>
        ensures value { IsOutcome result self.new (bits_made place first bits.now None self.old) }
        ensures grows { Grows self.old.formulas self.new.formulas }
    {
        let mut so_far = None;
        for (i, bit) in bits.iter().enumerate() {
            if let Some(bit) = *bit {
                let id = self.bit_made(place, first as usize + i, bit)?;
                so_far = Some(self.joined_to(place, Pairing::And, so_far, id)?);
            }
        }
        self.or_truth(place, true, so_far)
    }

    fn bit_made(&mut self, place: u64, signal: usize, bit: bool) -> Result<FormulaId, SpecFault>
        ensures value { IsOutcome result self.new (bit_made place signal bit self.old) }
        ensures grows { Grows self.old.formulas self.new.formulas }
    {
        let id = self.signal_made(place, signal)?;
        if bit {
            return Ok(id);
        }
        self.made(place, Node::Not(id))
    }

    /// Joins a formula to those so far, which stand on its left.
    fn joined_to(
        &mut self,
        place: u64,
        pairing: Pairing,
        so_far: Option<FormulaId>,
        id: FormulaId,
    ) -> Result<FormulaId, SpecFault>
        ensures value { IsOutcome result self.new (joined_to place pairing so_far id self.old) }
        ensures grows { Grows self.old.formulas self.new.formulas }
    {
        match so_far {
            None => Ok(id),
            Some(so_far) => self.made(place, pairing.node(so_far, id)),
        }
    }

    /// Where nothing was joined, a truth stands.
    fn or_truth(
        &mut self,
        place: u64,
        truth: bool,
        so_far: Option<FormulaId>,
    ) -> Result<FormulaId, SpecFault>
        ensures value { IsOutcome result self.new (or_truth place truth so_far self.old) }
        ensures grows { Grows self.old.formulas self.new.formulas }
    {
        match so_far {
            None => self.made(place, truth_as_node(truth)),
            Some(id) => Ok(id),
        }
    }
}
