//! Counted forms: an X that is repeated, and windows.

ghost use Rattle.std.specs.Prelude.{◌≡◌, ◌≤◌, ◌-◌, IsTrue};
ghost use Rattle.ltl_formula.specs.Nodes.{Grows};
ghost use Rattle.tlsf_values.specs.Counts.{count_in, count_value, empty_truth, joined_or_nothing, joined_with, joining_of, nexts, window_between, window_of, window_value};
ghost use Rattle.tlsf_values.specs.Outcomes.{checked};
ghost use Rattle.tlsf_values.specs.Results.{IsChecked, IsOutcome};
ghost use Rattle.tlsf_values.specs.Sorts.{formula_in, number_in};

use crate::formula::{Connective, Formula, Pairing, truth_as_node};
use crate::value::{Operand, Value};
use crate::work::Work;
use ltl_formula::{FormulaId, Node};
use spec_faults::{SpecCode, SpecFault, fault};
use tlsf_syntax::Op;

/// A count, which isn't negative, at this byte.
fn count(place: u64, number: i64) -> Result<u64, SpecFault>
    ensures { IsChecked result (count_in place number) }
{
    u64::try_from(number).map_err(|_| fault(SpecCode::NumberRange, place))
}

impl Connective {
    /// What a window of this sign joins by.
    pub(crate) fn of_window(op: Op) -> Option<Connective>
        ensures { result ≡ window_of op }
    {
        match op {
            Op::Finally => Some(Connective::Or),
            Op::Globally => Some(Connective::And),
            _ => None,
        }
    }

    /// What a big operator of this sign joins by.
    pub(crate) fn of_big(op: Op) -> Option<Connective>
        ensures { result ≡ joining_of op }
    {
        match op {
            Op::And => Some(Connective::And),
            Op::Or => Some(Connective::Or),
            _ => None,
        }
    }

    /// What was joined, where there was something.
    pub(crate) fn of_all(self, joined: Option<Formula>) -> Formula
        ensures { result ≡ joined_or_nothing self joined }
    {
        match joined {
            None => Formula::Sure(self.of_nothing()),
            Some(formula) => formula,
        }
    }

    /// The truth of nothing joined.
    pub(crate) fn of_nothing(self) -> bool
        ensures { result ≡ empty_truth self }
    {
        match self {
            Connective::Or => false,
            Connective::And => true,
            Connective::Implies => true,
            Connective::Equiv => true,
        }
    }
}

impl Work {
    /// Joins a member's formula to those so far, which stand on its left.
    pub(crate) fn joined_with(
        &mut self,
        place: u64,
        connective: Connective,
        so_far: Option<Formula>,
        formula: Formula,
    ) -> Result<Formula, SpecFault>
        ensures value { IsOutcome result self.new (joined_with place connective so_far formula self.old) }
        ensures grows { Grows self.old.formulas self.new.formulas }
    {
        match so_far {
            None => Ok(formula),
            Some(so_far) => self.connected(place, connective, so_far, formula),
        }
    }

    /// So many X's before a formula. It takes time in proportion to what the limits of nodes and evaluations allow.
    fn nexts(&mut self, place: u64, count: u64, part: FormulaId) -> Result<FormulaId, SpecFault>
        ensures value { IsOutcome result self.new (nexts place count part self.old) }
        ensures grows { Grows self.old.formulas self.new.formulas }
    {
        let mut id = part;
        let mut left = count;
        while left > 0 {
            self.count(place, 1)?;
            id = self.made(place, Node::Next(id))?;
            left -= 1;
        }
        Ok(id)
    }

    /// So many X's, once their number and the formula are evaluated.
    pub(crate) fn counted_next(
        &mut self,
        place: u64,
        times: Operand<'_>,
        part: Operand<'_>,
    ) -> Result<Value, SpecFault>
        ensures value { IsOutcome result self.new (checked (number_in times.entry.place times.entry.value.now) (λ z w. checked (formula_in part.entry.place part.entry.value.now) (λ x w.
            checked (count_in times.entry.place z) (λ k w. count_value place k x w) w) w) self.old) }
        ensures grows { Grows self.old.formulas self.new.formulas }
    {
        let number = times.number()?;
        let formula = part.formula()?;
        let count = count(times.place, number)?;
        let part = self.node_of(place, formula)?;
        Ok(Value::Flat(self.nexts(place, count, part)?))
    }

    /// The formulas so many steps on, joined from the first count to the last.
    fn window_between(
        &mut self,
        place: u64,
        pairing: Pairing,
        first: u64,
        last: u64,
        part: Formula,
    ) -> Result<FormulaId, SpecFault>
        requires { first ≤ last }
        ensures value { IsOutcome result self.new (window_between place pairing first last part self.old) }
        ensures grows { Grows self.old.formulas self.new.formulas }
    {
        let part = self.node_of(place, part)?;
        let mut joined = self.nexts(place, first, part)?;
        let mut count = first;
        while count < last {
            count += 1;
            let next = self.nexts(place, count, part)?;
            joined = self.made(place, pairing.node(joined, next))?;
        }
        Ok(joined)
    }

    /// A window, once its counts and the formula are evaluated.
    pub(crate) fn window_over(
        &mut self,
        place: u64,
        connective: Connective,
        first: Operand<'_>,
        last: Operand<'_>,
        part: Operand<'_>,
    ) -> Result<Value, SpecFault>
        ensures value { IsOutcome result self.new (checked (number_in first.entry.place first.entry.value.now) (λ from w. checked (number_in last.entry.place last.entry.value.now) (λ to w.
            checked (formula_in part.entry.place part.entry.value.now) (λ x w. checked (count_in first.entry.place from) (λ m w. checked (count_in last.entry.place to) (λ n w.
            window_value place connective m n x w) w) w) w) w) self.old) }
        ensures grows { Grows self.old.formulas self.new.formulas }
    {
        let from = first.number()?;
        let to = last.number()?;
        let formula = part.formula()?;
        let from = count(first.place, from)?;
        let to = count(last.place, to)?;
        self.window(place, connective, from, to, formula)
    }

    /// A window over no count is a node of its own.
    fn window(
        &mut self,
        place: u64,
        connective: Connective,
        first: u64,
        last: u64,
        part: Formula,
    ) -> Result<Value, SpecFault>
        ensures value { IsOutcome result self.new (window_value place connective first last part self.old) }
        ensures grows { Grows self.old.formulas self.new.formulas }
    {
        if first > last {
            let nothing = truth_as_node(connective.of_nothing());
            return Ok(Value::Flat(self.made(place, nothing)?));
        }
        let pairing = connective.pairing();
        Ok(Value::Flat(self.window_between(place, pairing, first, last, part)?))
    }
}
