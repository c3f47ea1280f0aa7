//! What may stand where a formula is needed, and operators over it.

ghost use Rattle.std.specs.Prelude.{◌≡◌};
ghost use Rattle.ltl_formula.specs.Nodes.{Grows};
ghost use Rattle.tlsf_values.specs.Formulas.{connective_of, connected, flat_made, node_of, opposed, over_both, over_one, pairing_of, sign_of, truth_node, truth_of};
ghost use Rattle.tlsf_values.specs.Results.{IsOutcome};

use crate::work::Work;
use ltl_formula::{FormulaId, Node};
use spec_faults::SpecFault;

/// A truth, which becomes a node only at an operator that needs a formula, or a flat formula of the list.
#[derive(Clone, Copy, Debug, PartialEq, Eq)]
pub enum Formula {
    Sure(bool),
    Flat(FormulaId),
}

/// An operator with two operands that always makes a node.
#[derive(Clone, Copy, Debug, PartialEq, Eq)]
pub enum Pairing {
    And,
    Or,
    Implies,
    Equiv,
    WeakUntil,
    Until,
    Release,
}

/// An operator that is also one of truths.
#[derive(Clone, Copy, Debug, PartialEq, Eq)]
pub enum Connective {
    And,
    Or,
    Implies,
    Equiv,
}

/// A sign before one operand that always makes a node.
#[derive(Clone, Copy, Debug, PartialEq, Eq)]
pub enum Sign {
    Next,
    Finally,
    Globally,
}

impl Pairing {
    pub(crate) fn node(self, left: FormulaId, right: FormulaId) -> Node
        ensures { result ≡ pairing_of self left right }
    {
        match self {
            Pairing::And => Node::And(left, right),
            Pairing::Or => Node::Or(left, right),
            Pairing::Implies => Node::Implies(left, right),
            Pairing::Equiv => Node::Equiv(left, right),
            Pairing::WeakUntil => Node::WeakUntil(left, right),
            Pairing::Until => Node::Until(left, right),
            Pairing::Release => Node::Release(left, right),
        }
    }
}

impl Connective {
    fn truth(self, left: bool, right: bool) -> bool
        ensures { result ≡ truth_of self left right }
    {
        match self {
            Connective::And => left && right,
            Connective::Or => left || right,
            Connective::Implies => !left || right,
            Connective::Equiv => left == right,
        }
    }

    pub(crate) fn pairing(self) -> Pairing
        ensures { result ≡ connective_of self }
    {
        match self {
            Connective::And => Pairing::And,
            Connective::Or => Pairing::Or,
            Connective::Implies => Pairing::Implies,
            Connective::Equiv => Pairing::Equiv,
        }
    }
}

impl Sign {
    fn node(self, part: FormulaId) -> Node
        ensures { result ≡ sign_of self part }
    {
        match self {
            Sign::Next => Node::Next(part),
            Sign::Finally => Node::Finally(part),
            Sign::Globally => Node::Globally(part),
        }
    }
}

pub(crate) fn truth_as_node(truth: bool) -> Node
    ensures { result ≡ truth_node truth }
{
    if truth { Node::True } else { Node::False }
}

impl Work {
    /// The node of a formula that an operator at this byte needs.
    pub(crate) fn node_of(&mut self, place: u64, formula: Formula) -> Result<FormulaId, SpecFault>
        ensures value { IsOutcome result self.new (node_of place formula self.old) }
        ensures grows { Grows self.old.formulas self.new.formulas }
    {
        match formula {
            Formula::Sure(truth) => self.made(place, truth_as_node(truth)),
            Formula::Flat(id) => Ok(id),
        }
    }

    pub(crate) fn flat_made(&mut self, place: u64, node: Node) -> Result<Formula, SpecFault>
        ensures value { IsOutcome result self.new (flat_made place node self.old) }
        ensures grows { Grows self.old.formulas self.new.formulas }
    {
        Ok(Formula::Flat(self.made(place, node)?))
    }

    /// The left operand's node, the right one's, and the operator's.
    pub(crate) fn over_both(
        &mut self,
        place: u64,
        pairing: Pairing,
        left: Formula,
        right: Formula,
    ) -> Result<Formula, SpecFault>
        ensures value { IsOutcome result self.new (over_both place pairing left right self.old) }
        ensures grows { Grows self.old.formulas self.new.formulas }
    {
        let left = self.node_of(place, left)?;
        let right = self.node_of(place, right)?;
        self.flat_made(place, pairing.node(left, right))
    }

    pub(crate) fn over_one(
        &mut self,
        place: u64,
        sign: Sign,
        part: Formula,
    ) -> Result<Formula, SpecFault>
        ensures value { IsOutcome result self.new (over_one place sign part self.old) }
        ensures grows { Grows self.old.formulas self.new.formulas }
    {
        let part = self.node_of(place, part)?;
        self.flat_made(place, sign.node(part))
    }

    pub(crate) fn connected(
        &mut self,
        place: u64,
        connective: Connective,
        left: Formula,
        right: Formula,
    ) -> Result<Formula, SpecFault>
        ensures value { IsOutcome result self.new (connected place connective left right self.old) }
        ensures grows { Grows self.old.formulas self.new.formulas }
    {
        match (left, right) {
            (Formula::Sure(left), Formula::Sure(right)) => Ok(Formula::Sure(connective.truth(
                left, right,
            ))),
            _ => self.over_both(place, connective.pairing(), left, right),
        }
    }

    pub(crate) fn opposed(&mut self, place: u64, formula: Formula) -> Result<Formula, SpecFault>
        ensures value { IsOutcome result self.new (opposed place formula self.old) }
        ensures grows { Grows self.old.formulas self.new.formulas }
    {
        match formula {
            Formula::Sure(truth) => Ok(Formula::Sure(!truth)),
            Formula::Flat(id) => self.flat_made(place, Node::Not(id)),
        }
    }
}
