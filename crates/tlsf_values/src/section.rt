//! The formulas of a section of a text, in one evaluation.

ghost use Rattle.std.specs.Prelude.{◌≡◌, [], map};
ghost use Rattle.ltl_formula.specs.Nodes.{Grows};
ghost use Rattle.tlsf_values.specs.NamesSeen.{names_seen};
ghost use Rattle.tlsf_values.specs.Outcomes.{go_on};
ghost use Rattle.tlsf_values.specs.Results.{IsOutcome, IsOutcomeAs};
ghost use Rattle.tlsf_values.specs.SectionValues.{section_formula, section_value};
ghost use Rattle.tlsf_values.specs.Values.{span_start, value_at};
ghost use Rattle.tlsf_syntax.specs.Seen.{expr_seen};

use crate::names::Names;
use crate::scope::Scope;
use crate::work::{MOST_DEPTH, Work};
use ltl_formula::FormulaId;
use spec_faults::SpecFault;
use tlsf_syntax::Expr;

impl<'t> Names<'t> {
    /// The flat formulas of a section's expressions, or their first fault, where the text has these names: no name is bound
    /// and no node entered where each expression begins, a truth becomes a node, and what is no formula is of a wrong sort.
    /// After a refusal too the formulas that stood keep their ids; how many evaluations were done isn't said then.
    pub fn formulas_of(
        &self,
        exprs: &'t [Expr],
        work: &mut Work,
    ) -> Result<Vec<FormulaId>, SpecFault>
        ensures value { IsOutcomeAs (λ ids. ids.items) result work.new (section_value (names_seen self.now) (map expr_seen exprs.now) work.old) }
        ensures grows { Grows work.old.formulas work.new.formulas }
    {
        let mut ids = Vec::new(self.alloc);
        for expr in exprs {
            ids.push(self.formula(expr, work)?)?;
        }
        Ok(ids)
    }

    /// The formula of an expression in which no name is bound.
    #[tactic(auto, using(crate::proofs::SeenLemmas::start_seen))]
    fn formula(&self, expr: &'t Expr, work: &mut Work) -> Result<FormulaId, SpecFault>
        ensures value { IsOutcome result work.new (go_on (value_at (names_seen self.now) [] (expr_seen expr.now) 0 work.old) (λ v w. section_formula (span_start (expr_seen expr.now)) v w)) }
        ensures grows { Grows work.old.formulas work.new.formulas }
    {
        let place = expr.span.start;
        let mut bound = Scope::new(self.alloc);
        let value = self.value(&mut bound, expr, MOST_DEPTH, work)?;
        let formula = value.formula(place)?;
        work.node_of(place, formula)
    }
}
