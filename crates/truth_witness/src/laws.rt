//! What witnesses show. Each law is the contract of a function that does nothing.

ghost use Rattle.truth_witness.specs.Descent.{RanksFall};
ghost use Rattle.truth_witness.specs.Example.{WorkedByHand, RulesByHand};
ghost use Rattle.truth_witness.specs.Laws.{WitnessesShow};
ghost use Rattle.truth_witness.specs.Truths.{ClausesAreMade};

use refutation_log::laws::logs_are_sound;

/// Where each obligation of a witness has a closed log, the formula is true on no run lasso of the circuit, whichever side it plays.
pub fn witnesses_show()
    ensures { WitnessesShow }
{
    logs_are_sound();
}

/// The base clauses that are made of clauses are true exactly where these are.
pub fn clauses_are_made()
    ensures { ClausesAreMade }
{}

/// A rank that falls, or waits for what comes again and again, at each step, is none.
pub fn ranks_fall()
    ensures { RanksFall }
{}

/// The base clauses of a small witness are those that were written by hand.
pub fn worked_by_hand()
    ensures { WorkedByHand }
{}

/// The same of rules of which that witness shows nothing.
pub fn rules_by_hand()
    ensures { RulesByHand }
{}
