//! Laws of truth and of lists of formulas. Each is the contract of a function that does nothing.

ghost use Rattle.ltl_formula.specs.Laws.{GrowingKeepsFormulas, OneIdPerFormula, OperatorsMean, OperatorsUnfold, SignalsAreBelow, TruthIsOfTheFuture};
ghost use Rattle.ltl_formula.specs.ListSignals.{SignalsOfListsAreKept};

/// Until, finally and globally mean what they mean on the infinite word, without a bound on the steps.
pub fn operators_mean()
    ensures { OperatorsMean }
{}

/// Until and release at a position go by the position and the next.
pub fn operators_unfold()
    ensures { OperatorsUnfold }
{}

/// Truth depends on the future alone, so unrolling a lasso keeps it.
pub fn truth_is_of_the_future()
    ensures { TruthIsOfTheFuture }
{}

/// No growing of a list changes the formula of an id that stood.
pub fn growing_keeps_formulas()
    ensures { GrowingKeepsFormulas }
{}

/// Equal formulas have equal ids.
pub fn one_id_per_formula()
    ensures { OneIdPerFormula }
{}

/// The formulas of a list speak of signals below 32 alone.
pub fn signals_are_below()
    ensures { SignalsAreBelow }
{}

/// The formulas of a list have no signals but those of its nodes, and a list that takes a node gets none but the node's.
pub fn signals_of_lists_are_kept()
    ensures { SignalsOfListsAreKept }
{}
