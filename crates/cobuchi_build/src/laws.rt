//! Laws of the automaton of a formula. Each is the contract of a function that does nothing.

ghost use Rattle.cobuchi_build.specs.Limits.{AutomataKeepLimits};
ghost use Rattle.cobuchi_build.specs.Laws.{OneAutomatonPerFormula, TheAutomatonAcceptsExactly, TrueFormulasHavePaths, UntilsAreThoseThatOccur};

/// The automaton of a formula in normal form accepts exactly the lassos on which the formula is true.
pub fn the_automaton_accepts_exactly()
    ensures { TheAutomatonAcceptsExactly }
{}

/// Where a formula is true it has a path of named states, whatever the limits are.
pub fn true_formulas_have_paths()
    ensures { TrueFormulasHavePaths }
{}

/// A formula has one automaton.
pub fn one_automaton_per_formula()
    ensures { OneAutomatonPerFormula }
{}

/// The until formulas that the counter counts are those that occur in the formula.
pub fn untils_are_those_that_occur()
    ensures { UntilsAreThoseThatOccur }
{}

/// The cubes of a formula's automaton name no signals but those of the list, and an automaton within the limits has no
/// more states than they allow.
pub fn automata_keep_limits()
    ensures { AutomataKeepLimits }
{}
