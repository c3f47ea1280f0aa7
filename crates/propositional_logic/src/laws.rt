//! Laws of the definitions, each the contract of a function that does nothing.
ghost use Rattle.propositional_logic.specs.Laws.{ClausesAreSets, TestsMean, TestsAreSound, AssignmentsAreTotal};

/// Two clauses with the same literals are equal, and no clause is a tautology.
pub fn clauses_are_sets()
    ensures { ClausesAreSets }
{}

/// What it means that a clause is satisfied, falsified or unit under a partial assignment.
pub fn tests_mean()
    ensures { TestsMean }
{}

/// What the tests under a partial assignment say of each total assignment that agrees with it.
pub fn tests_are_sound()
    ensures { TestsAreSound }
{}

/// A total assignment and the list of the literals that it makes true say the same.
pub fn assignments_are_total()
    ensures { AssignmentsAreTotal }
{}
