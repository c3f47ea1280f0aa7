//! Laws of the definitions, each the contract of a function that does nothing.
ghost use Rattle.witness_clauses.specs.Laws.{ObligationsAreFormulas};

/// The base clauses of an obligation are a formula over its variables.
pub fn obligations_are_formulas()
    ensures { ObligationsAreFormulas }
{}
