//! Laws of the definitions, each the contract of a function that does nothing.
ghost use Rattle.log_checker.specs.Laws.{FaultsAreApart};

/// A log is legal exactly where no entry breaks a rule, and one fault at most is the first: each answer of a check comes exactly where
/// its clause holds, but for want of memory. So the split calls answer what the plain ones do.
pub fn faults_are_apart()
    ensures { FaultsAreApart }
{}
