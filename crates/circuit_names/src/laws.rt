//! Laws of the definitions, which no code needs.
ghost use Rattle.circuit_names.specs.Laws.{NamesAreTold};

/// Where a circuit's counts and names fail at no line, they are the text's, as far as it has names.
pub fn names_are_told()
    ensures { NamesAreTold }
{}
