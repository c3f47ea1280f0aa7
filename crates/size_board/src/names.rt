use std::marker::Brand;

/// What a board is about: for contracts alone it names what the system looks for, what the environment
/// looks for, if it looks for anything, and the two numbers of allowed sizes.
pub trait ProblemNames {
    ghost use Rattle.size_board.specs.Names.{Named};

    ghost named: { Named };
}

impl ProblemNames for Brand {
    ghost use Rattle.size_board.specs.Names.{no_names};

    ghost named = { no_names };
}
