//! Laws of boards. Each is the contract of a function that does nothing.

ghost use Rattle.size_board.specs.Laws.{BoundsAreTrue, SoughtIsProblem, SoughtOfProblem};

/// No size below a side's `low` has an accepted machine, and where its `high` is an allowed size a machine of
/// so many states is kept, which the side accepts.
pub fn bounds_are_true()
    ensures { BoundsAreTrue }
{}

/// What a board names of a problem are the problem's own machines that its side accepts.
pub fn sought_of_problem()
    ensures { SoughtOfProblem }
{}

/// What a board names, with a number of states, is a whole problem.
pub fn sought_is_problem()
    ensures { SoughtIsProblem }
{}
