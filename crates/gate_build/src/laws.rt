//! Laws of machines and their circuits. Each is the contract of a function that does nothing.

ghost use Rattle.gate_build.specs.Laws.{EitherSideMeetsTheStates, MachinesCanBeCut, SmallestMeetsAllStates};

/// Each machine can be cut to the states that it meets, so one whose circuit has fewer states than it has isn't smallest.
pub fn machines_can_be_cut()
    ensures { MachinesCanBeCut }
{}

/// The states that a machine meets don't depend on the side that it plays.
pub fn either_side_meets_the_states()
    ensures { EitherSideMeetsTheStates }
{}

/// A machine that its side accepts, where it accepts none with fewer states, meets each of its states.
pub fn smallest_meets_all_states()
    ensures { SmallestMeetsAllStates }
{}
