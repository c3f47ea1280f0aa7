//! Laws of circuits. Each is the contract of a function that does nothing.

ghost use Rattle.letters_and_lassos.specs.declared.kinds.Side.{Side};
ghost use Rattle.aiger_text.specs.Circuit.{RunsOnEveryInput};
ghost use Rattle.aiger_text.specs.FileLaws.{FilesStateOneThing, FilesHaveOneFault, FaultsStateNothing};
ghost use Rattle.aiger_text.specs.Laws.{EitherSideHasTheStates, ValuationsAgree, RunsAreDetermined};
ghost use Rattle.aiger_text.specs.RoundTrip.{WrittenIsRead, CommentsAreRead, ReadingsAreStated, ReadingsAgree};

use crate::circuits::Circuit;

/// Each lasso of input letters is read, as a word, by a run lasso.
pub fn runs_on_every_input(circuit: &Circuit)
    ensures { (side : Side) → RunsOnEveryInput side circuit.now }
{
    let _order = &circuit.order;
}

/// Where the inputs and latches have the same values, so has each literal that the circuit defines.
pub fn valuations_agree(circuit: &Circuit)
    ensures { ValuationsAgree circuit.now }
{
    let _order = &circuit.order;
}

/// Two run lassos that read the same are the same word.
pub fn runs_are_determined(circuit: &Circuit)
    ensures { RunsAreDetermined circuit.now }
{
    let _order = &circuit.order;
}

/// The number of states of a circuit doesn't depend on the side that it plays.
pub fn either_side_has_the_states()
    ensures { EitherSideHasTheStates }
{}

/// A file without fault states one thing.
pub fn files_state_one_thing()
    ensures { FilesStateOneThing }
{}

/// A file has at most one first fault.
pub fn files_have_one_fault()
    ensures { FilesHaveOneFault }
{}

/// A file with a fault states nothing.
pub fn faults_state_nothing()
    ensures { FaultsStateNothing }
{}

/// What is written of a circuit that a file can hold states, read back, this circuit and nothing else.
pub fn written_is_read(circuit: &Circuit)
    ensures { WrittenIsRead circuit.now }
{
    let _order = &circuit.order;
}

/// The same where the line `c` and a comment follow, with the place at which the comment begins.
pub fn comments_are_read(circuit: &Circuit)
    ensures { CommentsAreRead circuit.now }
{
    let _order = &circuit.order;
}

/// What a file reads as, by the grammar of circuits' files, is what it states, line by line.
pub fn readings_are_stated(bytes: &[u8])
    ensures { ReadingsAreStated bytes.now }
{
    let _size = bytes.len();
}

/// A file reads as one circuit.
pub fn readings_agree(bytes: &[u8])
    ensures { ReadingsAgree bytes.now }
{
    let _size = bytes.len();
}
