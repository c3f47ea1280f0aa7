//! Laws of the definitions, which no code needs.

ghost use Rattle.tlsf_reader.specs.Reads.{TreesAreDetermined, TreesHaveNoFault};

/// No text has two trees.
pub fn trees_are_determined()
    ensures { TreesAreDetermined }
{}

/// A text that has a tree has no fault of reading.
pub fn trees_have_no_fault()
    ensures { TreesHaveNoFault }
{}
