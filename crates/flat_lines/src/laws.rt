//! Laws of the definitions, which no code needs.

ghost use Rattle.flat_lines.specs.Laws.{ExpandedCanBeWritten};

/// What comes of a text can be written.
pub fn expanded_can_be_written()
    ensures { ExpandedCanBeWritten }
{}
