//! The names of a text.
ghost use Rattle.std.specs.Prelude.{◌≡◌};
ghost use Rattle.circuit_names.specs.Names.{names_of, read_names, written_names};

use letters_and_lassos::Side;
use names_and_numbers::Name;

/// The names of a text's inputs and outputs, in their order.
#[derive(Clone, Copy)]
pub struct TextNames<'a> {
    pub inputs: &'a [Name],
    pub outputs: &'a [Name],
}

impl<'a> TextNames<'a> {
    /// The names that a circuit of that side reads.
    pub fn read_names(self, side: Side) -> &'a [Name]
        ensures { result.now ≡ read_names (names_of self.entry) side }
    {
        match side {
            Side::System => self.inputs,
            Side::Environment => self.outputs,
        }
    }

    /// The names that a circuit of that side writes.
    pub fn written_names(self, side: Side) -> &'a [Name]
        ensures { result.now ≡ written_names (names_of self.entry) side }
    {
        match side {
            Side::System => self.outputs,
            Side::Environment => self.inputs,
        }
    }
}
