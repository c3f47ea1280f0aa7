//! What is said of a machine of the system's side beside its circuit.

/// What is so of each run of a machine. Signals are bits by their place in the circuit's lists of inputs and of outputs.
#[derive(Clone, Copy, Debug, Default, PartialEq, Eq)]
pub struct Remarks {
    pub owed: Owed,
    /// Outputs that are true at each position of each run.
    pub always_true: u64,
    /// Outputs that are false at each position of each run.
    pub always_false: u64,
    /// Inputs on which neither an output nor a next state depends, in any state that is reached.
    pub unread: u64,
}

/// What a machine owes by the text.
#[derive(Clone, Copy, Debug, Default, PartialEq, Eq)]
pub enum Owed {
    /// What the text asks for: some run meets the assumptions, or none was shown to break them on all.
    #[default]
    Guarantees,
    /// Nothing of the guarantees, since no run meets the assumptions; but PRESET, and with Strict also ASSERT up to the break, where the text has them.
    OnlyInitially { preset: bool, assert: bool },
}
