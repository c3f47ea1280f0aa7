//! Limits that go with a text: how many signals it may have, how many nodes its list of formulas, how large its automata, machines and circuits may be.
//! They stand here as values, so that each command hands in its own and contracts speak of their fields. The crate stands on std alone.
#![tactic(auto)]

ghost use Rattle.std.specs.Prelude.{◌≡◌, ◌==◌, ◌<◌, ◌^◌};

/// How large an automaton may become.
#[derive(Clone, Copy, Debug)]
pub struct AutomatonLimits {
    /// The largest number of states.
    pub states: u32,
    /// The largest number of edges, equal ones counted once.
    pub edges: usize,
}

impl AutomatonLimits {
    /// Whether not even one state is allowed.
    pub fn allows_none(self) -> bool
        ensures value { result ≡ (self.states == 0) }
        ensures fits { self.states < 2 ^ 32 }
    {
        self.states == 0
    }
}

/// What a text, and what is made of it, may have at most.
#[derive(Clone, Copy, Debug)]
pub struct Limits {
    /// The largest number of inputs, and of outputs.
    pub signals: usize,
    /// The largest number of inputs and outputs together.
    pub all_signals: usize,
    /// The largest number of nodes of its list of formulas, normal forms among them.
    pub nodes: usize,
    /// How large the automaton of each side may become.
    pub automaton: AutomatonLimits,
    /// The largest number of states of a machine whose base clauses are made.
    pub machine: u32,
}

/// The limits of all commands but `solve`: 8 inputs and 8 outputs, 1,024 nodes, automata of 2,000 states and 200,000 edges, base clauses of
/// machines of up to 8 states.
pub const SMALL_LIMITS: Limits = Limits {
    signals: 8,
    all_signals: 16,
    nodes: 1_024,
    automaton: AutomatonLimits {
        states: 2_000,
        edges: 200_000,
    },
    machine: 8,
};

/// The limits of `solve`: 16 inputs and 16 outputs, 4,096 nodes, automata of 20,000 states and 2,000,000 edges, base clauses of up to 16 states.
pub const LARGE_LIMITS: Limits = Limits {
    signals: 16,
    all_signals: 32,
    nodes: 4_096,
    automaton: AutomatonLimits {
        states: 20_000,
        edges: 2_000_000,
    },
    machine: 16,
};

/// The limits of what enumerates neither letters nor states: 64 signals in all, and 16,384 nodes. What is beyond these is as in `LARGE_LIMITS`.
pub const WIDEST_LIMITS: Limits = Limits {
    signals: 64,
    all_signals: 64,
    nodes: 16_384,
    automaton: AutomatonLimits {
        states: 20_000,
        edges: 2_000_000,
    },
    machine: 16,
};

/// The largest number of variables of a circuit, whichever command takes or makes it.
pub const CIRCUIT_VARIABLES: u32 = 100_000;

/// The largest number of pairs of an annotation over numbered states.
pub const ANNOTATION_PAIRS: u64 = 100_000;
