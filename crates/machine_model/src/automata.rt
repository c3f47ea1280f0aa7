ghost use Rattle.std.specs.Prelude.{◌≡◌, ◌≢◌, ◌↔◌, ◌^◌, ◌<◌, ◌≤◌, ◌⊎◌, [], All, Any, Err, IfOk, count_by, length, vec_len};
ghost use Rattle.std.specs.Bool.{OnTrue, OnFalse};
ghost use Rattle.machine_model.specs.Automaton.{JoinsStates};

use letters_and_lassos::Cube;
use std::marker::Model;

/// An edge of an automaton: it leads from a state to a state on the letters that fit its cube.
#[derive(Clone, Copy, Debug, PartialEq, Eq, Hash)]
pub struct Edge {
    pub from: u32,
    pub cube: Cube,
    pub to: u32,
}

/// Why edges and states are no automaton.
#[derive(Clone, Copy, Debug, PartialEq, Eq)]
pub enum AutomatonFault {
    /// 1: there is no state.
    Empty,
    /// 2: an edge names a state that isn't there.
    BadEdge,
}

/// A universal co-Büchi automaton over letters. Its start is state 0.
#[derive(Debug, Drop)]
pub struct Automaton {
    edges: Vec<Edge>,
    rejecting: Vec<bool>,
}

impl Model for Automaton {
    ghost use Rattle.machine_model.specs.Automaton.{AutomatonModel, IsAutomaton};

    ghost Value = { AutomatonModel };

    ghost view = { λ a. record { edges = a.edges.items; rejecting = a.rejecting.items } };

    ghost invariant = { λ a. IsAutomaton (record { edges = a.edges.items; rejecting = a.rejecting.items }) };
}

impl Automaton {
    ghost use Rattle.machine_model.specs.Automaton.{AutomatonModel, HasBadEdge, IsAutomaton, rejects, states_of};

    /// The automaton of these edges, with a state for each place of `rejecting`. It takes no memory.
    pub fn new(edges: Vec<Edge>, rejecting: Vec<bool>) -> Result<Automaton, AutomatonFault>
        requires { vec_len rejecting < 2 ^ 32 }
        ensures parts { IfOk result (λ a. a ≡ record { edges = edges.items; rejecting = rejecting.items }) }
        ensures made { IfOk result IsAutomaton }
        ensures empty { (result ≡ Err AutomatonFault.Empty) ↔ (rejecting.items ≡ []) }
        ensures bad_edge { let a : AutomatonModel = record { edges = edges.items; rejecting = rejecting.items } in
            (result ≡ Err AutomatonFault.BadEdge) ↔ ((rejecting.items ≢ []) × HasBadEdge a) }
    {
        if rejecting.is_empty() {
            return Err(AutomatonFault::Empty);
        }
        if has_bad_edge(&edges, rejecting.len()) {
            return Err(AutomatonFault::BadEdge);
        }
        Ok(Automaton { edges, rejecting })
    }

    /// The number of states.
    pub fn states(&self) -> u32
        ensures value { result ≡ states_of self.now }
        ensures kept { IsAutomaton self.now }
    {
        self.rejecting.len() as u32
    }

    /// The number of rejecting states.
    pub fn rejecting_count(&self) -> u32
        ensures { result ≡ count_by (λ rejects. rejects) self.now.rejecting }
    {
        self.rejecting.iter().filter(|rejects| **rejects).count() as u32
    }

    /// The edges, in their order.
    pub fn edges(&self) -> &[Edge]
        ensures value { result.now ≡ self.now.edges }
        ensures kept { IsAutomaton self.now }
    {
        &self.edges
    }

    /// Whether state `q` is rejecting.
    pub fn is_rejecting(&self, q: u32) -> bool
        requires { q < states_of self.now }
        ensures { result ≡ rejects self.now q }
    {
        self.rejecting[q as usize]
    }
}

/// Whether an edge names a state that isn't among the first `states`.
fn has_bad_edge(edges: &[Edge], states: usize) -> bool
    ensures some { OnTrue result (Any (λ e. (states ≤ e.from) ⊎ (states ≤ e.to)) edges.now) }
    ensures none { OnFalse result (All (JoinsStates states) edges.now) }
{
    for edge in edges {
        if edge.from as usize >= states || edge.to as usize >= states {
            return true;
        }
    }
    false
}
