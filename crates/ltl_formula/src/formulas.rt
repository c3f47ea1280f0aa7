ghost use Rattle.std.specs.Prelude.{◌≡◌, ℕ, min, ◌↔◌, ◌<◌, ◌≤◌, IsTrue, [], ◌∷◌, ◌++◌, Ok, Err, Some, None, IfOk, IfErr, OnOk, OnErr, length, position, slice_get};
ghost use Rattle.ltl_formula.specs.Nodes.{Grows, IsNodeList, PartsBelow, SignalBelow, IsNodeIn, tree_at, tree_of, trees_of};
ghost use Rattle.ltl_formula.specs.Added.{added, node_eq};
ghost use Rattle.ltl_formula.specs.declared.nodes.TheConstants.{MAX_NODES, MAX_SIGNALS};

use crate::faults::AddFault;
use crate::nodes::{FormulaId, MAX_NODES, MAX_SIGNALS, Node};
use indexmap::IndexSet;
use std::alloc::Global;
use std::marker::Model;

/// A list of different nodes, in which the parts of each node stand before it.
#[derive(Debug, Drop)]
pub struct Formulas {
    nodes: IndexSet<Node>,
}

impl Model for Formulas {
    ghost use Rattle.std.specs.Prelude.{List};
    ghost use Rattle.ltl_formula.specs.declared.nodes.Node.{Node};
    ghost use Rattle.ltl_formula.specs.Nodes.{IsNodeList};

    ghost Value = { List Node };

    ghost view = { λ a. a.nodes.keys };

    ghost invariant = { λ a. IsNodeList a.nodes.keys };
}

impl Formulas {
    /// The list without nodes. It takes no memory.
    pub fn new(alloc: Global) -> Formulas
        ensures { result ≡ [] }
    {
        Formulas {
            nodes: IndexSet::new(alloc),
        }
    }

    /// The number of nodes, which is at most 4,096.
    pub fn len(&self) -> usize
        ensures value { result ≡ length self.now }
        ensures list { IsNodeList self.now }
    {
        self.nodes.len()
    }

    /// The node of an id.
    pub fn node(&self, id: FormulaId) -> Node
        requires { IsNodeIn self.now id }
        ensures value { slice_get self.now id.0 ≡ Some result }
        ensures parts { PartsBelow id.0 result }
        ensures tree { tree_at self.now id ≡ tree_of (trees_of self.now) result }
        ensures list { IsNodeList self.now }
    {
        self.nodes.as_slice()[id.0 as usize]
    }

    /// Whether `add` may be called at the node: its parts stand, and its signal is below 32.
    pub fn can_add(&self, node: Node) -> bool
        ensures { IsTrue result ↔ (PartsBelow (length self.now) node × SignalBelow MAX_SIGNALS node) }
    {
        let stands = |id: FormulaId| (id.0 as usize) < self.nodes.len();
        match node {
            Node::True | Node::False => true,
            Node::Signal(signal) => signal < MAX_SIGNALS,
            Node::Not(a) | Node::Next(a) | Node::Finally(a) | Node::Globally(a) => stands(a),
            Node::And(a, b)
            | Node::Or(a, b)
            | Node::Implies(a, b)
            | Node::Equiv(a, b)
            | Node::Until(a, b)
            | Node::Release(a, b)
            | Node::WeakUntil(a, b) => stands(a) && stands(b),
        }
    }

    /// The id of an equal node that stands, which takes no memory, else the new last one. Its parts must stand,
    /// and its signal be below 32. It is refused where `most` nodes stand, or as many as any list holds, and this one is new; the list
    /// is then as before.
    pub fn add(&mut self, most: usize, node: Node) -> Result<FormulaId, AddFault>
        requires parts { PartsBelow (length self.old) node }
        requires signal { SignalBelow MAX_SIGNALS node }
        ensures ok { IfOk result (λ id. added most self.old node ≡ record { nodes = self.new; made = Some id }) }
        ensures known { (place : ℕ) → position (node_eq node) self.old ≡ Some place → result ≡ Ok (record { 0 = place }) }
        ensures too_many { result ≡ Err AddFault.TooManyNodes → (added most self.old node).made ≡ None }
        ensures full { (added most self.old node).made ≡ None → result ≡ Err AddFault.TooManyNodes }
        ensures err { OnErr result (self.new ≡ self.old) }

        // What a caller needs of the new list.
        ensures stands { IfOk result (λ id. slice_get self.new id.0 ≡ Some node) }
        ensures tree { IfOk result (λ id. tree_at self.new id ≡ tree_of (trees_of self.old) node) }
        ensures grows { Grows self.old self.new }
        ensures list { IsNodeList self.new }
    {
        match self.nodes.get_index_of(&node) {
            Some(place) => Ok(FormulaId(place as u32)),
            None => self.add_new(most, node),
        }
    }

    fn add_new(&mut self, most: usize, node: Node) -> Result<FormulaId, AddFault>
        requires parts { PartsBelow (length self.old) node }
        requires signal { SignalBelow MAX_SIGNALS node }
        requires absent { position (node_eq node) self.old ≡ None }
        ensures last { IfOk result (λ id. (id ≡ record { 0 = length self.old }) × (length self.old < min most MAX_NODES)) }
        ensures grown { OnOk result (self.new ≡ self.old ++ node ∷ []) }
        ensures full { (result ≡ Err AddFault.TooManyNodes) ↔ (min most MAX_NODES ≤ length self.old) }
        ensures err { OnErr result (self.new ≡ self.old) }
        ensures list { IsNodeList self.new }
    {
        let place = self.nodes.len();
        if place >= most.min(MAX_NODES) {
            return Err(AddFault::TooManyNodes);
        }
        insert_absent(&mut self.nodes, node)?;
        Ok(FormulaId(place as u32))
    }
}

fn insert_absent(nodes: &mut IndexSet<Node>, node: Node) -> Result<(), AddFault>
    requires { position (node_eq node) nodes.old.keys ≡ None }
    ensures ok { OnOk result (nodes.new.keys ≡ nodes.old.keys ++ node ∷ []) }
    ensures err { OnErr result (nodes.new.keys ≡ nodes.old.keys) }
    ensures memory { IfErr result (λ fault. fault ≡ AddFault.NoMemory) }
{
    match nodes.insert_full(node) {
        Ok(_) => Ok(()),
        Err(_) => Err(AddFault::NoMemory),
    }
}
