use std::marker::Model;

/// How many bits the rank of a part has at most.
pub const MAX_RANK_BITS: usize = 64;

/// How many bits the index of a part has at most.
pub const MAX_INDEX_BITS: usize = 14;

/// What a gate of a witness is the conjunction of: two literals.
#[derive(Clone, Copy, Debug, PartialEq, Eq)]
pub struct Operands {
    pub left: u32,
    pub right: u32,
}

/// One way in which the formula may come true, by literals; of `rank` and `index` the greatest bit stands first.
#[derive(Debug, Drop)]
pub struct Part {
    /// Holds where the formula comes true at position 0 in this way.
    pub start: u32,
    /// Holds from then on.
    pub inv: u32,
    /// The number that falls at each step, or stays while an until is awaited.
    pub rank: Vec<u32>,
    /// The number of the until that is awaited.
    pub index: Vec<u32>,
}

impl Model for Part {
    ghost use Rattle.truth_witness.specs.Witness as meant;

    ghost Value = { meant.Part };

    ghost view = { λ p. record { start = p.start; inv = p.inv; rank = p.rank.items; index = p.index.items } };
}

/// That a formula is true on no run lasso of a circuit, by literals of the circuit, of the truth of the formula's parts and of its own.
#[derive(Debug, Drop)]
pub struct Witness {
    /// The literal of each latch's next value. A latch is false at first.
    pub latches: Vec<u32>,
    /// Each gate's operands come before it.
    pub gates: Vec<Operands>,
    /// Holds at each position where the formula is true at the start.
    pub always: u32,
    pub parts: Vec<Part>,
}

impl Model for Witness {
    ghost use Rattle.truth_witness.specs.Witness as meant;

    ghost Value = { meant.Witness };

    ghost view = { λ w. record { latches = w.latches.items; gates = w.gates.items; always = w.always; parts = w.parts.items } };
}

/// What a witness owes: lists of clauses of which each has to be refuted. A part is named by its place, from 0.
#[derive(Clone, Copy, Debug, PartialEq, Eq)]
pub enum Obligation {
    /// At the start `always` holds.
    Base,
    /// Where `always` holds it holds at the next position.
    Keep,
    /// At the start the formula comes true in the way of a part.
    Cover,
    /// Where it does so in the part's way, the part's invariant holds.
    Enter(usize),
    /// Where the invariant holds it holds at the next position.
    Stay(usize),
    /// The part's rank falls, or it stays while an until is awaited.
    Fall(usize),
}
