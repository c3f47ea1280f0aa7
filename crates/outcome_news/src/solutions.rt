//! What `solve` tells of the sizes that it refutes, and of why it prints no strategy.

use crate::remarks::Remarks;
use letters_and_lassos::Side;

/// What `solve` prints a circuit of.
#[derive(Clone, Copy, Debug, PartialEq, Eq)]
pub struct Solution {
    pub side: Side,
    /// How many states the circuit reaches.
    pub states: u32,
    pub latches: u32,
    pub gates: u32,
    pub engine: Engine,
    /// The smaller sizes that are refuted.
    pub refuted: Refuted,
    /// What is said of the machine of the system's side.
    pub remarks: Remarks,
}

/// What found a strategy.
#[derive(Clone, Copy, Debug, PartialEq, Eq)]
pub enum Engine {
    /// The games of the automata of the whole text.
    WholeGames,
    /// The game of the text's conjuncts.
    ConjunctGame,
    /// The search of machines by their size.
    SizeSearch,
}

/// Why the game of conjuncts gives nothing to print.
#[derive(Clone, Copy, Debug, PartialEq, Eq)]
pub enum ConjunctEnd {
    /// It wasn't played: the time of the text was over.
    Unplayed,
    /// The text has no shape that it takes.
    NoShape,
    /// This limit is passed.
    Passed(ConjunctLimit),
    /// This side wins, and what it wins with isn't printed.
    Withheld(Side, Withheld),
    /// Memory ran out.
    NoMemory,
    /// The time of the text was over.
    Time,
}

/// What limits the game of conjuncts.
#[derive(Clone, Copy, Debug, PartialEq, Eq)]
pub enum ConjunctLimit {
    Steps,
    Positions,
    Edges,
    Bytes,
    /// The obligations or alternatives of a monitor's state, or a monitor's states.
    Monitor,
    /// Conjuncts, their forms, or those that ask for something good.
    Conjuncts,
    /// The states of a strategy.
    Strategy,
}

/// Why `solve` prints no strategy.
#[derive(Clone, Copy, Debug, PartialEq, Eq)]
pub enum Unsolved {
    /// Neither side wins: why not, of the system and of the environment.
    Neither(Unwon, Unwon),
    /// This side wins, and what it wins with isn't printed.
    Withheld(Side, Withheld),
}

/// Which sizes of a side are refuted, and why no further one.
#[derive(Clone, Copy, Debug, PartialEq, Eq)]
pub struct Refuted {
    /// The sizes from 1 to this one.
    pub sizes: u32,
    pub end: RefutingEnd,
}

/// Why no further size is refuted. The size that isn't is the one behind the refuted ones.
#[derive(Clone, Copy, Debug, PartialEq, Eq)]
pub enum RefutingEnd {
    /// Nothing more was asked: all sizes below the known machine's, or up to the greatest that is to be tried, are refuted.
    Done,
    /// Its log has as many entries as it may have.
    Full,
    /// Its base clauses, or those over the next list of letters, are too many; or its side's automaton passes a limit.
    TooLarge,
    /// There is a machine of this size, and no circuit of it was made that passes the test.
    NotMade,
    /// Memory ran out.
    NoMemory,
    /// The time of the text is over.
    Time,
    /// The logs fail at this line of the document: a fault of who makes them. It is printed without them.
    BadLine(u64),
}

/// Why a side doesn't win, and how far its sizes were tried.
#[derive(Clone, Copy, Debug, PartialEq, Eq)]
pub struct Unwon {
    pub why: NotWon,
    pub refuted: Refuted,
}

/// Why a side doesn't win.
#[derive(Clone, Copy, Debug, PartialEq, Eq)]
pub enum NotWon {
    /// Its automaton passes its limit, so that it doesn't play.
    AutomatonTooLarge,
    /// Nobody wins, and the games end so.
    Ended(End),
    /// Memory runs out in the games.
    NoMemory,
    /// The time of the text is over.
    Time,
}

/// How games end that nobody wins.
#[derive(Clone, Copy, Debug, PartialEq, Eq)]
pub enum End {
    /// No game is left that could be won: each is lost, or has no room for its positions.
    Over,
    /// The budget's steps are used up.
    Steps,
}

/// Why the circuit of a side that wins isn't printed.
#[derive(Clone, Copy, Debug, PartialEq, Eq)]
pub enum Withheld {
    /// Its machine has over 1,000,000 moves, it has over 100,000 variables, or it takes too long to make.
    CircuitTooLarge,
    /// It reaches over 65,536 states, or so many that their number times that of the letters that are read is over 2^26.
    TooManyStates,
    /// Its annotation passes this limit.
    AnnotationTooLarge(Limit),
    /// Its side loses on some run: a fault of the games.
    Loses,
    /// The time of the text was over before it was tested.
    Time,
    /// This line of its document fails: a fault of who makes it.
    BadLine(u64),
}

/// What limits an annotation.
#[derive(Clone, Copy, Debug, PartialEq, Eq)]
pub enum Limit {
    /// At most 1,000,000 pairs of latch values and states.
    Pairs,
    /// At most 20,000 states.
    States,
    /// At most 2^26 steps of the circuit: one for each pair and each letter that is read. There are at most 16 inputs.
    Steps,
    /// At most 100,000 leaves of a state's set.
    Leaves,
}
