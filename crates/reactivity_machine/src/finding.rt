//! A text's winner, and its circuit.

use crate::joining::join_states;
use crate::moves::class_machine;
use aiger_text::Circuit;
use conjunct_monitors::{Budget, Limit, Meter, Order, Stop, Usage};
use conjuncts::{Conjunct, Conjuncts, conjuncts_of};
use game_machine::move_circuit;
use letters_and_lassos::{Kind, Side};
use ltl_formula::{FormulaId, Formulas};
use names_and_numbers::Name;
use reactivity_game::{Played, Players, Strategy, play};
use std::alloc::{AllocError, Global};
use time_limits::Deadline;

/// What is asked: who wins the formula in normal form whose id is `normal`, and with what.
#[derive(Clone, Copy)]
pub struct Question<'a> {
    pub formulas: &'a Formulas,
    pub normal: FormulaId,
    /// The signals by their names, the inputs first. There are at most 64.
    pub inputs: &'a [Name],
    pub outputs: &'a [Name],
    /// The kind of the system's machines; the environment's are of the other kind.
    pub kind: Kind,
}

/// A side that wins, and the circuit of its machine, which is still to be tested. A circuit of the environment has the text's outputs as
/// its inputs, and the text's inputs as its outputs.
#[derive(Drop)]
pub struct Found {
    pub side: Side,
    /// The number of the machine's states.
    pub states: usize,
    pub circuit: Circuit,
    /// The states of the product that was played on.
    pub positions: usize,
    /// How many guarantees the formula has, and how many of them the environment doesn't need, where it wins.
    pub guarantees: usize,
    pub unneeded: usize,
}

/// What comes of a question.
#[derive(Drop)]
pub enum Outcome {
    Found(Found),
    /// Nobody is found to win.
    NoWin(Why),
    /// This side wins, and its machine has too many moves, its circuit too many variables, or it takes too many steps to make.
    NoCircuit(Side),
}

/// Why nobody is found to win.
#[derive(Clone, Copy, Debug, PartialEq, Eq)]
pub enum Why {
    /// The formula isn't one of reactivity(1), or has over 64 signals.
    NoShape,
    /// This limit is passed, of one monitor or of the game, when so much was used.
    Passed(Limit, Usage),
    /// The time is over.
    Time,
}

/// The most signals.
const MOST_SIGNALS: u32 = 64;

/// What the environment doesn't need is looked for in games with at most so many positions.
const MOST_TOLD: usize = 20_000;

/// How often guarantees are left out.
const MOST_TIMES: u32 = 3;

/// Plays a formula's game within a budget, until the time is over. An error says that memory ran out.
pub fn find<D: Deadline>(
    alloc: Global,
    question: Question<'_>,
    budget: Budget,
    deadline: &D,
) -> Result<Outcome, AllocError> {
    match outcome_of(alloc, question, budget, deadline) {
        Ok(outcome) => Ok(outcome),
        Err(Stop::NoMemory) => Err(AllocError),
        Err(Stop::NoShape) => Ok(Outcome::NoWin(Why::NoShape)),
        Err(Stop::Passed(limit, usage)) => Ok(Outcome::NoWin(Why::Passed(limit, usage))),
        Err(Stop::Time) => Ok(Outcome::NoWin(Why::Time)),
    }
}

fn outcome_of<D: Deadline>(
    alloc: Global,
    question: Question<'_>,
    budget: Budget,
    deadline: &D,
) -> Result<Outcome, Stop> {
    let order = question.order();
    if order.levels() > MOST_SIGNALS {
        return Err(Stop::NoShape);
    }
    let conjuncts = conjuncts_of(alloc, question.formulas, question.normal)?;
    let mut contest = Contest {
        conjuncts: &conjuncts,
        order,
        meter: Meter::new(budget),
        budget,
        alloc,
    };
    let won = contest.won(deadline)?;
    contest.outcome(question, won, deadline)
}

/// A game that was won, over some of the guarantees.
#[derive(Drop)]
struct Won {
    played: Played,
    guarantees: usize,
}

/// The games over the conjuncts of a formula.
#[derive(Drop)]
struct Contest<'a> {
    conjuncts: &'a Conjuncts,
    order: Order,
    meter: Meter,
    budget: Budget,
    alloc: Global,
}

impl Question<'_> {
    fn order(&self) -> Order {
        Order {
            inputs: count_of(self.inputs),
            outputs: count_of(self.outputs),
            kind: self.kind,
        }
    }
}

fn count_of(names: &[Name]) -> u32 {
    u32::try_from(names.len()).unwrap_or(u32::MAX)
}

impl Contest<'_> {
    /// The game that is won; where the environment wins, over few guarantees.
    fn won<D: Deadline>(&mut self, deadline: &D) -> Result<Won, Stop> {
        let all = self.conjuncts.guarantees.clone()?;
        let played = self.play(&all, false, deadline)?;
        let mut won = Won {
            guarantees: all.len(),
            played,
        };
        if won.played.strategy.side == Side::System || won.played.positions > MOST_TOLD {
            return Ok(won);
        }
        let mut kept = all;
        for _ in 0..MOST_TIMES {
            let Some(told) = self.told(&kept, deadline)? else {
                break;
            };
            let needed = needed_of(self.alloc, &kept, &told.needed)?;
            let is_last = needed.len() == kept.len();
            won = Won {
                played: told,
                guarantees: kept.len(),
            };
            if is_last {
                break;
            }
            kept = needed;
        }
        Ok(won)
    }

    /// The game of the environment over some guarantees that tells which of them it needs; None where it isn't won within the budget.
    fn told<D: Deadline>(
        &mut self,
        guarantees: &[Conjunct],
        deadline: &D,
    ) -> Result<Option<Played>, Stop> {
        let used = self.meter.used();
        self.meter = Meter::new(Budget {
            steps: self.budget.steps.saturating_sub(used.steps),
            ..self.budget
        });
        self.budget.steps = self.budget.steps.saturating_sub(used.steps);
        match self.play(guarantees, true, deadline) {
            Ok(played) if played.strategy.side == Side::Environment => Ok(Some(played)),
            Ok(_) | Err(Stop::NoShape | Stop::Passed(_, _) | Stop::Time) => Ok(None),
            Err(Stop::NoMemory) => Err(Stop::NoMemory),
        }
    }

    fn play<D: Deadline>(
        &mut self,
        guarantees: &[Conjunct],
        is_told: bool,
        deadline: &D,
    ) -> Result<Played, Stop> {
        let players = Players {
            forms: &self.conjuncts.forms,
            assumptions: &self.conjuncts.assumptions,
            guarantees,
            order: self.order,
            is_told,
            most_kept: self.budget.bytes / 4,
        };
        play(self.alloc, players, &mut self.meter, deadline)
    }

    /// The circuit of a game that is won.
    fn outcome<D: Deadline>(
        &mut self,
        question: Question<'_>,
        won: Won,
        deadline: &D,
    ) -> Result<Outcome, Stop> {
        let strategy: &Strategy = &won.played.strategy;
        let side = strategy.side;
        let mut meter = Meter::new(self.budget);
        let joined = join_states(self.alloc, strategy, &mut meter, deadline)?;
        let Some(machine) = class_machine(self.alloc, &joined, self.order, side, &mut meter)? else {
            return Ok(Outcome::NoCircuit(side));
        };
        let circuit = move_circuit(self.alloc, &machine, question.inputs, question.outputs)?;
        let all = self.conjuncts.guarantees.len();
        match circuit {
            Some(circuit) => Ok(Outcome::Found(Found {
                side,
                states: machine.states.len(),
                circuit,
                positions: won.played.positions,
                guarantees: all,
                unneeded: all.saturating_sub(won.guarantees),
            })),
            None => Ok(Outcome::NoCircuit(side)),
        }
    }
}

/// Those guarantees that are needed.
fn needed_of(
    alloc: Global,
    guarantees: &[Conjunct],
    needed: &[bool],
) -> Result<Vec<Conjunct>, AllocError> {
    let mut kept = Vec::new(alloc);
    for (guarantee, is_needed) in guarantees.iter().zip(needed) {
        if *is_needed {
            kept.push(*guarantee)?;
        }
    }
    Ok(kept)
}
