//! A circuit of a side that wins, with its annotation. Nothing is said of what is found: it is tested.
ghost use Rattle.std.specs.Prelude.{◌≡◌};
ghost use Rattle.ltl_formula.specs.Nodes.{IsNodeIn, tree_at};
ghost use Rattle.ltl_formula.specs.NormalForm.{IsNormal};
ghost use Rattle.solve_answer.specs.Parts.{CanBePlayed, form_for};

use crate::conjunct_game::{ByConjuncts, by_conjuncts};
use crate::reducing::made_small;
use crate::told::{limit_of, neither, not_won, nothing};
use aiger_text::Circuit;
use annotation_maker::{Made, Maker, Stop, annotation_of, count_states};
use cobuchi_build::{BuildFault, build};
use game_machine::{Budget, Contest, Found, Outcome, find};
use letters_and_lassos::Side;
use ltl_formula::{FormulaId, Formulas};
use machine_model::Automaton;
use obligation_sets::Covering;
use outcome_news::{ConjunctEnd, Engine, NotWon, RefutingEnd, Unsolved, Withheld};
use solve_ground::SolveText;
use std::alloc::{AllocError, Global};
use std::thread::Threads;
use text_limits::LARGE_LIMITS;
use time_limits::Deadline;

/// The steps that the system may take before the environment's automaton is made.
const FIRST_STEPS: u64 = 1_000_000;

/// The most states that a document tells of.
const MOST_STATES: usize = 65_536;

/// The most inputs of a circuit whose states are counted.
const MOST_INPUTS: usize = 16;

/// The most steps that are taken to count a circuit's states.
const MOST_STEPS: usize = 1 << 26;

/// A circuit of a side, how many states it reaches, and the lines of its annotation.
#[derive(Drop)]
pub(crate) struct Strategy {
    pub(crate) side: Side,
    pub(crate) states: u32,
    pub(crate) circuit: Circuit,
    pub(crate) annotation: Vec<u8>,
}

/// A strategy with the engine that found it, or why there is none, by the games of whole automata and by the game of conjuncts.
#[derive(Drop)]
pub(crate) enum Search {
    Of(Strategy, Engine),
    Without(Unsolved, ConjunctEnd),
}

/// The strategy of the side that wins within the budget, made small, or why there is none. Where the games of whole automata give nothing to
/// print, the conjuncts' game is played. Two workers play both sides at once.
pub(crate) fn find_strategy<R: Threads, D: Deadline + Sync>(
    rt: &R,
    alloc: Global,
    text: &SolveText,
    budget: Budget,
    workers: u32,
    deadline: &D,
) -> Result<Search, AllocError>
    requires { CanBePlayed text.now }
{
    match by_games(rt, alloc, text, budget, workers, deadline)? {
        ByGames::Of(strategy) => Ok(Search::Of(strategy, Engine::WholeGames)),
        ByGames::Without(why) => match by_conjuncts(alloc, text, deadline) {
            ByConjuncts::Of(strategy) => Ok(Search::Of(strategy, Engine::ConjunctGame)),
            ByConjuncts::Without(end) => Ok(Search::Without(why, end)),
        },
    }
}

/// A strategy by the games of whole automata, or why there is none.
#[derive(Drop)]
enum ByGames {
    Of(Strategy),
    Without(Unsolved),
}

/// The games of whole automata. The system plays alone at first, since where it wins soon the environment's automaton isn't needed.
fn by_games<R: Threads, D: Deadline + Sync>(
    rt: &R,
    alloc: Global,
    text: &SolveText,
    budget: Budget,
    workers: u32,
    deadline: &D,
) -> Result<ByGames, AllocError>
    requires { CanBePlayed text.now }
{
    let system = automaton(alloc, &text.formulas, text.negated)?;
    let system = system.as_ref();
    let first = Budget {
        steps: FIRST_STEPS.min(budget.steps),
        ..budget
    };
    if let Winner::Of(found) = played(rt, alloc, text, system, None, first, workers, deadline) {
        return strategy_in(alloc, text, found, deadline);
    }
    if deadline.is_over() {
        return Ok(ByGames::Without(unplayed(system)));
    }
    let environment = automaton(alloc, &text.formulas, text.normal)?;
    let environment = environment.as_ref();
    match played(
        rt,
        alloc,
        text,
        system,
        environment,
        budget,
        workers,
        deadline,
    ) {
        Winner::Of(found) => strategy_in(alloc, text, found, deadline),
        Winner::Without(why) => Ok(ByGames::Without(why)),
    }
}

/// Who wins with what, or why nobody does.
#[derive(Drop)]
enum Winner {
    Of(Found),
    Without(Unsolved),
}

/// The strategy of a win, made small.
fn strategy_in<D: Deadline>(
    alloc: Global,
    text: &SolveText,
    found: Found,
    deadline: &D,
) -> Result<ByGames, AllocError> {
    match annotated(alloc, text, found.side, found.circuit, deadline)? {
        Printable::Of(strategy) => Ok(ByGames::Of(made_small(alloc, text, strategy, deadline))),
        Printable::Withheld(side, why) => Ok(ByGames::Without(Unsolved::Withheld(side, why))),
    }
}

/// Who wins the games of these automata. Where memory runs out in the games, neither side does.
fn played<R: Threads, D: Deadline + Sync>(
    rt: &R,
    alloc: Global,
    text: &SolveText,
    system: Option<&Automaton>,
    environment: Option<&Automaton>,
    budget: Budget,
    workers: u32,
    deadline: &D,
) -> Winner {
    let contest = Contest {
        inputs: &text.inputs,
        outputs: &text.outputs,
        kind: text.kind,
        system,
        environment,
    };
    match find(rt, alloc, contest, budget, workers, deadline) {
        Ok(Outcome::Found(found)) => Winner::Of(found),
        Ok(Outcome::NoWin(end)) => Winner::Without(unwon(system, environment, not_won(end))),
        Ok(Outcome::NoCircuit(side)) => {
            let why = if deadline.is_over() {
                Withheld::Time
            } else {
                Withheld::CircuitTooLarge
            };
            Winner::Without(Unsolved::Withheld(side, why))
        }
        Err(_) => Winner::Without(unwon(system, environment, NotWon::NoMemory)),
    }
}

/// That neither side wins, for this reason, or since it has no automaton.
fn unwon(system: Option<&Automaton>, environment: Option<&Automaton>, why: NotWon) -> Unsolved {
    let none = nothing(RefutingEnd::Done);
    let environment = unless_absent(environment, why);
    neither(unless_absent(system, why), none, environment, none)
}

/// That neither side wins, since the time was over before the environment's automaton was made.
fn unplayed(system: Option<&Automaton>) -> Unsolved {
    let none = nothing(RefutingEnd::Done);
    neither(
        unless_absent(system, NotWon::Time),
        none,
        NotWon::Time,
        none,
    )
}

fn unless_absent(automaton: Option<&Automaton>, why: NotWon) -> NotWon {
    match automaton {
        Some(_) => why,
        None => NotWon::AutomatonTooLarge,
    }
}

/// The reduced automaton of what a side keeps from being true. None where it passes a limit.
fn automaton(
    alloc: Global,
    formulas: &Formulas,
    form: FormulaId,
) -> Result<Option<Automaton>, AllocError>
    requires stands { IsNodeIn formulas.now form }
    requires normal { IsNormal (tree_at formulas.now form) }
{
    match build(
        alloc,
        formulas,
        form,
        Covering::Reduced,
        LARGE_LIMITS.automaton,
    ) {
        Ok(automaton) => Ok(Some(automaton)),
        Err(BuildFault::TooLarge) => Ok(None),
        Err(BuildFault::TooManyNodes) => Ok(None),
        Err(BuildFault::NoMemory) => Err(AllocError),
    }
}

/// A strategy, or why what a side wins with isn't printed.
#[derive(Drop)]
pub(crate) enum Printable {
    Of(Strategy),
    Withheld(Side, Withheld),
}

/// A circuit of a side with its annotation and the number of its states.
pub(crate) fn annotated<D: Deadline>(
    alloc: Global,
    text: &SolveText,
    side: Side,
    circuit: Circuit,
    deadline: &D,
) -> Result<Printable, AllocError> {
    if circuit.inputs.len() > MOST_INPUTS {
        return Ok(Printable::Withheld(side, Withheld::TooManyStates));
    }
    match annotation_of(alloc, maker(text, side, &circuit), deadline)? {
        Made::Lines(annotation) => counted(alloc, side, circuit, annotation, deadline),
        Made::LetsThrough => Ok(Printable::Withheld(side, Withheld::Loses)),
        Made::TooLarge(limit) => {
            let why = Withheld::AnnotationTooLarge(limit_of(limit));
            Ok(Printable::Withheld(side, why))
        }
        Made::NoTime => Ok(Printable::Withheld(side, Withheld::Time)),
    }
}

/// The strategy of an annotated circuit, where it reaches as many states as a document may tell of.
fn counted<D: Deadline>(
    alloc: Global,
    side: Side,
    circuit: Circuit,
    annotation: Vec<u8>,
    deadline: &D,
) -> Result<Printable, AllocError> {
    match states_of(alloc, &circuit, deadline) {
        Ok(states) => Ok(Printable::Of(Strategy {
            side,
            states,
            circuit,
            annotation,
        })),
        Err(Uncounted::TooMany) => Ok(Printable::Withheld(side, Withheld::TooManyStates)),
        Err(Uncounted::Time) => Ok(Printable::Withheld(side, Withheld::Time)),
        Err(Uncounted::NoMemory) => Err(AllocError),
    }
}

/// Why the states of a circuit aren't counted.
#[derive(Clone, Copy)]
enum Uncounted {
    TooMany,
    Time,
    NoMemory,
}

/// How many states a circuit reaches, where a document may tell so many of it.
fn states_of<D: Deadline>(
    alloc: Global,
    circuit: &Circuit,
    deadline: &D,
) -> Result<u32, Uncounted> {
    let inputs = circuit.inputs.len().min(MOST_INPUTS);
    let most = MOST_STATES.min(MOST_STEPS >> inputs);
    match count_states(alloc, circuit, most, deadline) {
        Ok(Some(states)) => Ok(u32::try_from(states).unwrap_or(u32::MAX)),
        Ok(None) | Err(Stop::Passed(_)) => Err(Uncounted::TooMany),
        Err(Stop::Time) => Err(Uncounted::Time),
        Err(Stop::NoMemory) => Err(Uncounted::NoMemory),
    }
}

/// What an annotation of a side's circuit is of.
pub(crate) fn maker<'a>(text: &'a SolveText, side: Side, circuit: &'a Circuit) -> Maker<'a> {
    Maker {
        circuit,
        side,
        formulas: &text.formulas,
        form: form_of(text, side),
    }
}

/// What a side keeps from being true.
pub(crate) fn form_of(text: &SolveText, side: Side) -> FormulaId
    ensures { result ≡ form_for text.now side }
{
    match side {
        Side::System => text.negated,
        Side::Environment => text.normal,
    }
}
