//! The sizes of a side, or of both, where the games give nothing to print.
ghost use Rattle.solve_answer.specs.Parts.{CanBePlayed};

use crate::deadlines::Deadlines;
use crate::discoveries::{Discovery, Found};
use crate::refuting::{Refuting, ground_of, refuted};
use crate::shrinking::smaller_strategy;
use crate::told::{neither, nothing, refuting_end, so_many};
use input_output::Gate;
use letter_search::{Ended, Refutations, Sizes};
use letters_and_lassos::Side;
use outcome_news::{ConjunctEnd, NotWon, Refuted, RefutingEnd, Unsolved};
use solve_ground::SolveText;
use std::alloc::{AllocError, Global};
use std::sync::Wait;
use std::thread::Threads;
use time_limits::Deadline;

/// What came of both sides' sizes.
#[derive(Drop)]
struct Both {
    system: Refutations,
    environment: Refutations,
}

/// Greater than each size that is tried.
const NO_SIZE: u32 = 17;

/// Searches sizes where the games give nothing to print: those of both sides by turns, or those of the side that wins.
pub(crate) fn search_sizes<R: Threads + Wait + Sync, G: Gate + Sync, D: Deadline + Sync>(
    rt: &R,
    alloc: Global,
    text: &SolveText,
    why: Unsolved,
    conjuncts: ConjunctEnd,
    refuting: Refuting,
    gate: &G,
    deadlines: &Deadlines<'_, '_, D>,
) -> Result<Found, AllocError>
    requires { CanBePlayed text.now }
{
    let searched = match why {
        Unsolved::Neither(system, environment) => {
            let (system, environment) = (system.why, environment.why);
            of_both(
                rt,
                alloc,
                text,
                system,
                environment,
                refuting,
                gate,
                deadlines,
            )?
        }
        Unsolved::Withheld(side, _) => {
            match of_winner(rt, alloc, text, side, refuting, gate, deadlines)? {
                Some(discovery) => Searched::Of(discovery),
                None => Searched::Without(why),
            }
        }
    };
    match searched {
        Searched::Of(discovery) => Ok(Found::Of(discovery)),
        Searched::Without(why) => Ok(Found::Without(why, conjuncts)),
    }
}

/// What came of sizes.
#[derive(Drop)]
enum Searched {
    Of(Discovery),
    Without(Unsolved),
}

/// The sizes of the side that wins, whose circuit isn't printed. An error says that memory ran out and nothing was found.
fn of_winner<R: Threads + Wait + Sync, G: Gate + Sync, D: Deadline + Sync>(
    rt: &R,
    alloc: Global,
    text: &SolveText,
    side: Side,
    refuting: Refuting,
    gate: &G,
    deadlines: &Deadlines<'_, '_, D>,
) -> Result<Option<Discovery>, AllocError>
    requires { CanBePlayed text.now }
{
    let found = refuted(
        rt,
        alloc,
        text,
        side,
        NO_SIZE,
        refuting,
        gate,
        deadlines.sizes,
    )?;
    if let Ended::NoMemory(_) = found.ended {
        return Err(AllocError);
    }
    match smaller_strategy(alloc, text, side, &found.ended, deadlines.all)? {
        Some(strategy) => Ok(Some(Discovery::least(strategy, found))),
        None => Ok(None),
    }
}

/// The sizes of both sides, neither of which wins.
fn of_both<R: Threads + Wait + Sync, G: Gate + Sync, D: Deadline + Sync>(
    rt: &R,
    alloc: Global,
    text: &SolveText,
    system: NotWon,
    environment: NotWon,
    refuting: Refuting,
    gate: &G,
    deadlines: &Deadlines<'_, '_, D>,
) -> Result<Searched, AllocError>
    requires { CanBePlayed text.now }
{
    if deadlines.sizes.is_over() {
        let none = nothing(RefutingEnd::Time);
        return Ok(Searched::Without(neither(system, none, environment, none)));
    }
    let both = tried(rt, alloc, text, refuting, gate, deadlines.sizes)?;
    let first = refuted_in(&both.system);
    let second = refuted_in(&both.environment);
    let by_system = smaller_strategy(alloc, text, Side::System, &both.system.ended, deadlines.all)?;
    if let Some(strategy) = by_system {
        return Ok(Searched::Of(Discovery::least(strategy, both.system)));
    }
    let ended = &both.environment.ended;
    let by_other = smaller_strategy(alloc, text, Side::Environment, ended, deadlines.all)?;
    if let Some(strategy) = by_other {
        return Ok(Searched::Of(Discovery::least(strategy, both.environment)));
    }
    Ok(Searched::Without(neither(system, first, environment, second)))
}

fn refuted_in(found: &Refutations) -> Refuted {
    so_many(found.logs.len(), refuting_end(&found.ended))
}

/// Tries the sizes of both sides by turns, the one with the smaller formula first, until one has a machine.
fn tried<R: Threads + Wait + Sync, G: Gate + Sync, D: Deadline + Sync>(
    rt: &R,
    alloc: Global,
    text: &SolveText,
    refuting: Refuting,
    gate: &G,
    deadline: &D,
) -> Result<Both, AllocError>
    requires { CanBePlayed text.now }
{
    let of_system = ground_of(alloc, text, Side::System)?;
    let of_environment = ground_of(alloc, text, Side::Environment)?;
    let mut system = Sizes::new(alloc, &of_system, NO_SIZE, refuting.effort());
    let mut environment = Sizes::new(alloc, &of_environment, NO_SIZE, refuting.effort());
    for _ in 0..NO_SIZE {
        if is_decided(rt, gate, deadline, &mut system, &mut environment) {
            break;
        }
    }
    Ok(Both {
        system: system.into_refutations(),
        environment: environment.into_refutations(),
    })
}

/// Tries the next size of each side, and says whether one has a machine, or none is left.
fn is_decided<R: Threads + Wait + Sync, G: Gate + Sync, D: Deadline + Sync>(
    rt: &R,
    gate: &G,
    deadline: &D,
    system: &mut Sizes<'_, '_>,
    environment: &mut Sizes<'_, '_>,
) -> bool {
    if system.next_clauses() <= environment.next_clauses() {
        step_both(rt, gate, deadline, system, environment)
    } else {
        step_both(rt, gate, deadline, environment, system)
    }
}

fn step_both<R: Threads + Wait + Sync, G: Gate + Sync, D: Deadline + Sync>(
    rt: &R,
    gate: &G,
    deadline: &D,
    first: &mut Sizes<'_, '_>,
    second: &mut Sizes<'_, '_>,
) -> bool {
    first.step(rt, gate, deadline);
    if first.has_found() {
        return true;
    }
    second.step(rt, gate, deadline);
    second.has_found() || (first.is_ended() && second.is_ended())
}
