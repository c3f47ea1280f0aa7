//! Problems and machines that are drawn.
ghost use Rattle.std.specs.Prelude.{◌<◌, ◌≤◌, length};

use anyhow::bail;
use letters_and_lassos::{Cube, Kind, Side};
use machine_model::{Automaton, Counting, Edge, Machine, Problem, Row};
use product_bound::laws::numbered;
use rand_core::utils::NextWord;
use rand_pcg::Pcg32;
use std::alloc::Global;
use std::sync::Arc;

const ANY: Cube = Cube { must: 0, not: 0 };

/// The signal is wanted, forbidden, or in half of all cubes free.
fn random_signal(random: &mut Pcg32, signal: u64) -> Cube {
    match random.next_word() % 4 {
        0 => Cube {
            must: signal,
            not: 0,
        },
        1 => Cube {
            must: 0,
            not: signal,
        },
        _ => ANY,
    }
}

fn random_cube(random: &mut Pcg32) -> Cube {
    let first = random_signal(random, 1);
    let second = random_signal(random, 2);
    first.meet(second).unwrap_or(ANY)
}

fn is_drawn(random: &mut Pcg32) -> bool {
    random.next_word() % 2 == 1
}

/// A problem of one input and one output, over an automaton of at most four states.
pub(crate) fn random_problem(
    alloc: Global,
    random: &mut Pcg32,
    size: u32,
) -> anyhow::Result<Problem> {
    let states = 1 + random.next_word() % 4;
    let mut edges = Vec::new(alloc);
    for _ in 0..random.next_word() % 10 {
        let from = random.next_word() % states;
        let to = random.next_word() % states;
        edges.push(Edge {
            from,
            cube: random_cube(random),
            to,
        })?;
    }
    let rejecting = [
        is_drawn(random),
        is_drawn(random),
        is_drawn(random),
        is_drawn(random),
    ];
    let is_system = is_drawn(random);
    let is_mealy = is_drawn(random);
    Ok(Problem {
        automaton: automaton(alloc, &edges, &rejecting[..states as usize])?,
        inputs: 1,
        outputs: 1,
        side: if is_system {
            Side::System
        } else {
            Side::Environment
        },
        kind: if is_mealy { Kind::Mealy } else { Kind::Moore },
        size,
        counting: Counting::AllRejecting { numbered: true },
    })
}

/// A state's rows.
fn random_rows(random: &mut Pcg32, kind: Kind, size: u32) -> [Row; 2] {
    let first = random.next_word() % 2;
    let second = match kind {
        Kind::Mealy => random.next_word() % 2,
        Kind::Moore => first,
    };
    [first, second].map(|writes| Row {
        next: random.next_word() % size.max(1),
        writes,
    })
}

/// A machine of this kind whose states are numbered.
pub(crate) fn random_machine(
    alloc: Global,
    random: &mut Pcg32,
    kind: Kind,
    size: u32,
) -> anyhow::Result<Machine>
    requires { size ≤ 2 }
{
    let first = random_rows(random, kind, size);
    let second = random_rows(random, kind, size);
    let rows = [first[0], first[1], second[0], second[1]];
    let table = Vec::from_slice(alloc, &rows[..2 * size as usize])?;
    let Ok(machine) = Machine::new(kind, 1, 1, table) else {
        bail!("no machine")
    };
    Ok(numbered(alloc, &machine)?)
}

fn automaton(alloc: Global, edges: &[Edge], rejecting: &[bool]) -> anyhow::Result<Arc<Automaton>>
    requires { length rejecting.now < 9 }
{
    let edges = Vec::from_slice(alloc, edges)?;
    let Ok(automaton) = Automaton::new(edges, Vec::from_slice(alloc, rejecting)?) else {
        bail!("no automaton")
    };
    Ok(Arc::new(alloc, automaton)?)
}
