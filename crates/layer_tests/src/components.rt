//! Components of small automata, worked by hand.
ghost use Rattle.std.specs.Prelude.{◌<◌, ◌≤◌, IfOk, length};
ghost use Rattle.machine_model.specs.Automaton.{states_of};
ghost use Rattle.machine_model.specs.Components.{AreComponentsOf};

use crate::problems::{ANY, digit, edge};
use machine_model::{Automaton, Components};
use std::test::Fail;

/// For each state how many rejecting states its component counts, and how many those before it do: a digit for each.
fn counts(rt: &HostRuntime, edges: &[(u32, u32)], rejecting: &[bool]) -> Result<Vec<u8>, Fail>
    requires { length rejecting.now ≤ 2000 }
{
    let mut all = Vec::new(rt.alloc());
    for (from, to) in edges {
        all.push(edge(*from, ANY, *to))?;
    }
    let automaton = Automaton::new(all, Vec::from_slice(rt.alloc(), rejecting)?)?;
    let components = Components::of(rt.alloc(), &automaton)?;
    let mut digits = Vec::new(rt.alloc());
    for q in 0..automaton.states() {
        digits.push(digit(components.count(q)))?;
        digits.push(digit(components.before(q)))?;
    }
    Ok(digits)
}

#[test]
fn small_automata_have_components(rt: HostRuntime) -> Result<(), Fail> {
    // A state alone turns by an edge to itself alone.
    let found = counts(&rt, &[(0, 1), (1, 1)], &[true, true])?;
    assert_eq!(rt; found.as_slice(), b"0010".as_slice());

    // States 0, 3 and 1 are a cycle that is left for state 2, from which nothing leads back.
    let edges = [(0, 3), (3, 1), (1, 0), (1, 2), (2, 2)];
    let found = counts(&rt, &edges, &[true, false, true, true])?;
    assert_eq!(rt; found.as_slice(), b"20221425".as_slice());
    Ok(())
}
