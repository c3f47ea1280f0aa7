//! An automaton as numbers go along its edges.
ghost use Rattle.machine_model.specs.Components.{AreComponentsOf};

use letters_and_lassos::Cube;
use machine_model::{Automaton, Components};
use std::alloc::{AllocError, Global};

/// An edge, and what becomes of a number along it.
#[derive(Clone, Copy)]
pub(crate) struct Track {
    pub(crate) from: u32,
    pub(crate) to: u32,
    pub(crate) cube: Cube,
    /// It leaves its component, so that numbers begin anew.
    leaves: bool,
    /// 1 where it leads into a rejecting state.
    rise: u32,
}

impl Track {
    /// The least number behind the edge, of this number before it.
    pub(crate) fn number_after(&self, number: u32) -> u32 {
        if self.leaves {
            0
        } else {
            number.saturating_add(self.rise)
        }
    }
}

/// The edges of an automaton, and for each state how many rejecting states are counted in it, and in all states before it.
#[derive(Drop)]
pub(crate) struct Tracks {
    pub(crate) edges: Vec<Track>,
    pub(crate) counts: Vec<u32>,
    pub(crate) before: Vec<u32>,
}

impl Tracks {
    /// Those of an automaton with these components.
    pub(crate) fn of(
        alloc: Global,
        automaton: &Automaton,
        components: &Components,
    ) -> Result<Tracks, AllocError>
        requires { AreComponentsOf automaton.now components.now }
    {
        let mut edges = Vec::new(alloc);
        for edge in automaton.edges() {
            edges.push(Track {
                from: edge.from,
                to: edge.to,
                cube: edge.cube,
                leaves: !components.are_joined(edge.from, edge.to),
                rise: u32::from(automaton.is_rejecting(edge.to)),
            })?;
        }
        let mut counts = Vec::new(alloc);
        let mut before = Vec::new(alloc);
        for q in 0..automaton.states() {
            counts.push(components.count(q))?;
            before.push(components.before(q))?;
        }
        Ok(Tracks {
            edges,
            counts,
            before,
        })
    }

    /// The number of states.
    pub(crate) fn states(&self) -> usize {
        self.counts.len()
    }
}
