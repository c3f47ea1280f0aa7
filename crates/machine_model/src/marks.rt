ghost use Rattle.std.specs.Prelude.{◌≡◌, ℕ, ◌<◌, false, IfOk, length};
ghost use Rattle.std.specs.Bool.{OnFalse, OnTrue};
ghost use Rattle.machine_model.specs.Automaton.{states_of};
ghost use Rattle.machine_model.specs.Marked.{AreLedTo, IsLeft, IsNewlyMarked, IsPass, is_marked, source_of, target_of};

use crate::automata::{Automaton, Edge};
use std::alloc::{AllocError, Global};

/// Along edges, or against them.
#[derive(Clone, Copy)]
pub(crate) enum Way {
    Ahead,
    Behind,
}

impl Way {
    /// The end of the edge that one leaves.
    fn source(self, edge: Edge) -> u32
        ensures { result ≡ source_of self edge }
    {
        match self {
            Way::Ahead => edge.from,
            Way::Behind => edge.to,
        }
    }

    /// The end that one comes to.
    fn target(self, edge: Edge) -> u32
        ensures { result ≡ target_of self edge }
    {
        match self {
            Way::Ahead => edge.to,
            Way::Behind => edge.from,
        }
    }
}

/// Marks the states that edges lead to from state `q`, this way.
///
/// Takes as many steps as there are edges for each pass, until one marks nothing more.
pub(crate) fn led_to(
    alloc: Global,
    automaton: &Automaton,
    way: Way,
    q: u32,
) -> Result<Vec<bool>, AllocError>
    requires { q < states_of automaton.now }
    ensures { IfOk result (λ marks. AreLedTo automaton.now way q marks.items) }
{
    let mut marks = vec![in alloc; false; automaton.states() as usize]?;
    mark_all(automaton, way, q, &mut marks);
    Ok(marks)
}

/// Marks state `q`, and each state that edges lead to from it, where none is marked yet.
fn mark_all(automaton: &Automaton, way: Way, q: u32, marks: &mut [bool])
    requires state { q < states_of automaton.now }
    requires places { length marks.old ≡ states_of automaton.now }
    requires none { (r : ℕ) → is_marked marks.old r ≡ false }
    ensures { AreLedTo automaton.now way q marks.new }
{
    let _states = automaton.states();
    marks[q as usize] = true;
    'pass: while mark_more(automaton, way, marks) {}
}

/// Marks each state that an edge leads to from a marked one, and says whether there was one that wasn't marked.
///
/// Edges mostly lead from states that were found earlier to later ones, and stand in this order. So they are taken from the first
/// on along them, and from the last on against them: then one pass marks most of a path.
fn mark_more(automaton: &Automaton, way: Way, marks: &mut [bool]) -> bool
    requires { length marks.old ≡ states_of automaton.now }
    ensures { IsPass way automaton.now.edges marks.old marks.new result }
{
    match way {
        Way::Ahead => mark_from_first(automaton, way, marks),
        Way::Behind => mark_from_last(automaton, way, marks),
    }
}

fn mark_from_first(automaton: &Automaton, way: Way, marks: &mut [bool]) -> bool
    requires { length marks.old ≡ states_of automaton.now }
    ensures { IsPass way automaton.now.edges marks.old marks.new result }
{
    let mut grows = false;
    for edge in automaton.edges() {
        if mark_target(way, *edge, marks) {
            grows = true;
        }
    }
    grows
}

fn mark_from_last(automaton: &Automaton, way: Way, marks: &mut [bool]) -> bool
    requires { length marks.old ≡ states_of automaton.now }
    ensures { IsPass way automaton.now.edges marks.old marks.new result }
{
    let edges = automaton.edges();
    let mut grows = false;
    for place in (0..edges.len()).rev() {
        if mark_target(way, edges[place], marks) {
            grows = true;
        }
    }
    grows
}

/// Marks the end that one comes to along a marked edge, and says whether it wasn't marked.
fn mark_target(way: Way, edge: Edge, marks: &mut [bool]) -> bool
    requires source { source_of way edge < length marks.old }
    requires target { target_of way edge < length marks.old }
    ensures marked { OnTrue result (IsNewlyMarked way edge marks.old marks.new) }
    ensures left { OnFalse result (IsLeft way edge marks.old marks.new) }
{
    let target = way.target(edge) as usize;
    if marks[target] || !marks[way.source(edge) as usize] {
        return false;
    }
    marks[target] = true;
    true
}
