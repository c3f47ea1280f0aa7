//! The automata of both sides.
use crate::formula_texts::formula;
use letters_and_lassos::Cube;
use ltl_formula::Formulas;
use machine_model::{Automaton, Edge};
use side_automata::{Automata, problems};
use std::alloc::Global;
use std::fmt::Write;
use std::test::Fail;

fn write_edge(text: &mut String, edge: Edge) -> Result<(), Fail> {
    let Edge { from, cube, to } = edge;
    let Cube { must, not } = cube;
    write!(text, "{from} {must} {not} {to}; ")?;
    Ok(())
}

/// For each edge where it comes from, what its cube wants and forbids as sets of signals, and where it leads. Then the rejecting states.
fn write_automaton(text: &mut String, automaton: &Automaton) -> Result<(), Fail> {
    for edge in automaton.edges() {
        write_edge(text, *edge)?;
    }
    for q in 0..automaton.states() {
        if automaton.is_rejecting(q) {
            write!(text, "{q} ")?;
        }
    }
    text.push_str("| ")?;
    Ok(())
}

/// The environment's automaton, if there is one, and then the system's.
fn told(alloc: Global, automata: &Automata) -> Result<String, Fail> {
    let mut text = String::new(alloc);
    if let Some(environment) = &automata.environment {
        write_automaton(&mut text, environment)?;
    }
    write_automaton(&mut text, &automata.system)?;
    Ok(text)
}

fn automata_of(alloc: Global, text: &[u8]) -> Result<String, Fail> {
    let mut formulas = Formulas::new(alloc);
    let f = formula(alloc, &mut formulas, text)?;
    told(alloc, &problems(alloc, &mut formulas, f)?)
}

/// The environment has to keep away from a right delay: each state but the start holds what was promised of b, and one of them promises
/// both, so that no edge leaves it.
const DELAY: &str =
    "0 0 1 1; 0 1 0 2; 0 0 0 3; 1 0 3 1; 1 1 2 2; 1 0 2 3; 2 2 1 1; 2 3 0 2; 2 2 0 3; 0 1 2 3 | \
    0 1 0 1; 0 0 1 2; 0 0 0 0; 1 0 2 3; 2 2 0 3; 3 0 0 3; 1 2 3 | ";

/// The environment's counts two untils, and the system's waits for either.
const BOTH_INFINITELY_OFTEN: &str =
    "0 1 0 1; 0 0 1 2; 0 0 0 3; 1 1 0 1; 1 0 1 4; 1 0 0 5; 2 1 0 1; 2 0 1 2; 2 0 0 3; \
    3 1 0 1; 3 0 1 2; 3 0 0 3; 4 1 0 1; 4 0 1 2; 4 0 0 3; 5 1 0 1; 5 0 1 4; 5 0 0 5; 4 | \
    0 0 1 1; 0 0 0 2; 0 1 0 3; 0 0 0 4; 1 0 1 1; 2 0 1 1; 2 0 0 2; 3 1 0 3; 4 1 0 3; 4 0 0 4; 1 3 | ";

#[test]
fn automata_edge_by_edge(rt: HostRuntime) -> Result<(), Fail> {
    for (text, want) in [
        (b"abX>a!b!X>&G".as_slice(), DELAY),
        (b"aFGa!FG&", BOTH_INFINITELY_OFTEN),
        // Truth is accepted at once, and falsity has no edge.
        (b"1", "0 0 0 1; 1 0 0 1; 0 1 | 0 | "),
        // A literal looks at one letter.
        (b"c!", "0 0 4 1; 1 0 0 1; 0 1 | 0 4 0 1; 1 0 0 1; 0 1 | "),
        // An equal edge is left out: two covers have the free cube and lead to the same state; with the first until put off, the
        // second is left over or put off.
        (
            b"aFbFXbF|&",
            "0 1 0 1; 0 3 0 2; 0 1 0 3; 0 0 0 4; 0 2 0 5; 1 ",
        ),
    ] {
        let found = automata_of(rt.alloc(), text)?;
        assert!(rt; found.as_str().starts_with(want), "{found}");
    }
    Ok(())
}
