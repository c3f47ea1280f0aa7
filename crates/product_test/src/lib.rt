//! A test of circuits that shares nothing with the games that find them: the product of a circuit and its side's automaton, letter by letter,
//! may have no ring through a rejecting state, and the outputs of a Moore machine may not depend on its inputs. Proved is that it is safe.
//! It stands on machine_model and aiger_text, and rows of games use it.
#![tactic(auto)]

mod runs;

pub use runs::passes;
