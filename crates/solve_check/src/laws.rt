//! Laws of documents of version 6 against texts, each the contract of a function that does nothing.
ghost use Rattle.solve_check.specs.Laws.{LeastLieBetween, NeverBoth, SolvedChecksAreDetermined};

use circuit_laws::laws::{no_small_circuit_defeats, no_small_circuit_satisfies};
use circuit_machines::laws::circuits_are_machines;
use satisfaction::laws::defeating_cannot_lose;
use size_refutations::laws::logs_are_determined;
use solved_text::laws::solved_are_determined;
use tlsf_reader::laws::trees_are_determined;

/// Of a text a document has at most one first bad line, and none where it holds.
pub fn solved_checks_are_determined()
    ensures { SolvedChecksAreDetermined }
{
    solved_are_determined();
    logs_are_determined();
}

/// Of one text, kind and semantics no two documents are accepted, one realizable and one unrealizable.
pub fn never_both()
    ensures { NeverBoth }
{
    circuits_are_machines();
    trees_are_determined();
}

/// The fewest states of a side lie between what a document refutes and what its circuit reaches.
pub fn least_lie_between()
    ensures { LeastLieBetween }
{
    no_small_circuit_satisfies();
    no_small_circuit_defeats();
    defeating_cannot_lose();
}
