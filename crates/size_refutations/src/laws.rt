//! Laws of the logs of documents of version 6, each the contract of a function that does nothing.
ghost use Rattle.size_refutations.specs.Laws.{HoldingLogsRefute, LogsAreDetermined};

use cobuchi_build::laws::{
    automata_keep_limits, one_automaton_per_formula, the_automaton_accepts_exactly,
};
use letter_clauses::laws::closed_logs_refute;
use log_checker::laws::faults_are_apart;

/// At most one line is the one at which a log fails, and it fails at none exactly where it holds.
pub fn logs_are_determined()
    ensures { LogsAreDetermined }
{
    faults_are_apart();
    one_automaton_per_formula();
}

/// A log that holds refutes its size: no machine of so many states satisfies, or each of the environment can lose.
pub fn holding_logs_refute()
    ensures { HoldingLogsRefute }
{
    automata_keep_limits();
    the_automaton_accepts_exactly();
    closed_logs_refute();
}
