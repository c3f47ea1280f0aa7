//! Tests of what no clause says and no command prints: that answers come in time, what a choice is, files of the system, and vectors that
//! were worked out by hand for definitions on which the headline rests. Each calls one small function over the public surface of a layer.
#![tactic(auto)]

#[cfg(test)]
mod both_sides;
#[cfg(test)]
mod check_log;
#[cfg(test)]
mod circuits;
#[cfg(test)]
mod clause_texts;
#[cfg(test)]
mod clauses;
#[cfg(test)]
mod components;
#[cfg(test)]
mod covers;
#[cfg(test)]
mod decoding;
#[cfg(test)]
mod files;
#[cfg(test)]
mod formula_texts;
#[cfg(test)]
mod gates;
#[cfg(test)]
mod learning;
#[cfg(test)]
mod long_log;
#[cfg(test)]
mod problems;
#[cfg(test)]
mod propagation;
#[cfg(test)]
mod runs;
#[cfg(test)]
mod shared_forms;
#[cfg(test)]
mod turns;
