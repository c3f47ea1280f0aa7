//! The answer of `bench`: the search of `synth` on the text of an arbiter, told in three lines.
//!
//! The contract above this layer: `bench_answer` gives what `BenchAnswer` says, so its verdict, its number of states and its status
//! are those of a document that answers the text. It stands on arbiter_text for the text and on synth_answer for the document and its
//! verdict.
#![tactic(auto)]

mod bench;

pub use bench::bench_answer;
