//! What the base clauses of version 4 over all letters say: they can be met exactly where the side accepts a machine of the size. Over fewer letters one half of it
//! is the law of letter_clauses that what refutes them refutes the size.
//!
//! The contract above this layer: `laws::all_letters_are_exact`. Nothing is computed. It stands on letter_clauses, and on machine_decode for what an
//! assignment stands for.
#![tactic(auto)]

pub mod laws;
