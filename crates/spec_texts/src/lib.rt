//! A text and the logs of a document for other tools: its formula as infix LTL, basic TLSF of it, with its guarantees apart, or of the environment's
//! task; base clauses in DIMACS form, entries in LRAT and their clauses in DRAT.
//!
//! `spec_text` writes a text, `Told` has its title and its formulas, `put_smv_formula` puts the whole for a module of SMV, and `proof_files` makes the
//! files of each log. It promises safety alone. Stands on flat_answer for the flat text, on spec_problems, document_check and annotation_encode for the
//! base clauses of documents of `synth`, and on solve_ground and size_refutations for those of documents of `solve`.
#![tactic(auto)]

mod base;
mod beside;
mod dimacs;
mod entries;
mod faults;
mod files;
mod forms;
mod infix;
mod plain_names;
mod sections;
mod shifted;
mod smv;
mod smv_names;
mod solved_files;
mod tlsf;
mod told;

pub use faults::TextFault;
pub use files::{ProofFile, proof_files};
pub use forms::{Form, SpecText, spec_text};
pub use smv_names::{SmvNames, put_smv_formula};
pub use told::Told;
