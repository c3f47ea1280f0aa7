//! Nets of and-gates whose signals are known on columns, such as a column for each reached state and letter. A value that no column has is a
//! don't-care without further code, and signals that are equal on all columns are one node. Proved is that it is safe and returns.
#![tactic(auto)]

mod columns;
mod nets;
mod problems;
mod rebuilding;

pub use columns::{
    Meeting, Signal, are_never_both, count, count_where, first_column, has_column, is_clear, part,
};
pub use nets::{Net, Operands, literal_of, node_of, opposite};
pub use problems::Problem;
pub use rebuilding::Change;
