use crate::Clause;

/// A formula in conjunctive normal form over the variables 1 to `vars`.
///
/// Each call that takes one has this condition: `vars` is at most 2^30, and no variable of the clauses passes it.
#[derive(Debug, Drop)]
pub struct Cnf {
    pub vars: u32,
    pub clauses: Vec<Clause>,
}

/// A value for each variable: that of variable v stands at place v - 1.
#[derive(Debug, Drop)]
pub struct Assignment {
    pub values: Vec<bool>,
}
