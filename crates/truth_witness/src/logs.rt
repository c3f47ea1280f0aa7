use refutation_log::Entry;
use std::marker::Model;

/// The log of an obligation, with the numbers of variables and of base clauses that its head says.
#[derive(Drop)]
pub struct ObligationLog {
    pub vars: u32,
    pub base: u64,
    pub entries: Vec<Entry>,
}

impl Model for ObligationLog {
    ghost use Rattle.truth_witness.specs.Logs as logs;

    ghost Value = { logs.ObligationLog };

    ghost view = { λ l. record { vars = l.vars; base = l.base; entries = l.entries.items } };
}
