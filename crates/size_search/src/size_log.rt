use letters_and_lassos::Side;
use refutation_log::LogState;

/// The log of a size of one side.
#[derive(Debug, Drop)]
pub struct SizeLog {
    pub side: Side,
    pub size: u32,
    /// The number of variables of the problem of this size.
    pub vars: u32,
    /// The number of its base clauses.
    pub base: u64,
    pub log: LogState,
}
