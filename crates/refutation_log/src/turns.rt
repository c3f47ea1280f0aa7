use crate::Entry;

/// One event of a log.
#[derive(Debug, Drop)]
pub enum Turn {
    /// Offers an entry.
    Append(Entry),
    /// Looks at the log.
    Read,
}

/// What a log answers to a turn. Places count from 0.
#[derive(Clone, Copy, Debug, PartialEq, Eq)]
pub enum Reply {
    /// An equal clause stands at that place.
    Known(usize),
    /// The last entry is the empty clause.
    Closed,
    /// There is a limit, and so many entries stand.
    Full,
    /// The entry is now last, at that place.
    At(usize),
    /// The turn was a read, of so many entries.
    Seen(usize),
}
