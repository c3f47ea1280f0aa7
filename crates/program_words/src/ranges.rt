//! The numbers that words may say, and what holds without them.

/// The most states and workers of a search for one text.
pub const MOST_ALONE: u32 = 8;

/// The same where many texts are searched at once.
pub const MOST_IN_BATCH: u32 = 4;

/// The greatest limit of entries of a log.
pub const MOST_ENTRIES: u32 = 250_000;

/// The limit of entries of a log without one in the words.
pub const USUAL_ENTRIES: u64 = 50_000;

/// The same where it isn't said how many sizes are refuted either.
pub const BRIEF_ENTRIES: u64 = 2_000;

/// The most sizes that are refuted below that of a machine that is found.
pub const MOST_REFUTED: u32 = 16;

/// The most seconds that `solve` works at a text, where they are given: a day.
pub const MOST_SECONDS: u32 = 86_400;

/// The most clients of a text that is made.
pub const MOST_CLIENTS: u32 = 8;

/// The most clients of a text that is made and searched.
pub const MOST_BENCHED: u32 = 4;
