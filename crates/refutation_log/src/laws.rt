//! Laws of the definitions, each the contract of a function that does nothing.
ghost use Rattle.refutation_log.specs.Examples.{FollowsByExample};
ghost use Rattle.refutation_log.specs.Laws.{RunsStayLegal, LogsAreSound, PrefixesStay, OutcomesAreApart, WrittenIsRead, LogsGrow, TeachingNarrows, LogsAreBounded, LegalLogsAreWritable};

/// Over every list of turns in which each append is sound at its turn, by any number of workers, the log stays legal: each of its
/// clauses stands once, and follows from the base clauses and the entries before it.
pub fn runs_stay_legal()
    ensures { RunsStayLegal }
{}

/// Each clause of a legal log is implied by the base clauses, and no assignment meets the base clauses of a closed one.
pub fn logs_are_sound()
    ensures { LogsAreSound }
{}

/// Numbers and places name the same clauses in every longer log that begins alike, and what follows from a prefix follows from
/// the log.
pub fn prefixes_stay()
    ensures { PrefixesStay }
{}

/// What follows from a few clauses, worked out by hand.
pub fn follows_by_example()
    ensures { FollowsByExample }
{}

/// Bytes state one list of entries at most, and `read_log` has one cause at most to refuse them: each of its answers comes exactly
/// where its clause holds, but for want of memory.
pub fn outcomes_are_apart()
    ensures { OutcomesAreApart }
{}

/// What `write_log` or `write_entries` wrote is read as what was written, where each hint is at least 1 and no variable passes the number of variables.
pub fn written_is_read()
    ensures { WrittenIsRead }
{}

/// A legal log stays legal with one more entry that follows, and a taught one stays taught with one more that teaches.
pub fn logs_grow()
    ensures { LogsGrow }
{}

/// What teaches over many clauses teaches over fewer of them.
pub fn teaching_narrows()
    ensures { TeachingNarrows }
{}

/// A legal log over v variables that isn't ended has fewer than 3^v entries, so such a limit is never reached; no log is both closed
/// and full.
pub fn logs_are_bounded()
    ensures { LogsAreBounded }
{}

/// The entries of a legal log of sorted clauses can be written and read back.
pub fn legal_logs_are_writable()
    ensures { LegalLogsAreWritable }
{}
