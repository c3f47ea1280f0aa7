//! What is told of a search, in the words of outcome_news. Nothing is promised of it.

use document_text::Verdict;
use letters_and_lassos::Kind;
use outcome_news::{LogEnd, LogEnds, Searched};
use refutation_log::LogState;
use size_search::SizeLog;
use synth_engine::Settings;

/// A document of these settings and this kind, which says that, over logs that ended so.
pub fn searched(kind: Kind, settings: Settings, verdict: Verdict, logs: LogEnds) -> Searched {
    Searched {
        verdict,
        kind,
        counts: settings.counts(),
        max: settings.max(),
        entries: settings.entries(),
        logs,
    }
}

/// How the logs of a search ended.
pub fn ends_of(logs: &[SizeLog]) -> LogEnds {
    let mut ends = LogEnds::new();
    for log in logs {
        ends.note(log.side, log.size, end_of(&log.log));
    }
    ends
}

fn end_of(log: &LogState) -> LogEnd {
    if log.is_closed() {
        LogEnd::Closed
    } else {
        LogEnd::Full
    }
}
