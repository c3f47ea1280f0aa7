use crate::line_rules::{
    are_numbers, clause_of, cut_word, entry_rule, is_code, is_entry, is_number, value,
};

/// What a line of a document of version 6, behind its first, should be, as far as the lines before it tell.
pub(crate) fn solved_rule(bytes: &[u8], number: u64, line: &[u8]) -> &'static str {
    if let Some(lines) = NamedLines::before(bytes, number) {
        return lines.rule(line);
    }
    let has_circuit = bytes.starts_with(b"aag ");
    let (word, _) = cut_word(line);
    let (before, _) = cut_word(line_before(bytes, number));
    match before {
        b"boundsyn" => verdict_rule(has_circuit, line),
        b"verdict" => "behind the verdict stands the system's kind, `kind Mealy` or `kind Moore`",
        b"kind" if word == b"semantics".as_slice() => {
            "`semantics` stands where the text is converted: it names the text's SEMANTICS, and `kind` its TARGET, which is the other kind; \
                the conversion has at most 4,096 nodes"
        },
        b"kind" | b"semantics" if has_circuit => {
            "here stands `refuted R`: R is below the verdict's N, and each size from 1 to R has a log"
        },
        b"kind" | b"semantics" => "a document without a circuit ends here with the line `end`",
        b"end" => "nothing stands behind the line `end`",
        _ => logs_rule(bytes, number, line),
    }
}

/// Whether a document is of version 6, by its first line or by that behind the line `c` of its circuit.
pub(crate) fn is_solved(bytes: &[u8]) -> bool {
    let has_circuit = bytes.starts_with(b"aag ");
    let mut is_next = !has_circuit;
    for line in bytes.split(|byte| *byte == b'\n') {
        if is_next {
            return line == b"boundsyn 6".as_slice();
        }
        is_next = line == b"c".as_slice();
    }
    false
}

/// The line before the line of that number, or an empty one.
fn line_before(bytes: &[u8], number: u64) -> &[u8] {
    let skipped = number.saturating_sub(2) as usize;
    bytes
        .split(|byte| *byte == b'\n')
        .nth(skipped)
        .unwrap_or(b"")
}

fn verdict_rule(has_circuit: bool, line: &[u8]) -> &'static str {
    let (_, verdict) = cut_word(line);
    let (winner, states) = cut_word(verdict);
    let is_won = winner == b"realizable".as_slice() || winner == b"unrealizable".as_slice();
    if !has_circuit {
        "without a circuit the verdict is `verdict unknown`"
    } else if line.starts_with(b"verdict ") && is_won && is_number(states) {
        "the circuit doesn't reach exactly N values of its latches, or N isn't from 1 to 65,536, or N times the number of letters \
            that the circuit reads passes 67,108,864"
    } else {
        "behind a circuit the verdict is `verdict realizable N` or `verdict unrealizable N`, and N is how many values its latches reach"
    }
}

/// What stands of a document's logs before one of its lines.
#[derive(Clone, Copy)]
struct LogsBefore {
    /// The sizes that are refuted.
    wanted: u64,
    /// The logs that have begun.
    count: u64,
    /// The entries that the last of them has still to come.
    missing: u64,
    /// Whether its last entry so far is the empty clause.
    is_closed: bool,
}

impl LogsBefore {
    fn of(bytes: &[u8], number: u64) -> LogsBefore {
        let mut logs = LogsBefore {
            wanted: 0,
            count: 0,
            missing: 0,
            is_closed: false,
        };
        let before = number.saturating_sub(1) as usize;
        for line in bytes.split(|byte| *byte == b'\n').take(before) {
            logs.pass(line);
        }
        logs
    }

    fn pass(&mut self, line: &[u8]) {
        let (word, rest) = cut_word(line);
        if word == b"refuted".as_slice() {
            self.wanted = value(rest);
        } else if word == b"log".as_slice() {
            self.count = self.count.saturating_add(1);
            self.missing = value(rest.split(|byte| *byte == b' ').nth(4).unwrap_or(b""));
            self.is_closed = false;
        } else if is_entry(line) {
            self.missing = self.missing.saturating_sub(1);
            self.is_closed = clause_of(line).is_empty();
        }
    }
}

fn logs_rule(bytes: &[u8], number: u64, line: &[u8]) -> &'static str {
    let logs = LogsBefore::of(bytes, number);
    if logs.missing > 0 && is_entry(line) {
        entry_rule(bytes, number, line)
    } else if logs.missing > 0 {
        "here stands an entry, of which the log has as many as its head says: a worker's number, literals, `0`, hints and `0`"
    } else if logs.count > 0 && !logs.is_closed {
        "the log above isn't closed: the last entry that its head counts has to be the empty clause"
    } else if logs.count < logs.wanted {
        log_rule(logs.count.saturating_add(1), line)
    } else {
        named_head_rule(line)
    }
}

/// What the head of the log of this size should be.
fn log_rule(size: u64, line: &[u8]) -> &'static str {
    let (word, rest) = cut_word(line);
    let (named, words) = cut_word(rest);
    let (letters, counts) = cut_word(words);
    let are_letters = letters == b"all".as_slice()
        || letters.split(|byte| *byte == b',').all(is_number);
    let is_head = word == b"log".as_slice()
        && is_number(named)
        && are_letters
        && are_numbers(counts, 3);
    if !is_head {
        "here stands a log's head, `log SIZE LETTERS VARS BASE COUNT`: LETTERS is `all`, or numbers that rise with commas between"
    } else if value(named) != size {
        "the logs are of the sizes 1 to R in order, R being the number that `refuted` has"
    } else {
        "this log's head has the form of one, but VARS and BASE aren't the numbers of variables and base clauses of its size over its \
            letters, or these aren't `all` or at most 64 that rise and that the side reads, or the size is too large"
    }
}

/// What the head of an annotation over named states should be.
pub(crate) fn named_head_rule(line: &[u8]) -> &'static str {
    let (word, counts) = cut_word(line);
    if word == b"annotation".as_slice() && are_numbers(counts, 2) {
        "the annotation's head has the form of one, but no pair has the values to which the latches reset with state 0, or P is above \
            1,000,000, or A isn't from 1 to 20,000, or P times the number of letters that the circuit reads passes 67,108,864"
    } else {
        "behind the logs, one for each size that is refuted, stands the annotation's head, `annotation P A` with its numbers of pairs \
            and states"
    }
}

/// How many lines an annotation over named states has still to come.
#[derive(Clone, Copy)]
pub(crate) struct NamedLines {
    states: u64,
    pairs: u64,
    is_ended: bool,
}

impl NamedLines {
    /// What is to come at the line of that number, where the annotation's head stands before it.
    pub(crate) fn before(bytes: &[u8], number: u64) -> Option<NamedLines> {
        let before = number.saturating_sub(1) as usize;
        let mut lines = None;
        for line in bytes.split(|byte| *byte == b'\n').take(before) {
            lines = match lines {
                None => NamedLines::of_head(line),
                Some(left) => Some(NamedLines::without_first(left)),
            };
        }
        lines
    }

    fn of_head(line: &[u8]) -> Option<NamedLines> {
        let (word, counts) = cut_word(line);
        if word != b"annotation".as_slice() || !are_numbers(counts, 2) {
            return None;
        }
        let (pairs, states) = cut_word(counts);
        Some(NamedLines {
            states: value(states),
            pairs: value(pairs),
            is_ended: false,
        })
    }

    fn without_first(self) -> NamedLines {
        let mut left = self;
        if self.states > 0 {
            left.states = self.states.saturating_sub(1);
        } else if self.pairs > 0 {
            left.pairs = self.pairs.saturating_sub(1);
        } else {
            left.is_ended = true;
        }
        left
    }

    /// What the first of them should be.
    pub(crate) fn rule(self, line: &[u8]) -> &'static str {
        if self.states > 0 {
            "here stands a state, `state K C I I ..`: K counts these lines from 0, C is at most the number of untils, and the ids \
                rise and are of parts of the formula; the first is `state 0 0 F` with the whole's id F, and no two are alike"
        } else if self.pairs > 0 {
            pair_rule(line)
        } else if self.is_ended {
            "nothing stands behind the line `end`"
        } else {
            "behind the annotation's states and pairs, as many as its head says, stands the line `end`"
        }
    }
}

fn pair_rule(line: &[u8]) -> &'static str {
    let (code, numbers) = cut_word(line);
    if is_code(code) && are_numbers(numbers, 2) {
        "this pair has the form of one, but has too few or too many digits for the latches, names no state, stands twice, or some letter \
            leads from it to a pair that isn't there or counts too little"
    } else {
        "here stands a pair, `CODE K C`: the latches' values or `-`, a state's number, and how many rejecting states there were, or more"
    }
}
