use crate::line_faults::{LineFault, LineOf};
use crate::solved_rules::{NamedLines, is_solved, named_head_rule, solved_rule};

/// What a refused line should be, as far as the line and those before it tell.
pub(crate) fn rule(bytes: &[u8], fault: LineFault, line: &[u8]) -> &'static str {
    if line.ends_with(b"\r") {
        return "the line ends with a carriage return, as in files of Windows: a line ends with a line feed alone";
    }
    match fault.of {
        LineOf::Document => document_rule(bytes, fault.line, line),
        LineOf::Circuit => circuit_rule(bytes, fault.line, line),
        LineOf::Word => word_rule(bytes, fault.line, line),
        LineOf::List => {
            "a line of the list is the name of a file: UTF-8, not empty, and not beginning with `-`; there are at most 64"
        },
    }
}

/// The most letters of a word.
const MOST_LETTERS: usize = 10_000;

fn word_rule(bytes: &[u8], number: u64, line: &[u8]) -> &'static str {
    let before = number.saturating_sub(1) as usize;
    let letters = bytes
        .split(|byte| *byte == b'\n')
        .take(before)
        .filter(|line| *line != b"stem".as_slice() && *line != b"ring".as_slice())
        .count();
    if number == 1 {
        "a word begins with the line `stem`"
    } else if letters >= MOST_LETTERS {
        "a word has at most 10,000 letters"
    } else if line == b"ring".as_slice() {
        "the line `ring` stands once, behind the letters of the stem"
    } else {
        "a letter is the names of the text's signals that are true, each once and with one blank between them, or `-`"
    }
}

fn document_rule(bytes: &[u8], number: u64, line: &[u8]) -> &'static str {
    if bytes.starts_with(b"aag ") && !is_in_comment(bytes, number) {
        return gates_rule(bytes, number);
    }
    if is_solved(bytes) {
        return solved_rule(bytes, number, line);
    }
    let (word, _) = cut_word(line);
    match word {
        b"boundsyn" => "a document's head is `boundsyn` and its version, which is 1, 2, 3, 5 or 6",
        b"verdict" => {
            "the verdict is none that a document has, its size isn't allowed, or it names another log than the first that isn't closed"
        },
        b"kind" => "the kind is `Mealy` or `Moore`",
        b"max" => "`max` has the greatest size, 1 to 8",
        b"entries" => "`entries` has the most entries of a log, up to 250000, or `none`",
        b"found" => "`found` has a size, in old documents with unknown entries alone",
        b"log" => log_rule(line),
        b"end" => "a log or an entry is missing before the end, or the last log isn't ended",
        _ if word.first().is_some_and(|byte| byte.is_ascii_digit()) => entry_rule(
            bytes, number, line,
        ),
        _ => "no line of a document begins like this here",
    }
}

fn log_rule(line: &[u8]) -> &'static str {
    let (_, words) = cut_word(line);
    let (side, numbers) = cut_word(words);
    let is_side = side == b"system".as_slice() || side == b"environment".as_slice();
    if is_side && are_numbers(numbers, 4) {
        "this log has the form of one, but isn't the one that the verdict wants here, hasn't the text's numbers of \
            variables and base clauses, or is neither closed nor full"
    } else {
        "a log's head is `log SIDE SIZE VARIABLES CLAUSES ENTRIES`"
    }
}

pub(crate) fn entry_rule(bytes: &[u8], number: u64, line: &[u8]) -> &'static str {
    if !is_entry(line) {
        return "an entry is a worker's number, literals, `0`, hints and `0`";
    }
    let log = LogBefore::of(bytes, number, clause_of(line));
    if log.count >= log.limit {
        "this log has more entries than the line `entries` allows"
    } else if log.is_closed {
        "an entry stands behind the empty clause, with which a log ends"
    } else if log.is_known {
        "an earlier entry of this log has the same clause"
    } else {
        "this entry has the form of one, but its clause doesn't follow from the clauses that its hints name, for this text"
    }
}

/// What stands of a log before one of its entries.
#[derive(Clone, Copy)]
struct LogBefore {
    /// The most entries that it may have.
    limit: u64,
    count: u64,
    /// Whether the empty clause is among them.
    is_closed: bool,
    /// Whether the clause of that entry is.
    is_known: bool,
}

impl LogBefore {
    fn of(bytes: &[u8], number: u64, clause: &[u8]) -> LogBefore {
        let mut log = LogBefore {
            limit: u64::MAX,
            count: 0,
            is_closed: false,
            is_known: false,
        };
        let before = number.saturating_sub(1) as usize;
        for line in bytes.split(|byte| *byte == b'\n').take(before) {
            log.pass(line, clause);
        }
        log
    }

    fn pass(&mut self, line: &[u8], clause: &[u8]) {
        let (word, rest) = cut_word(line);
        if word == b"entries".as_slice() {
            self.limit = if is_number(rest) {
                value(rest)
            } else {
                u64::MAX
            };
        } else if word == b"log".as_slice() {
            self.count = 0;
            self.is_closed = false;
            self.is_known = false;
        } else if is_entry(line) {
            let earlier = clause_of(line);
            self.count = self.count.saturating_add(1);
            self.is_closed = self.is_closed || earlier.is_empty();
            self.is_known = self.is_known || are_alike(earlier, clause);
        }
    }
}

/// The literals of an entry.
pub(crate) fn clause_of(line: &[u8]) -> &[u8] {
    let (_, literals) = cut_word(line);
    let mut len = 0usize;
    for word in literals.split(|byte| *byte == b' ') {
        if word == b"0".as_slice() {
            break;
        }
        len = len.saturating_add(word.len()).saturating_add(1);
    }
    literals.get(..len).unwrap_or(literals)
}

/// Whether two lists of literals are the same clause.
fn are_alike(one: &[u8], other: &[u8]) -> bool {
    one.len() == other.len()
        && one.split(|byte| *byte == b' ').all(|literal| other
            .split(|byte| *byte == b' ')
            .any(|word| word == literal))
}

/// Whether a line has the form of an entry: a number, literals up to `0`, hints up to `0`.
pub(crate) fn is_entry(line: &[u8]) -> bool {
    let mut zeros = 0u32;
    for (place, word) in line.split(|byte| *byte == b' ').enumerate() {
        let digits = word.strip_prefix(b"-").unwrap_or(word);
        let is_signed = digits.len() < word.len();
        let may_be_signed = place > 0 && zeros == 0;
        if zeros > 1 || !is_number(digits) || is_signed && !may_be_signed {
            return false;
        }
        if place > 0 && word == b"0".as_slice() {
            zeros = zeros.saturating_add(1);
        }
    }
    zeros == 2
}

/// Whether the bytes are so many numbers with a blank between them.
pub(crate) fn are_numbers(bytes: &[u8], count: usize) -> bool {
    bytes.split(|byte| *byte == b' ').count() == count
        && bytes.split(|byte| *byte == b' ').all(is_number)
}

pub(crate) fn is_number(word: &[u8]) -> bool {
    !word.is_empty() && word.iter().all(|byte| byte.is_ascii_digit())
}

fn circuit_rule(bytes: &[u8], number: u64, line: &[u8]) -> &'static str {
    if !is_in_comment(bytes, number) {
        return gates_rule(bytes, number);
    }
    if let Some(lines) = NamedLines::before(bytes, number) {
        return lines.rule(line);
    }
    let (word, rest) = cut_word(line);
    if word == b"annotation".as_slice() {
        if is_number(rest) {
            "the annotation's head has the form of one, but no line has the values to which the latches reset with state 0; with \
                `--unrealizable` it is `annotation P A`"
        } else if are_numbers(rest, 2) {
            named_head_rule(line)
        } else {
            "the annotation's head is `annotation` and the number of its lines, or `annotation P A` over named states"
        }
    } else if is_code(word) && are_numbers(rest, 2) {
        "this line has the form of one, but stands twice, or some letter leads from it to a line that isn't there or counts too little"
    } else {
        "an annotation is the line `annotation P`, P lines `CODE STATE COUNT` and the line `end`"
    }
}

/// Whether a word may be the values of latches.
pub(crate) fn is_code(word: &[u8]) -> bool {
    word == b"-".as_slice() || word.iter().all(|byte| matches!(byte, b'0' | b'1'))
}

/// The first word of a line, and what stands behind the blank.
pub fn cut_word(line: &[u8]) -> (&[u8], &[u8]) {
    let word = line.split(|byte| *byte == b' ').next().unwrap_or(b"");
    let rest = line.get(word.len().saturating_add(1)..).unwrap_or(b"");
    (word, rest)
}

/// Whether the line `c` stands before the line of that number.
fn is_in_comment(bytes: &[u8], number: u64) -> bool {
    let before = number.saturating_sub(1);
    bytes
        .split(|byte| *byte == b'\n')
        .take(before as usize)
        .any(|line| line == b"c".as_slice())
}

/// What the line of that number is for, in a circuit with this header.
fn gates_rule(bytes: &[u8], number: u64) -> &'static str {
    let header = bytes.split(|byte| *byte == b'\n').next().unwrap_or(b"");
    let mut counts = header.split(|byte| *byte == b' ').skip(2).map(value);
    let inputs = counts.next().unwrap_or(0).saturating_add(1);
    let latches = counts.next().unwrap_or(0).saturating_add(inputs);
    let outputs = counts.next().unwrap_or(0).saturating_add(latches);
    let gates = counts.next().unwrap_or(0).saturating_add(outputs);
    if number == 1 {
        "a circuit begins with `aag M I L O A`, and has as many inputs and outputs as the text"
    } else if number <= inputs {
        "here stands an input: one even literal that nothing else defines"
    } else if number <= latches {
        "here stands a latch: `LITERAL NEXT` or `LITERAL NEXT RESET`, the first even and a reset 0 or 1"
    } else if number <= outputs {
        "here stands an output: one literal, which in a Moore machine depends on latches alone"
    } else if number <= gates {
        "here stands a gate: `LITERAL LEFT RIGHT`, the first even, and no gate leads to itself"
    } else {
        "here stands a name, as `i0 NAME` or `o0 NAME` and as the text has it, or the line `c`"
    }
}

/// The number that a word is, or 0.
pub(crate) fn value(word: &[u8]) -> u64 {
    str::from_utf8(word)
        .ok()
        .and_then(|word| word.parse::<u64>().ok())
        .unwrap_or(0)
}
