use crate::VERSION;
use program_words::COMMANDS;
use std::alloc::{AllocError, Global};
use std::fmt::Write;

const PAGE: &str = "  solve SPEC           a tested controller of any size, or who defeats it
  synth SPEC           the smallest controller with its logs, or who defeats it
  check SPEC CERT      test the logs of a printed document
  expand SPEC          the text without parameters, functions and sets
  lasso SPEC WORD      whether the text holds on a word
  gen K                the text of an arbiter of K clients, 1 to 8
  bench K              a search on that text, K from 1 to 4
  verify SPEC CIRCUIT  test an annotated circuit of another maker
  core SPEC            guarantees that can't be met together
  batch LIST           `synth` on each text of a list
  batch --solve LIST   `solve` on each text of a list
options behind these words, and what holds without them:
  --max N              most states, 1 to 8 (4); in batch 1 to 4 (4); in solve
                       sizes to refute, 0 to 16 (those that are soon refuted)
  --entries B          most entries of a log, 0 to 250000 or none (50000; in
                       solve 2000 without --max)
  --workers W          threads, 1 to 8 (4); in batch 1 to 4 (4)
  --seconds S          of solve: most seconds for a text, 1 to 86400 (no limit)
  --kind mealy|moore   the kind, in place of the text's own
  --counts whole|local how base clauses bound their counts (whole)
  --unrealizable       of verify: the circuit plays the environment (the system)
  --solve              of expand and lasso: the text as `solve` takes it
  --nodes              of expand --solve: the list of its formulas, too
words before the command:
  -o FILE              write FILE, not standard output (also --output FILE)
  --progress           a line each second on standard error
  --verbose            what was found, too  --quiet  no messages
`-` is standard input in place of a file's name, once in a command
statuses:  0 done  10 realizable  11 a machine, but a log is full
  20 unrealizable  30 unknown  40 a line refused  1 the text refused
  2 a usage error  3 can't read  4 can't write  5 out of memory
";

/// The help page.
pub fn help_page(alloc: Global) -> Result<String, AllocError> {
    format!(in alloc; "boundsyn {VERSION}: bounded synthesis of TLSF texts\n{PAGE}")
}

/// Appends the forms of all commands.
pub(crate) fn push_forms(out: &mut String) -> Result<(), AllocError> {
    out.push_str("  the words are one of:\n")?;
    for command in COMMANDS {
        out.push_str("    ")?;
        command.push_form(out)?;
        out.push('\n')?;
    }
    out.push_str("  `boundsyn --help` says what they do\n")
}
