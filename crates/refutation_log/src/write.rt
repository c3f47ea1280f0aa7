ghost use Rattle.std.specs.Prelude.{◌≡◌, ◌++◌, OnOk, OnErr, ◌∷◌, []};
ghost use Rattle.std.specs.List.{flat_map};
ghost use Rattle.names_and_numbers.specs.Prefix.{IsPrefix};
ghost use Rattle.refutation_log.specs.Text.{literal_word, hint_word, entry_line, log_text};
ghost use Rattle.refutation_log.specs.Read.{IsReadBack};
ghost use Rattle.refutation_log.specs.Shown.{shown};

use crate::{Entry, EntryRef, Hints, LogState, SharedClause};
use names_and_numbers::push_number;
use propositional_logic::Lit;
use std::alloc::AllocError;

/// Appends the entry lines of a log. After want of memory `out` is as before.
pub fn write_log(log: &LogState, out: &mut Vec<u8>) -> Result<(), AllocError>
    ensures ok { OnOk result (out.new.items ≡ out.old.items ++ log_text log.now.entries) }
    ensures read_back { OnOk result (IsReadBack log.now.entries out.old.items out.new.items) }
    ensures err { OnErr result (out.new.items ≡ out.old.items) }
{
    let before = out.len();
    if let Err(error) = push_log(log, out) {
        out.truncate(before);
        return Err(error);
    }
    Ok(())
}

/// Appends the lines of these entries. After want of memory `out` is as before.
pub fn write_entries(entries: &[Entry], out: &mut Vec<u8>) -> Result<(), AllocError>
    ensures ok { OnOk result (out.new.items ≡ out.old.items ++ log_text entries.now) }
    ensures read_back { OnOk result (IsReadBack entries.now out.old.items out.new.items) }
    ensures err { OnErr result (out.new.items ≡ out.old.items) }
{
    let before = out.len();
    if let Err(error) = push_entries(entries, out) {
        out.truncate(before);
        return Err(error);
    }
    Ok(())
}

fn push_log(log: &LogState, out: &mut Vec<u8>) -> Result<(), AllocError>
    ensures ok { OnOk result (out.new.items ≡ out.old.items ++ log_text log.now.entries) }
    ensures grown { IsPrefix out.old.items out.new.items }
{
    for i in 0..log.entries() {
        write_entry(&log.entry(i), out)?;
    }
    Ok(())
}

fn push_entries(entries: &[Entry], out: &mut Vec<u8>) -> Result<(), AllocError>
    ensures ok { OnOk result (out.new.items ≡ out.old.items ++ log_text entries.now) }
    ensures grown { IsPrefix out.old.items out.new.items }
{
    for entry in entries {
        write_entry(&entry.view(), out)?;
    }
    Ok(())
}

/// Appends one entry's line.
fn write_entry(entry: &EntryRef<'_>, out: &mut Vec<u8>) -> Result<(), AllocError>
    ensures ok { OnOk result (out.new.items ≡ out.old.items ++ entry_line (shown entry.now)) }
    ensures grown { IsPrefix out.old.items out.new.items }
{
    push_number(out, u64::from(entry.by))?;
    out.push(b' ')?;
    write_clause(entry.clause, out)?;
    out.extend_from_slice(b"0 ")?;
    write_hints(entry.hints, out)?;
    out.extend_from_slice(b"0\n")
}

fn write_clause(clause: &SharedClause, out: &mut Vec<u8>) -> Result<(), AllocError>
    ensures ok { OnOk result (out.new.items ≡ out.old.items ++ flat_map literal_word clause.now) }
    ensures grown { IsPrefix out.old.items out.new.items }
{
    for lit in clause.lits() {
        write_literal(*lit, out)?;
    }
    Ok(())
}

fn write_literal(lit: Lit, out: &mut Vec<u8>) -> Result<(), AllocError>
    ensures ok { OnOk result (out.new.items ≡ out.old.items ++ literal_word lit) }
    ensures grown { IsPrefix out.old.items out.new.items }
{
    if !lit.is_positive() {
        out.push(b'-')?;
    }
    push_number(out, u64::from(lit.var()))?;
    out.push(b' ')?;
    Ok(())
}

fn write_hints(hints: &Hints, out: &mut Vec<u8>) -> Result<(), AllocError>
    ensures ok { OnOk result (out.new.items ≡ out.old.items ++ flat_map hint_word hints.now) }
    ensures grown { IsPrefix out.old.items out.new.items }
{
    for hint in hints.numbers() {
        write_hint(*hint, out)?;
    }
    Ok(())
}

fn write_hint(hint: u64, out: &mut Vec<u8>) -> Result<(), AllocError>
    ensures ok { OnOk result (out.new.items ≡ out.old.items ++ hint_word hint) }
    ensures grown { IsPrefix out.old.items out.new.items }
{
    push_number(out, hint)?;
    out.push(b' ')?;
    Ok(())
}
