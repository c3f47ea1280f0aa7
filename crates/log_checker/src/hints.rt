ghost use Rattle.std.specs.Prelude.{◌≡◌, ℕ, ◌≤◌, [], ◌++◌, List, IfOk, OnOk, IfSome, Some, None, option_map, length};
ghost use Rattle.propositional_logic.specs.Clause.{IsWithinVariables};
ghost use Rattle.refutation_log.specs.Entry.{clauses_of};
ghost use Rattle.refutation_log.specs.Follows.{clause_named as named_clause, unit_named as named_unit};
ghost use Rattle.log_checker.specs.Faults.{hints_fault as fault_of_hints, last_hint_fault as fault_of_last_hint, follow_fault as fault_of_entry, IsFirstOf};
ghost use Rattle.log_checker.specs.Hinted.{IsCheckable};

use crate::LogFault;
use crate::marks::Marks;
use propositional_logic::{Clause, Cnf, Lit};
use refutation_log::Entry;
use std::alloc::{AllocError, Global};

/// The first fault of the hints of the entries from one place up to another. Costs the literals of the clauses that the hints name,
/// and a table over the variables.
pub(crate) fn first_follow_fault(
    alloc: Global,
    base: &Cnf,
    entries: &[Entry],
    from: usize,
    to: usize,
) -> Result<Option<LogFault>, AllocError>
    requires checkable { IsCheckable base.now.vars base.now.clauses.items entries.now }
    requires to { to ≤ length entries.now }
    ensures { IfOk result (IsFirstOf (fault_of_entry base.now.clauses.items) entries.now from to) }
{
    if from >= to {
        return Ok(None);
    }
    let mut marks = Marks::new(alloc, base.vars)?;
    for i in from..to {
        let fault = follow_fault(&mut marks, base, &entries[..i], &entries[i])?;
        if fault.is_some() {
            return Ok(fault);
        }
    }
    Ok(None)
}

/// What is wrong with an entry's hints, over the base clauses and the entries before it.
fn follow_fault(
    marks: &mut Marks,
    base: &Cnf,
    before: &[Entry],
    entry: &Entry,
) -> Result<Option<LogFault>, AllocError>
    requires checkable { IsCheckable base.now.vars base.now.clauses.items before.now }
    requires within { IsWithinVariables base.now.vars entry.now.clause }
    requires vars { marks.old.vars ≡ base.now.vars }
    requires empty { marks.old.trues ≡ [] }
    ensures fault { IfOk result (λ fault. fault ≡ fault_of_entry base.now.clauses.items before.now entry.now) }
    ensures kept { OnOk result (marks.new ≡ marks.old) }
{
    marks.oppose(entry.clause.as_clause())?;
    let fault = hints_fault(marks, base, before, entry.hints.numbers())?;
    marks.clear();
    Ok(fault)
}

/// What is wrong with hints under a partial assignment, to which the literals of the unit clauses are added.
fn hints_fault(
    marks: &mut Marks,
    base: &Cnf,
    before: &[Entry],
    hints: &[u64],
) -> Result<Option<LogFault>, AllocError>
    requires checkable { IsCheckable base.now.vars base.now.clauses.items before.now }
    requires vars { marks.old.vars ≡ base.now.vars }
    ensures fault { IfOk result (λ fault. fault ≡ fault_of_hints (length before.now) (base.now.clauses.items ++ clauses_of before.now) marks.old.trues hints.now) }
    ensures vars { OnOk result (marks.new.vars ≡ marks.old.vars) }
{
    let at = before.len();
    let Some((last, others)) = hints.split_last() else {
        return Ok(Some(LogFault::NotFalsified(at)));
    };
    for number in others {
        let Some(lit) = unit_named(marks, base, before, *number) else {
            return Ok(Some(LogFault::BadHint(at)));
        };
        marks.set(lit)?;
    }
    Ok(last_hint_fault(marks, base, before, *last))
}

/// The literal in which the clause of that number is unit.
fn unit_named(marks: &Marks, base: &Cnf, before: &[Entry], number: u64) -> Option<Lit>
    requires checkable { IsCheckable base.now.vars base.now.clauses.items before.now }
    requires vars { marks.now.vars ≡ base.now.vars }
    ensures unit { result ≡ named_unit (base.now.clauses.items ++ clauses_of before.now) marks.now.trues number }
    ensures within { IfSome result (λ lit. lit.var ≤ marks.now.vars) }
{
    marks.unit(clause_named(base, before, number)?)
}

/// What is wrong with the last hint.
fn last_hint_fault(marks: &Marks, base: &Cnf, before: &[Entry], number: u64) -> Option<LogFault>
    requires checkable { IsCheckable base.now.vars base.now.clauses.items before.now }
    requires vars { marks.now.vars ≡ base.now.vars }
    ensures { result ≡ fault_of_last_hint (length before.now) marks.now.trues (named_clause (base.now.clauses.items ++ clauses_of before.now) number) }
{
    let at = before.len();
    match clause_named(base, before, number) {
        None => Some(LogFault::BadHint(at)),
        Some(clause) if marks.is_falsified(clause) => None,
        Some(_) => Some(LogFault::NotFalsified(at)),
    }
}

/// The clause of that number: those from 1 on name the base clauses, and those after them the entries.
fn clause_named<'a>(base: &'a Cnf, before: &'a [Entry], number: u64) -> Option<&'a Clause>
    requires { IsCheckable base.now.vars base.now.clauses.items before.now }
    ensures clause { option_map (λ clause. clause.now) result ≡ named_clause (base.now.clauses.items ++ clauses_of before.now) number }
    ensures within { IfSome result (λ clause. IsWithinVariables base.now.vars clause.now) }
{
    let place = number.checked_sub(1)? as usize;
    if place < base.clauses.len() {
        return Some(&base.clauses[place]);
    }
    let entry = before.get(place - base.clauses.len())?;
    Some(entry.clause.as_clause())
}
