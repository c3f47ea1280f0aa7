ghost use Rattle.std.specs.Prelude.{◌≡◌, ℕ, ◌+◌, ◌<◌, ◌≤◌, ◌^◌, List, [], ◌∷◌, ◌++◌, Some, filter, length, slice_get, slice_set, IfOk, IfSome, IfNone, OnOk, OnErr};
ghost use Rattle.propositional_logic.specs.Literal.{Literal};
ghost use Rattle.propositional_logic.specs.Codes.{code_of, decoded};
ghost use Rattle.unit_propagate.specs.Arena.{IsPlace, Closes, Pushes, AddsClause, TakesOff, index_of};
ghost use Rattle.unit_propagate.specs.Watches.{ordered, exchanged, differs as differs_from};

use propositional_logic::Lit;
use std::alloc::{AllocError, Global};
use std::marker::Model;

/// Where the literals of a clause begin in the array, and where they end. The array has fewer than 2^31 places.
#[derive(Clone, Copy, Debug)]
pub struct Span {
    pub start: u32,
    pub end: u32,
}

/// Clauses, whose literals stand one behind the other in one array. Before those of each stand its number, from 0, and their count, so
/// that who has the place of a clause looks at the array alone. Seen by contracts as the list of the clauses, with their places.
#[derive(Debug, Drop)]
pub struct Arena {
    lits: Vec<Lit>,
    spans: Vec<Span>,
}

impl Model for Arena {
    ghost use Rattle.std.specs.Prelude.{length, ◌+◌, ◌<◌, ◌^◌};
    ghost use Rattle.unit_propagate.specs.Arena.{ArenaModel, parts_at, starts_of, AreSpans, AreHeaded};

    ghost Value = { ArenaModel };

    ghost view = { λ a. record { clauses = parts_at a.lits.items a.spans.items; starts = starts_of a.spans.items; next = length a.lits.items + 2 } };

    ghost invariant = { λ a. AreSpans (length a.lits.items) a.spans.items × AreHeaded a.lits.items a.spans.items × (length a.spans.items < 2 ^ 32) };
}

/// A number as it stands in the array: as the literal of a number two greater, since those of literals begin at 2.
fn counted(number: u32) -> Lit
    requires { number < 2 ^ 31 }
    ensures { result ≡ decoded (number + 2) }
{
    Lit::of_code(number + 2)
}

/// The number that stands in the array as a literal.
fn count_of(lit: Lit) -> u32
    ensures { result + 2 ≡ code_of lit }
{
    lit.code() - 2
}

/// The span of one clause more than so many. Past the last place of an array there is no memory.
fn span_of(start: usize, end: usize, count: usize) -> Result<Span, AllocError>
    requires { start ≤ end }
    ensures value { IfOk result (λ s. s ≡ record { start = start; end = end }) }
    ensures few { OnOk result (count + 1 < 2 ^ 31) }
    ensures small { OnOk result (end < 2 ^ 31) }
{
    if end.max(count) >= (1 << 31) - 1 {
        return Err(AllocError);
    }
    Ok(Span {
        start: start as u32,
        end: end as u32,
    })
}

/// Whether a literal is neither of two.
fn differs(lit: Lit, first: Lit, second: Lit) -> bool
    ensures { result ≡ differs_from first second lit }
{
    if lit == first {
        return false;
    }
    lit != second
}

/// Puts a literal behind others, unless it is one of two.
fn push_other(out: &mut Vec<Lit>, lit: Lit, first: Lit, second: Lit) -> Result<(), AllocError>
    ensures ok { OnOk result (out.new.items ≡ out.old.items ++ filter (differs_from first second) (lit ∷ [])) }
    ensures err { OnErr result (out.new.items ≡ out.old.items) }
{
    if !differs(lit, first, second) {
        return Ok(());
    }
    out.push(lit)?;
    Ok(())
}

/// Puts literals behind others: two given ones first, and then those of a clause that are neither.
fn append(out: &mut Vec<Lit>, lits: &[Lit], first: Lit, second: Lit) -> Result<(), AllocError>
    ensures ok { OnOk result (out.new.items ≡ out.old.items ++ ordered lits.now first second) }
    ensures err { OnErr result ((more : List Literal) × (out.new.items ≡ out.old.items ++ more)) }
{
    out.push(first)?;
    out.push(second)?;
    for lit in lits {
        push_other(out, *lit, first, second)?;
    }
    Ok(())
}

/// Makes room behind others for the number of a clause and the count of its literals.
fn open_clause(out: &mut Vec<Lit>) -> Result<(), AllocError>
    ensures ok { OnOk result (out.new.items ≡ out.old.items ++ decoded 2 ∷ decoded 2 ∷ []) }
    ensures err { OnErr result ((more : List Literal) × (out.new.items ≡ out.old.items ++ more)) }
{
    out.push(counted(0))?;
    out.push(counted(0))?;
    Ok(())
}

/// What stands from a place on is one clause more: writes its number and the count of its literals before it.
fn close_clause(out: &mut Vec<Lit>, spans: &mut Vec<Span>, start: usize) -> Result<(), AllocError>
    requires room { 2 ≤ start }
    requires within { start ≤ length out.old.items }
    ensures ok { OnOk result (Closes out.old.items out.new.items spans.old.items spans.new.items start) }
    ensures err { OnErr result (out.new.items ≡ out.old.items) }
    ensures err_spans { OnErr result (spans.new.items ≡ spans.old.items) }
{
    let number = spans.len();
    let span = span_of(start, out.len(), number)?;
    spans.push(span)?;
    out[start - 2] = counted(number as u32);
    out[start - 1] = counted(span.end - span.start);
    Ok(())
}

/// Puts a clause behind others, two of its literals first.
fn push_clause(
    out: &mut Vec<Lit>,
    spans: &mut Vec<Span>,
    lits: &[Lit],
    first: Lit,
    second: Lit,
) -> Result<(), AllocError>
    ensures ok { OnOk result (Pushes out.old.items out.new.items spans.old.items spans.new.items (ordered lits.now first second)) }
    ensures err { OnErr result ((more : List Literal) × (out.new.items ≡ out.old.items ++ more)) }
    ensures err_spans { OnErr result (spans.new.items ≡ spans.old.items) }
{
    let start = out.len() + 2;
    open_clause(out)?;
    append(out, lits, first, second)?;
    close_clause(out, spans, start)
}

/// Puts a clause of one literal behind others.
fn push_single(out: &mut Vec<Lit>, spans: &mut Vec<Span>, lit: Lit) -> Result<(), AllocError>
    ensures ok { OnOk result (Pushes out.old.items out.new.items spans.old.items spans.new.items (lit ∷ [])) }
    ensures err { OnErr result ((more : List Literal) × (out.new.items ≡ out.old.items ++ more)) }
    ensures err_spans { OnErr result (spans.new.items ≡ spans.old.items) }
{
    let start = out.len() + 2;
    open_clause(out)?;
    out.push(lit)?;
    close_clause(out, spans, start)
}

impl Arena {
    /// No clauses.
    pub fn new(alloc: Global) -> Arena
        ensures { result ≡ record { clauses = []; starts = []; next = 2 } }
    {
        Arena {
            lits: Vec::new(alloc),
            spans: Vec::new(alloc),
        }
    }

    /// The number of clauses.
    pub fn len(&self) -> usize
        ensures value { result ≡ length self.now.clauses }
        ensures places { length self.now.starts ≡ length self.now.clauses }
        ensures fresh { index_of self.now.starts self.now.next ≡ length self.now.starts }
        ensures small { result < 2 ^ 32 }
    {
        self.spans.len()
    }

    /// The literals of a clause.
    pub fn clause(&self, k: usize) -> &[Lit]
        requires { k < length self.now.clauses }
        ensures { slice_get self.now.clauses k ≡ Some result.now }
    {
        let span = self.spans[k];
        &self.lits[span.start as usize..span.end as usize]
    }

    /// The place at which the next clause will begin, unless there is no place for it.
    pub fn next(&self) -> Option<u32>
        ensures value { IfSome result (λ p. p ≡ self.now.next) }
        ensures places { length self.now.starts ≡ length self.now.clauses }
        ensures fresh { index_of self.now.starts self.now.next ≡ length self.now.starts }
    {
        let next = self.lits.len() + 2;
        if next >= 1 << 31 {
            return None;
        }
        Some(next as u32)
    }

    /// The literals of the clause that begins at a place.
    pub fn at(&self, place: u32) -> &[Lit]
        requires { IsPlace self.now.starts place }
        ensures { slice_get self.now.clauses (index_of self.now.starts place) ≡ Some result.now }
    {
        let start = place as usize;
        let count = count_of(self.lits[start - 1]) as usize;
        &self.lits[start..start + count]
    }

    /// The number, from 0, of the clause that begins at a place.
    pub fn number(&self, place: u32) -> u32
        requires { IsPlace self.now.starts place }
        ensures { result ≡ index_of self.now.starts place }
    {
        count_of(self.lits[place as usize - 2])
    }

    /// Two literals of the clause that begins at a place change places.
    pub fn exchange(&mut self, place: u32, i: usize, j: usize)
        requires { (c : List Literal) × (slice_get self.old.clauses (index_of self.old.starts place) ≡ Some c) × (i < length c) × (j < length c) }
        ensures { (c : List Literal) (a b : Literal) → slice_get self.old.clauses (index_of self.old.starts place) ≡ Some c → slice_get c i ≡ Some a → slice_get c j ≡ Some b → self.new ≡ record self.old { clauses = slice_set self.old.clauses (index_of self.old.starts place) (exchanged c i j a b) } }
    {
        let start = place as usize;
        let lit = self.lits[start + i];
        self.lits[start + i] = self.lits[start + j];
        self.lits[start + j] = lit;
    }

    /// A clause behind the others, two of its literals first.
    pub fn push(&mut self, lits: &[Lit], first: Lit, second: Lit) -> Result<(), AllocError>
        ensures ok { OnOk result (AddsClause self.old self.new (ordered lits.now first second)) }
        ensures err { OnErr result (self.new ≡ self.old) }
    {
        let end = self.lits.len();
        if let Err(error) = push_clause(&mut self.lits, &mut self.spans, lits, first, second) {
            self.lits.truncate(end);
            return Err(error);
        }
        Ok(())
    }

    /// A clause of one literal behind the others.
    pub fn push_alone(&mut self, lit: Lit) -> Result<(), AllocError>
        ensures ok { OnOk result (AddsClause self.old self.new (lit ∷ [])) }
        ensures err { OnErr result (self.new ≡ self.old) }
    {
        let end = self.lits.len();
        if let Err(error) = push_single(&mut self.lits, &mut self.spans, lit) {
            self.lits.truncate(end);
            return Err(error);
        }
        Ok(())
    }

    /// Takes the last clause off.
    pub fn pop(&mut self)
        ensures { TakesOff self.old self.new }
    {
        let Some(span) = self.spans.pop() else {
            return;
        };
        self.lits.truncate(span.start as usize - 2);
    }
}
