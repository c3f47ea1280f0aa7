ghost use Rattle.std.specs.Prelude.{◌≡◌, ℕ, ◌≤◌, ◌<◌, ◌+◌, ◌*◌, [], ◌∷◌, List, IfOk, OnOk, OnErr, IfSome, IfNone, map, reverse, Some, drop, length};
ghost use Rattle.propositional_logic.specs.Literal.{Literal, negated};
ghost use Rattle.propositional_logic.specs.Clause.{IsWithinVariables};
ghost use Rattle.propositional_logic.specs.Partial.{is_true_in, is_falsified, unit_of, unfalsified};
ghost use Rattle.log_checker.specs.Marked.{Trues, IsMarked};
ghost use Rattle.propositional_logic.specs.Codes.{code_of};

use propositional_logic::{Clause, Lit};
use std::alloc::{AllocError, Global};
use std::marker::Model;

/// A partial assignment that is looked up in a table, and taken back at the cost of what it set.
///
/// Seen by contracts as the number of variables and the literals that are true, the latest first.
#[derive(Drop)]
pub(crate) struct Marks {
    /// Whether the literal with that place is true.
    table: Vec<bool>,
    /// The literals that are true, the latest last.
    trail: Vec<Lit>,
    vars: u32,
}

impl Model for Marks {
    ghost Value = { Trues };

    ghost view = { λ m. record { vars = m.vars; trues = reverse m.trail.items } };

    ghost invariant = { λ m. IsMarked m.vars m.table.items (reverse m.trail.items) };
}

/// A literal that isn't false, and those after it.
#[derive(Clone, Copy)]
struct Unfalsified<'a> {
    first: Lit,
    rest: &'a [Lit],
}

impl Marks {
    /// No literal is true.
    pub(crate) fn new(alloc: Global, vars: u32) -> Result<Marks, AllocError>
        ensures { IfOk result (λ marks. marks ≡ record { vars = vars; trues = [] }) }
    {
        let table = vec![in alloc; false; 2 * vars as usize + 2]?;
        Ok(Marks {
            table,
            trail: Vec::new(alloc),
            vars,
        })
    }

    pub(crate) fn is_true(&self, lit: Lit) -> bool
        requires { lit.var ≤ self.now.vars }
        ensures { result ≡ is_true_in self.now.trues lit }
    {
        self.table[place_of(lit)]
    }

    /// Makes a literal true.
    pub(crate) fn set(&mut self, lit: Lit) -> Result<(), AllocError>
        requires { lit.var ≤ self.old.vars }
        ensures ok { OnOk result (self.new ≡ record { vars = self.old.vars; trues = lit ∷ self.old.trues }) }
    {
        self.trail.push(lit)?;
        self.table[place_of(lit)] = true;
        Ok(())
    }

    /// Takes all literals back. Costs their number.
    pub(crate) fn clear(&mut self)
        ensures { self.new ≡ record { vars = self.old.vars; trues = [] } }
    {
        unmark(&mut self.table, &mut self.trail, self.vars);
    }

    /// Makes the opposites of a clause's literals true.
    pub(crate) fn oppose(&mut self, clause: &Clause) -> Result<(), AllocError>
        requires within { IsWithinVariables self.old.vars clause.now }
        requires empty { self.old.trues ≡ [] }
        ensures { OnOk result (self.new ≡ record { vars = self.old.vars; trues = map negated clause.now }) }
    {
        let lits = clause.lits();
        for i in (0..lits.len()).rev() {
            self.set(lits[i].negated())?;
        }
        Ok(())
    }

    /// The literal in which a clause is unit, if it is.
    pub(crate) fn unit(&self, clause: &Clause) -> Option<Lit>
        requires { IsWithinVariables self.now.vars clause.now }
        ensures unit { result ≡ unit_of self.now.trues clause.now }
        ensures within { IfSome result (λ lit. lit.var ≤ self.now.vars) }
    {
        let Some(found) = self.next_unfalsified(clause.lits()) else {
            return None;
        };
        if !self.are_false(found.rest) {
            return None;
        }
        if self.is_true(found.first) {
            return None;
        }
        Some(found.first)
    }

    /// Whether all literals of a clause are false.
    pub(crate) fn is_falsified(&self, clause: &Clause) -> bool
        requires { IsWithinVariables self.now.vars clause.now }
        ensures { result ≡ is_falsified self.now.trues clause.now }
    {
        self.are_false(clause.lits())
    }

    /// Whether all of these literals are false.
    fn are_false(&self, lits: &[Lit]) -> bool
        requires { IsWithinVariables self.now.vars lits.now }
        ensures { result ≡ is_falsified self.now.trues lits.now }
    {
        for lit in lits {
            if !self.is_true(lit.negated()) {
                return false;
            }
        }
        true
    }

    /// The first literal that isn't false, and those after it.
    fn next_unfalsified<'a>(&self, lits: &'a [Lit]) -> Option<Unfalsified<'a>>
        requires { IsWithinVariables self.now.vars lits.now }
        ensures some { IfSome result (λ found. unfalsified self.now.trues lits.now ≡ found.first ∷ unfalsified self.now.trues found.rest.now) }
        ensures within { IfSome result (λ found. (found.first.var ≤ self.now.vars) × IsWithinVariables self.now.vars found.rest.now) }
        ensures none { IfNone result (unfalsified self.now.trues lits.now ≡ []) }
    {
        for (i, lit) in lits.iter().enumerate() {
            if !self.is_true(lit.negated()) {
                return Some(Unfalsified {
                    first: *lit,
                    rest: &lits[i + 1..],
                });
            }
        }
        None
    }
}

/// The place of a literal in a table.
fn place_of(lit: Lit) -> usize
    ensures { result ≡ code_of lit }
{
    let sign = if lit.is_positive() { 1 } else { 0 };
    2 * lit.var() as usize + sign
}

/// Takes the marks of the trail's literals out of a table, and the literals off the trail.
fn unmark(table: &mut [bool], trail: &mut Vec<Lit>, vars: u32)
    requires { IsMarked vars table.old (reverse trail.old.items) }
    ensures table { IsMarked vars table.new [] }
    ensures trail { trail.new.items ≡ [] }
{
    while let Some(lit) = trail.pop() {
        table[place_of(lit)] = false;
    }
}
