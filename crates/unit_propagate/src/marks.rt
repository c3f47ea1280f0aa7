ghost use Rattle.std.specs.Prelude.{◌≡◌, ℕ, ◌+◌, ◌^◌, ◌<◌, ◌≤◌, [], ◌∷◌, ◌++◌, List, Some, None, IfOk, IfSome, IfNone, All, Contains, length, filter, nat_le, slice_get, vec_capacity};
ghost use Rattle.std.specs.Bool.{OnTrue, OnFalse};
ghost use Rattle.propositional_logic.specs.Literal.{negated};
ghost use Rattle.unit_propagate.specs.Trail.{IsFree, IsTrail, highest_level, literals_of};
ghost use Rattle.unit_propagate.specs.Marks.{MarkList, IsMarks, room_of};

use propositional_logic::Lit;
use std::alloc::{AllocError, Global};
use std::marker::Model;

/// A literal on the trail, with its level and its reason.
#[derive(Clone, Copy, Debug)]
pub struct Mark {
    pub lit: Lit,
    pub level: u32,
    pub reason: Option<u64>,
}

/// The value of a variable: its sign, and the place of its literal on the trail.
#[derive(Clone, Copy, Debug)]
pub struct Slot {
    pub positive: bool,
    pub place: usize,
}

/// The literals of a trail in their order, and tables of the variables' values. Takes no memory once it is made.
#[derive(Debug, Drop)]
pub struct Marks {
    vars: u32,
    slots: Vec<Option<Slot>>,

    // Whether each literal is true, by its number: a small table, which propagation looks into.
    trues: Vec<bool>,
    marks: Vec<Mark>,
}

impl Model for Marks {
    ghost Value = { MarkList };

    ghost view = { λ t. record { vars = t.vars; marks = t.marks.items } };

    ghost invariant = { λ t. IsMarks t.vars t.slots.items t.trues.items t.marks.items (vec_capacity t.marks) };
}

/// A place of a table of flags.
fn flag_at(flags: &[bool], place: usize) -> Option<bool>
    ensures { result ≡ slice_get flags.now place }
{
    flags.get(place).copied()
}

impl Marks {
    /// No literals, with room for one of each variable.
    pub fn new(alloc: Global, vars: u32) -> Result<Marks, AllocError>
        ensures { IfOk result (λ t. t ≡ record { vars = vars; marks = [] }) }
    {
        let room = vars.min(1 << 30) as usize + 1;
        let slots = vec![in alloc; None; room]?;
        let trues = vec![in alloc; false; 2 * room]?;
        let marks = Vec::with_capacity(alloc, room)?;
        Ok(Marks {
            vars,
            slots,
            trues,
            marks,
        })
    }

    pub fn len(&self) -> usize
        ensures len { result ≡ length self.now.marks }
        ensures small { result ≤ room_of self.now.vars }
        ensures trail { IsTrail self.now.vars self.now.marks }
    {
        self.marks.len()
    }

    /// The literal at place `i`, from 0.
    pub fn at(&self, i: usize) -> Mark
        requires { i < length self.now.marks }
        ensures value { slice_get self.now.marks i ≡ Some result }
        ensures trail { IsTrail self.now.vars self.now.marks }
    {
        self.marks[i]
    }

    /// The place of the literal that gives a variable its value.
    pub fn slot(&self, var: u32) -> Option<Slot>
        ensures some { IfSome result (λ s. (m : Mark) × (slice_get self.now.marks s.place ≡ Some m) × (m.lit ≡ record { var = var; positive = s.positive })) }
        ensures none { IfNone result (IsFree self.now.marks var) }
        ensures trail { IsTrail self.now.vars self.now.marks }
    {
        self.slots.get(var as usize).copied().flatten()
    }

    /// The highest level, which is that of the last literal.
    pub fn level(&self) -> u32
        ensures value { result ≡ highest_level self.now.marks }
        ensures small { result ≤ length self.now.marks }
        ensures fits { result ≤ 2 ^ 30 + 1 }
        ensures room { length self.now.marks ≤ 2 ^ 30 + 1 }
        ensures trail { IsTrail self.now.vars self.now.marks }
    {
        match self.marks.last() {
            Some(mark) => mark.level,
            None => 0,
        }
    }

    /// Puts a literal last, on the highest level or above it.
    pub fn push(&mut self, lit: Lit, level: u32, reason: Option<u64>)
        requires within { lit.var ≤ self.old.vars }
        requires free { IsFree self.old.marks lit.var }
        requires above { highest_level self.old.marks ≤ level }
        requires next { level ≤ highest_level self.old.marks + 1 }
        ensures { self.new ≡ record self.old { marks = self.old.marks ++ (record { lit = lit; level = level; reason = reason }) ∷ [] } }
    {
        let place = self.marks.len();
        let positive = lit.is_positive();
        let var = lit.var() as usize;
        self.slots[var] = Some(Slot { positive, place });
        self.trues[lit.code() as usize] = true;
        self.marks.push(Mark { lit, level, reason }).unwrap();
    }

    /// Takes the last literal off.
    fn pop(&mut self) -> Option<Mark>
        ensures some { IfSome result (λ m. self.old.marks ≡ self.new.marks ++ m ∷ []) }
        ensures none { IfNone result (self.old.marks ≡ []) }
        ensures rest { IfNone result (self.new.marks ≡ []) }
        ensures vars { self.new.vars ≡ self.old.vars }
    {
        let last = self.marks.pop()?;
        let var = last.lit.var() as usize;
        self.slots[var] = None;
        self.trues[last.lit.code() as usize] = false;
        Some(last)
    }

    /// Takes all literals above a level off.
    pub fn back_to(&mut self, level: u32)
        ensures exact { self.new ≡ record self.old { marks = filter (λ m. nat_le m.level level) self.old.marks } }
        ensures prefix { (rest : List Mark) × (self.old.marks ≡ self.new.marks ++ rest) }
    {
        while self.level() > level {
            let _mark = self.pop();
        }
    }

    /// Takes all literals off.
    pub fn clear(&mut self)
        ensures { self.new ≡ record self.old { marks = [] } }
    {
        while let Some(_mark) = self.pop() {}
    }

    /// Whether a literal is true.
    pub fn is_true(&self, lit: Lit) -> bool
        ensures yes { OnTrue result (Contains (literals_of self.now.marks) lit) }
        ensures no { OnFalse result (Contains (literals_of self.now.marks) lit → ⊥) }
        ensures trail { IsTrail self.now.vars self.now.marks }
    {
        flag_at(&self.trues, lit.code() as usize).unwrap_or(false)
    }

    /// Whether a literal is false.
    pub fn is_false(&self, lit: Lit) -> bool
        ensures yes { OnTrue result (Contains (literals_of self.now.marks) (negated lit)) }
        ensures no { OnFalse result (Contains (literals_of self.now.marks) (negated lit) → ⊥) }
        ensures trail { IsTrail self.now.vars self.now.marks }
    {
        self.is_true(lit.negated())
    }
}
