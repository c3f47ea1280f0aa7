//! The order in which gates can be worked out.

ghost use Rattle.std.specs.Prelude.{◌≡◌, ℕ, ◌+◌, ◌-◌, ◌/◌, ◌<◌, ◌↔◌, [], true, false, None, OnOk, IfOk, IfSome, IfNone, IsTrue, MatchOption, length, slice_index, slice_index_or};
ghost use Rattle.aiger_text.specs.declared.walks.Mark.TheVariants.{New, Open, Done};
ghost use Rattle.aiger_text.specs.CircuitType.{IsOrder};
ghost use Rattle.aiger_text.specs.Walks.{Finds, IsWalk, MayEnter, Goes, AtOperand, AtGate, HasCycle, HaveVariables, mark_at};

use crate::circuits::Gate;
use std::alloc::{AllocError, Global};

/// How far a walk has come with a gate.
#[derive(Clone, Copy)]
enum Mark {
    New,
    Open,
    Done,
}

/// What a walk does next.
#[derive(Clone, Copy)]
enum Next {
    /// The gate's operands are done, and so is the gate.
    Close,
    /// An operand is this gate, which is new.
    Enter(usize),
    /// An operand is this gate, which is open: it depends on itself.
    Meet(usize),
}

/// A walk from gates to the gates that they use: the stack's gates are open, each using the next one.
#[derive(Drop)]
struct Walk {
    marks: Vec<Mark>,
    stack: Vec<usize>,
    order: Vec<usize>,
}

/// The gate that has the literal's variable.
pub(crate) fn gate_of(places: &[Option<usize>], literal: u32) -> Option<usize>
    ensures { result ≡ slice_index_or places.now (literal / 2) None }
{
    match places.get((literal / 2) as usize) {
        Some(place) => *place,
        None => None,
    }
}

/// What an operand asks for.
fn at_operand(marks: &[Mark], gates: &[Gate], places: &[Option<usize>], literal: u32) -> Next
    requires marks { length marks.now ≡ length gates.now }
    requires finds { Finds gates.now places.now }
    ensures { AtOperand gates.now marks.now literal result }
{
    let Some(place) = gate_of(places, literal) else {
        return Next::Close;
    };
    match marks[place] {
        Mark::New => Next::Enter(place),
        Mark::Open => Next::Meet(place),
        Mark::Done => Next::Close,
    }
}

/// What a gate asks for by its operands.
fn at_gate(marks: &[Mark], gates: &[Gate], places: &[Option<usize>], gate: usize) -> Next
    requires marks { length marks.now ≡ length gates.now }
    requires finds { Finds gates.now places.now }
    requires gate { gate < length gates.now }
    ensures { AtGate gates.now marks.now gate result }
{
    match at_operand(marks, gates, places, gates[gate].left) {
        Next::Close => match at_operand(marks, gates, places, gates[gate].right) {
            Next::Close => Next::Close,
            Next::Enter(place) => Next::Enter(place),
            Next::Meet(place) => Next::Meet(place),
        },
        Next::Enter(place) => Next::Enter(place),
        Next::Meet(place) => Next::Meet(place),
    }
}

impl Walk {
    /// Opens a new gate.
    fn enter(&mut self, gates: &[Gate], place: usize) -> Result<(), AllocError>
        requires walk { IsWalk gates.now self.old.marks.items self.old.stack.items self.old.order.items }
        requires place { MayEnter gates.now self.old.marks.items self.old.stack.items place }
        ensures walk { OnOk result (IsWalk gates.now self.new.marks.items self.new.stack.items self.new.order.items) }
        ensures goes { OnOk result (Goes self.old.marks.items self.new.marks.items) }
        ensures entered { OnOk result (mark_at self.new.marks.items place ≡ Open) }
    {
        prove!(place < gates.len());
        self.stack.push(place)?;
        self.marks[place] = Mark::Open;
        Ok(())
    }

    /// Takes the last gate from the stack into the order.
    fn close(&mut self, gates: &[Gate]) -> Result<(), AllocError>
        requires walk { IsWalk gates.now self.old.marks.items self.old.stack.items self.old.order.items }
        requires some { 0 < length self.old.stack.items }
        requires ready { AtGate gates.now self.old.marks.items (slice_index self.old.stack.items (length self.old.stack.items - 1)) Next.Close }
        ensures walk { OnOk result (IsWalk gates.now self.new.marks.items self.new.stack.items self.new.order.items) }
        ensures goes { OnOk result (Goes self.old.marks.items self.new.marks.items) }
    {
        let Some(place) = self.stack.pop() else {
            return Ok(());
        };
        prove!(place < gates.len());
        self.order.push(place)?;
        self.marks[place] = Mark::Done;
        Ok(())
    }

    /// The last gate on the stack.
    fn top(&self) -> Option<usize>
        ensures last { IfSome result (λ place. (0 < length self.now.stack.items) × (slice_index self.now.stack.items (length self.now.stack.items - 1) ≡ place)) }
        ensures none { IfNone result (self.now.stack.items ≡ []) }
    {
        self.stack.last().copied()
    }

    /// Goes one step from the last gate on the stack; false where a gate depends on itself.
    fn step(
        &mut self,
        gates: &[Gate],
        places: &[Option<usize>],
        top: usize,
    ) -> Result<bool, AllocError>
        requires walk { IsWalk gates.now self.old.marks.items self.old.stack.items self.old.order.items }
        requires finds { Finds gates.now places.now }
        requires some { 0 < length self.old.stack.items }
        requires top { slice_index self.old.stack.items (length self.old.stack.items - 1) ≡ top }
        ensures walk { IfOk result (λ on. on ≡ true → IsWalk gates.now self.new.marks.items self.new.stack.items self.new.order.items) }
        ensures goes { IfOk result (λ on. on ≡ true → Goes self.old.marks.items self.new.marks.items) }
        ensures cycle { IfOk result (λ on. on ≡ false → HasCycle gates.now) }
    {
        match at_gate(&self.marks, gates, places, top) {
            Next::Close => self.close(gates)?,
            Next::Enter(place) => self.enter(gates, place)?,
            Next::Meet(_) => return Ok(false),
        }
        Ok(true)
    }

    /// Walks on until nothing is open; false where a gate depends on itself.
    fn run(&mut self, gates: &[Gate], places: &[Option<usize>]) -> Result<bool, AllocError>
        requires walk { IsWalk gates.now self.old.marks.items self.old.stack.items self.old.order.items }
        requires finds { Finds gates.now places.now }
        ensures walk { IfOk result (λ on. on ≡ true → IsWalk gates.now self.new.marks.items self.new.stack.items self.new.order.items) }
        ensures keeps { IfOk result (λ on. on ≡ true → (k : ℕ) → mark_at self.old.marks.items k ≡ Done → mark_at self.new.marks.items k ≡ Done) }
        ensures no_new { IfOk result (λ on. on ≡ true → (k : ℕ) → mark_at self.new.marks.items k ≡ New → mark_at self.old.marks.items k ≡ New) }
        ensures empty { IfOk result (λ on. on ≡ true → self.new.stack.items ≡ []) }
        ensures cycle { IfOk result (λ on. on ≡ false → HasCycle gates.now) }
    {
        while let Some(top) = self.top() {
            if !self.step(gates, places, top)? {
                return Ok(false);
            }
        }
        Ok(true)
    }

    /// Whether a gate is new.
    fn is_new(&self, place: usize) -> bool
        requires { place < length self.now.marks.items }
        ensures { IsTrue result ↔ (mark_at self.now.marks.items place ≡ New) }
    {
        match self.marks[place] {
            Mark::New => true,
            Mark::Open => false,
            Mark::Done => false,
        }
    }
}

/// The places of the gates in an order in which each stands behind those that it uses, or none where a gate depends on
/// itself. It is linear in the gates.
pub(crate) fn sorted_places(
    alloc: Global,
    gates: &[Gate],
    places: &[Option<usize>],
) -> Result<Option<Vec<usize>>, AllocError>
    requires { Finds gates.now places.now }
    ensures { IfOk result (λ order. MatchOption order (HasCycle gates.now) (λ order. IsOrder gates.now order.items)) }
{
    let mut walk = Walk {
        marks: vec![in alloc; Mark::New; gates.len()]?,
        stack: Vec::new(alloc),
        order: Vec::new(alloc),
    };
    for place in 0..gates.len() {
        if walk.is_new(place) {
            walk.enter(gates, place)?;
            if !walk.run(gates, places)? {
                return Ok(None);
            }
        }
    }
    Ok(Some(walk.order))
}

/// The place of each gate, at its variable.
pub(crate) fn gate_places(
    alloc: Global,
    variables: usize,
    gates: &[Gate],
) -> Result<Vec<Option<usize>>, AllocError>
    requires { HaveVariables gates.now variables }
    ensures { IfOk result (λ places. Finds gates.now places.items) }
{
    let mut places = vec![in alloc; None; variables]?;
    for place in 0..gates.len() {
        places[(gates[place].literal / 2) as usize] = Some(place);
    }
    Ok(places)
}
