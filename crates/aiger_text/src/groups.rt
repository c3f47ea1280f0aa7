//! The first gate that depends on itself, in one walk: groups of gates that depend on each other are found by the
//! path-based algorithm for strongly connected components.

ghost use Rattle.std.specs.Prelude.{◌≡◌, ℕ, ◌+◌, ◌-◌, ◌/◌, ◌<◌, ◌≤◌, ◌≢◌, ◌↔◌, ◌⊎◌, ◌++◌, ◌∷◌, [], true, false, None, Some, OnOk, IfOk, IfSome, IfNone, IsTrue, MatchOption, Contains, length, take, slice_index, slice_index_or};
ghost use Rattle.aiger_text.specs.declared.groups.Stage.TheVariants.{New, Open, Done};
ghost use Rattle.aiger_text.specs.declared.groups.Wish.TheVariants.{Nothing, Join};
ghost use Rattle.aiger_text.specs.CircuitType.{gate_at};
ghost use Rattle.aiger_text.specs.Walks.{Finds, Uses, IsOnCycle, IsFirstCycle};
ghost use Rattle.aiger_text.specs.Groups.{IsFirstDone, IsTour, IsGreatest, IsDone, AtOperand, AtGate, Closes, Goes, CutsGroup, Rises, stage_at, left_to_do};

use crate::circuits::Gate;
use crate::walks::gate_of;
use std::alloc::{AllocError, Global};

/// How far a tour has come with a gate.
#[derive(Clone, Copy)]
enum Stage {
    New,
    /// It stands at this place among the open gates.
    Open(usize),
    /// It is done, and depends on itself or doesn't.
    Done(bool),
}

/// What a gate wishes for by its operands.
#[derive(Clone, Copy)]
enum Wish {
    /// They are done, or in the gate's own group.
    Nothing,
    /// An operand is this gate, which is new.
    Enter(usize),
    /// An operand is open at this place, which is in an earlier group.
    Join(usize),
}

/// A tour along gates that gates use. The open gates stand in the order in which they were entered; those that are
/// followed are the path. Each group is a piece of the open gates, which depend on each other.
#[derive(Drop)]
struct Tour {
    stages: Vec<Stage>,
    opened: Vec<usize>,
    /// The places of the path among the open gates.
    path: Vec<usize>,
    /// The places at which the groups begin.
    starts: Vec<usize>,
}

/// What an operand wishes for, where the last group begins at `start`.
fn wish_of_operand(
    stages: &[Stage],
    gates: &[Gate],
    places: &[Option<usize>],
    start: usize,
    literal: u32,
) -> Wish
    requires stages { length stages.now ≡ length gates.now }
    requires finds { Finds gates.now places.now }
    ensures { AtOperand gates.now stages.now start literal result }
{
    let Some(gate) = gate_of(places, literal) else {
        return Wish::Nothing;
    };
    match stages[gate] {
        Stage::New => Wish::Enter(gate),
        Stage::Open(place) => {
            if place < start {
                Wish::Join(place)
            } else {
                Wish::Nothing
            }
        }
        Stage::Done(_) => Wish::Nothing,
    }
}

/// What a gate wishes for by its operands.
fn wish_of(
    stages: &[Stage],
    gates: &[Gate],
    places: &[Option<usize>],
    start: usize,
    gate: usize,
) -> Wish
    requires stages { length stages.now ≡ length gates.now }
    requires finds { Finds gates.now places.now }
    requires gate { gate < length gates.now }
    ensures { AtGate gates.now stages.now start gate result }
{
    match wish_of_operand(stages, gates, places, start, gates[gate].left) {
        Wish::Nothing => match wish_of_operand(stages, gates, places, start, gates[gate].right) {
            Wish::Nothing => Wish::Nothing,
            Wish::Enter(other) => Wish::Enter(other),
            Wish::Join(place) => Wish::Join(place),
        },
        Wish::Enter(other) => Wish::Enter(other),
        Wish::Join(place) => Wish::Join(place),
    }
}

/// Whether a gate is an operand of its own.
fn uses_itself(gate: Gate) -> bool
    ensures { IsTrue result ↔ ((gate.left / 2 ≡ gate.literal / 2) ⊎ (gate.right / 2 ≡ gate.literal / 2)) }
{
    gate.left / 2 == gate.literal / 2 || gate.right / 2 == gate.literal / 2
}

/// Whether the gates of a group depend on themselves, which begins at a place and ends with the open gates: there are two
/// of them, or the one uses itself.
fn is_cyclic(opened: &[usize], gates: &[Gate], start: usize) -> bool
    requires inside { start < length opened.now }
    requires gate { slice_index opened.now start < length gates.now }
    ensures { IsTrue result ↔ ((start + 1 < length opened.now) ⊎ Uses gates.now (slice_index opened.now start) (slice_index opened.now start)) }
{
    opened.len() - start > 1 || uses_itself(gates[opened[start]])
}

/// Makes the gates from a place on done.
fn close_from(stages: &mut [Stage], opened: &[usize], from: usize, on_cycle: bool)
    requires within { (i : ℕ) → i < length opened.now → slice_index opened.now i < length stages.old }
    requires from { from ≤ length opened.now }
    ensures { Closes stages.old stages.new opened.now from (length opened.now) on_cycle }
{
    for place in from..opened.len() {
        stages[opened[place]] = Stage::Done(on_cycle);
    }
}

/// The last number of a list.
fn last_of(numbers: &[usize]) -> Option<usize>
    ensures last { IfSome result (λ number. (0 < length numbers.now) × (slice_index numbers.now (length numbers.now - 1) ≡ number)) }
    ensures none { IfNone result (numbers.now ≡ []) }
{
    numbers.last().copied()
}

/// Takes away the starts that are greater than a place.
fn cut_starts(starts: &mut Vec<usize>, most: usize)
    requires { Rises starts.old.items }
    ensures { CutsGroup starts.old.items starts.new.items most }
{
    while let Some(start) = last_of(starts) {
        if start <= most {
            return;
        }
        let Some(_) = starts.pop() else {
            return;
        };
    }
}

impl Tour {
    /// Opens a new gate, as a group of its own.
    fn enter(&mut self, gates: &[Gate], gate: usize) -> Result<(), AllocError>
        requires tour { IsTour gates.now self.old.stages.items self.old.opened.items self.old.path.items self.old.starts.items }
        requires gate { gate < length gates.now }
        requires new { stage_at self.old.stages.items gate ≡ New }
        requires used { (top : ℕ) → IsGreatest self.old.path.items top → Uses gates.now (slice_index self.old.opened.items top) gate }
        ensures tour { OnOk result (IsTour gates.now self.new.stages.items self.new.opened.items self.new.path.items self.new.starts.items) }
        ensures goes { OnOk result (Goes self.old.stages.items self.new.stages.items) }
        ensures entered { OnOk result (stage_at self.new.stages.items gate ≡ Open (length self.old.opened.items)) }
        ensures lower { OnOk result (left_to_do self.new.stages.items self.new.path.items self.new.starts.items < left_to_do self.old.stages.items self.old.path.items self.old.starts.items) }
    {
        prove!(gate < gates.len());
        let place = self.opened.len();
        self.opened.push(gate)?;
        self.path.push(place)?;
        self.starts.push(place)?;
        self.stages[gate] = Stage::Open(place);
        Ok(())
    }
    /// Joins the groups behind a place, where a gate of the last group uses the one at that place.
    fn join(&mut self, gates: &[Gate], top: usize, start: usize, place: usize)
        requires tour { IsTour gates.now self.old.stages.items self.old.opened.items self.old.path.items self.old.starts.items }
        requires top { IsGreatest self.old.path.items top }
        requires start { IsGreatest self.old.starts.items start }
        requires wish { AtGate gates.now self.old.stages.items start (slice_index self.old.opened.items top) (Join place) }
        ensures tour { IsTour gates.now self.new.stages.items self.new.opened.items self.new.path.items self.new.starts.items }
        ensures stages { self.new.stages.items ≡ self.old.stages.items }
        ensures lower { left_to_do self.new.stages.items self.new.path.items self.new.starts.items < left_to_do self.old.stages.items self.old.path.items self.old.starts.items }
    {
        cut_starts(&mut self.starts, place);
    }
    /// Makes the last group done, which begins with the gate that is followed last.
    fn finish(&mut self, gates: &[Gate], places: &[Option<usize>], top: usize)
        requires tour { IsTour gates.now self.old.stages.items self.old.opened.items self.old.path.items self.old.starts.items }
        requires finds { Finds gates.now places.now }
        requires top { IsGreatest self.old.path.items top }
        requires start { IsGreatest self.old.starts.items top }
        requires inside { top < length self.old.opened.items }
        requires gate { slice_index self.old.opened.items top < length gates.now }
        requires wish { AtGate gates.now self.old.stages.items top (slice_index self.old.opened.items top) Nothing }
        ensures tour { IsTour gates.now self.new.stages.items self.new.opened.items self.new.path.items self.new.starts.items }
        ensures goes { Goes self.old.stages.items self.new.stages.items }
        ensures lower { left_to_do self.new.stages.items self.new.path.items self.new.starts.items < left_to_do self.old.stages.items self.old.path.items self.old.starts.items }
    {
        let on_cycle = is_cyclic(&self.opened, gates, top);
        let Some(_) = self.path.pop() else {
            return;
        };
        let Some(_) = self.starts.pop() else {
            return;
        };
        close_from(&mut self.stages, &self.opened, top, on_cycle);
        self.opened.truncate(top);
    }
    /// Closes the gate that is followed last, whose operands wish for nothing.
    fn close(&mut self, gates: &[Gate], places: &[Option<usize>], top: usize, start: usize)
        requires tour { IsTour gates.now self.old.stages.items self.old.opened.items self.old.path.items self.old.starts.items }
        requires finds { Finds gates.now places.now }
        requires top { IsGreatest self.old.path.items top }
        requires start { IsGreatest self.old.starts.items start }
        requires wish { AtGate gates.now self.old.stages.items start (slice_index self.old.opened.items top) Nothing }
        ensures tour { IsTour gates.now self.new.stages.items self.new.opened.items self.new.path.items self.new.starts.items }
        ensures goes { Goes self.old.stages.items self.new.stages.items }
        ensures lower { left_to_do self.new.stages.items self.new.path.items self.new.starts.items < left_to_do self.old.stages.items self.old.path.items self.old.starts.items }
    {
        if start == top {
            self.finish(gates, places, top);
            return;
        }
        let Some(_) = self.path.pop() else {
            return;
        };
    }

    /// Goes one step from the gate that is followed last.
    fn step(
        &mut self,
        gates: &[Gate],
        places: &[Option<usize>],
        top: usize,
        start: usize,
    ) -> Result<(), AllocError>
        requires tour { IsTour gates.now self.old.stages.items self.old.opened.items self.old.path.items self.old.starts.items }
        requires finds { Finds gates.now places.now }
        requires top { IsGreatest self.old.path.items top }
        requires start { IsGreatest self.old.starts.items start }
        requires inside { top < length self.old.opened.items }
        ensures tour { OnOk result (IsTour gates.now self.new.stages.items self.new.opened.items self.new.path.items self.new.starts.items) }
        ensures goes { OnOk result (Goes self.old.stages.items self.new.stages.items) }
        ensures lower { OnOk result (left_to_do self.new.stages.items self.new.path.items self.new.starts.items < left_to_do self.old.stages.items self.old.path.items self.old.starts.items) }
    {
        match wish_of(&self.stages, gates, places, start, self.opened[top]) {
            Wish::Enter(gate) => self.enter(gates, gate),
            Wish::Join(place) => {
                self.join(gates, top, start, place);
                Ok(())
            }
            Wish::Nothing => {
                self.close(gates, places, top, start);
                Ok(())
            }
        }
    }

    /// Goes on until no gate is open.
    fn run(&mut self, gates: &[Gate], places: &[Option<usize>]) -> Result<(), AllocError>
        requires tour { IsTour gates.now self.old.stages.items self.old.opened.items self.old.path.items self.old.starts.items }
        requires finds { Finds gates.now places.now }
        ensures tour { OnOk result (IsTour gates.now self.new.stages.items self.new.opened.items self.new.path.items self.new.starts.items) }
        ensures goes { OnOk result (Goes self.old.stages.items self.new.stages.items) }
        ensures empty { OnOk result (self.new.opened.items ≡ []) }
    {
        while let Some(top) = last_of(&self.path) {
            let Some(start) = last_of(&self.starts) else {
                return Ok(());
            };
            self.step(gates, places, top, start)?;
        }
        Ok(())
    }

    /// Whether a gate is new.
    fn is_new(&self, place: usize) -> bool
        requires { place < length self.now.stages.items }
        ensures { IsTrue result ↔ (stage_at self.now.stages.items place ≡ New) }
    {
        match self.stages[place] {
            Stage::New => true,
            Stage::Open(_) => false,
            Stage::Done(_) => false,
        }
    }

    /// Makes a gate done, with all that it leads to.
    fn visit(
        &mut self,
        gates: &[Gate],
        places: &[Option<usize>],
        place: usize,
    ) -> Result<(), AllocError>
        requires tour { IsTour gates.now self.old.stages.items self.old.opened.items self.old.path.items self.old.starts.items }
        requires finds { Finds gates.now places.now }
        requires place { place < length gates.now }
        requires empty { self.old.opened.items ≡ [] }
        ensures tour { OnOk result (IsTour gates.now self.new.stages.items self.new.opened.items self.new.path.items self.new.starts.items) }
        ensures goes { OnOk result (Goes self.old.stages.items self.new.stages.items) }
        ensures empty { OnOk result (self.new.opened.items ≡ []) }
        ensures done { OnOk result (IsDone self.new.stages.items place) }
    {
        if !self.is_new(place) {
            return Ok(());
        }
        self.enter(gates, place)?;
        self.run(gates, places)?;
        Ok(())
    }
}

/// Whether a gate is done and depends on itself.
fn is_on_cycle(stage: Stage) -> bool
    ensures { IsTrue result ↔ (stage ≡ Done true) }
{
    match stage {
        Stage::New => false,
        Stage::Open(_) => false,
        Stage::Done(on_cycle) => on_cycle,
    }
}

/// The first gate that is done and depends on itself.
fn first_cyclic(stages: &[Stage]) -> Option<usize>
    ensures { MatchOption result ((k : ℕ) → k < length stages.now → stage_at stages.now k ≡ Done true → ⊥) (IsFirstDone stages.now) }
{
    for place in 0..stages.len() {
        if is_on_cycle(stages[place]) {
            return Some(place);
        }
    }
    None
}

/// The first gate that depends on itself. It is linear in the gates.
pub(crate) fn first_on_cycle(
    alloc: Global,
    gates: &[Gate],
    places: &[Option<usize>],
) -> Result<Option<usize>, AllocError>
    requires { Finds gates.now places.now }
    ensures { IfOk result (λ first. MatchOption first ((k : ℕ) → k < length gates.now → IsOnCycle gates.now k → ⊥) (IsFirstCycle gates.now)) }
{
    let mut tour = Tour {
        stages: vec![in alloc; Stage::New; gates.len()]?,
        opened: Vec::new(alloc),
        path: Vec::new(alloc),
        starts: Vec::new(alloc),
    };
    for place in 0..gates.len() {
        tour.visit(gates, places, place)?;
    }
    Ok(first_cyclic(&tour.stages))
}
