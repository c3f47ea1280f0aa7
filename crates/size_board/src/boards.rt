ghost use Rattle.std.specs.Prelude.{◌≡◌, ◌≢◌, ◌↔◌, ℕ, ◌+◌, ◌-◌, ◌^◌, ◌<◌, ◌≤◌, [], ◌∷◌, ◌++◌, None, OnOk, OnErr, IfOk, IfSome, IfNone, IsTrue, false, length, slice_index_or};
ghost use Rattle.std.specs.Option.{option_map, option_copied, ForSome};
ghost use Rattle.letters_and_lassos.specs.declared.kinds.Side.TheVariants.{System, Environment};
ghost use Rattle.text_limits.specs.declared.TheConstants.{SMALL_LIMITS};
ghost use Rattle.machine_model.specs.Machine.{size_of};
ghost use Rattle.size_board.specs.States.{after_event, fresh, event_claim, replay};
ghost use Rattle.size_board.specs.Kept.{AreStates};
ghost use Rattle.size_board.specs.Board.{smaller};

use crate::events::{Claim, Event, SizeState};
use crate::names::ProblemNames;
use letters_and_lassos::Side;
use machine_model::{Machine, Problem};
use std::alloc::{AllocError, Global};
use std::marker::{Model, PhantomData};
use text_limits::SMALL_LIMITS;

/// A side has at most this many allowed sizes.
const MOST_SIZES: usize = SMALL_LIMITS.machine as usize;

/// The board of the sizes of both sides, each allowed from 1 up to its side's number of them.
#[derive(Drop)]
pub struct Board<P: ProblemNames> {
    system_problem: Problem,
    environment_problem: Option<Problem>,
    system_sizes: u32,
    environment_sizes: u32,
    journal: Vec<Event>,
    /// What the journal tells of the sizes from 1 on.
    system_states: [SizeState; MOST_SIZES],
    environment_states: [SizeState; MOST_SIZES],
    /// The smallest machines that were found.
    system_machine: Option<Machine>,
    environment_machine: Option<Machine>,
    names: PhantomData<P>,
}

impl<P: ProblemNames> Model for Board<P> {
    ghost use Rattle.size_board.specs.Board.{BoardModel};
    ghost use Rattle.size_board.specs.Kept.{AreKept};

    ghost Value = { BoardModel };

    ghost view = { λ a. record { journal = a.journal.items; system = a.system_machine; environment = a.environment_machine } };

    ghost invariant = { λ a. AreKept P.named (record { journal = a.journal.items; system = a.system_machine; environment = a.environment_machine }) a.system_states a.environment_states a.system_problem a.environment_problem a.system_sizes a.environment_sizes };
}

impl<P: ProblemNames> Board<P> {
    ghost use Rattle.size_board.specs.Names.{AreNamed, IsProblemAt, IsProblemOn, SideHas, sizes_of, sought_by, sought_of};
    ghost use Rattle.size_board.specs.Board.{BoardModel, IsFirstOpenSize, IsLow, IsSoundBoard, empty_board, high_of, is_open, machine_of, state_of, with_event, with_machine};
    ghost use Rattle.size_board.specs.Kept.{Allows, earlier};
    ghost use Rattle.machine_model.specs.Machine.{MachineModel};
    ghost use Rattle.size_board.specs.declared.events.Event.TheVariants.{Claimed, Left, Refuted, Full};

    /// A board on which nothing has happened.
    pub fn new(
        alloc: Global,
        system: Problem,
        environment: Option<Problem>,
        system_sizes: u32,
        environment_sizes: u32,
    ) -> Result<Board<P>, AllocError>
        requires { AreNamed P.named system environment system_sizes environment_sizes }
        ensures empty { IfOk result (λ b. b ≡ empty_board) }
        ensures sound { IfOk result (IsSoundBoard P.named) }
    {
        Ok(Board {
            system_problem: system,
            environment_problem: environment,
            system_sizes,
            environment_sizes,
            journal: Vec::new(alloc),
            system_states: fresh_states(),
            environment_states: fresh_states(),
            system_machine: None,
            environment_machine: None,
            names: PhantomData,
        })
    }

    /// The problem of a side, whose size isn't used: with any number of states within the limits it is a problem.
    pub fn problem(&self, side: Side) -> Option<&Problem>
        ensures value { option_map sought_of (option_copied result) ≡ sought_by P.named side }
        ensures problem { IfSome result (λ p. IsProblemOn P.named side p.now) }
        ensures none { IfNone result (sizes_of P.named side ≡ 0) }
        ensures few { sizes_of P.named side ≤ SMALL_LIMITS.machine }
        ensures sound { IsSoundBoard P.named self.now }
    {
        match side {
            Side::System => Some(&self.system_problem),
            Side::Environment => self.environment_problem.as_ref(),
        }
    }

    /// The problem of an allowed size. The automaton is shared, and nothing is copied: an error means that it has as many
    /// owners as can be counted.
    pub fn problem_at(&self, claim: Claim) -> Result<Problem, AllocError>
        requires some { 0 < claim.size }
        requires allowed { claim.size ≤ sizes_of P.named claim.side }
        ensures problem { IfOk result (IsProblemAt P.named claim.side claim.size) }
        ensures sound { IsSoundBoard P.named self.now }
    {
        let Some(problem) = self.problem(claim.side) else {
            unreachable!()
        };
        problem.sized(claim.size)
    }

    /// The number of allowed sizes of a side.
    pub fn sizes(&self, side: Side) -> u32
        ensures value { result ≡ sizes_of P.named side }
        ensures few { result ≤ SMALL_LIMITS.machine }
        ensures sound { IsSoundBoard P.named self.now }
    {
        match side {
            Side::System => self.system_sizes,
            Side::Environment => self.environment_sizes,
        }
    }

    /// What happened so far.
    pub fn journal(&self) -> &[Event]
        ensures value { result.now ≡ self.now.journal }
        ensures sound { IsSoundBoard P.named self.now }
    {
        &self.journal
    }

    /// The state of an allowed size.
    pub fn state(&self, side: Side, size: u32) -> SizeState
        requires some { 0 < size }
        requires allowed { size ≤ sizes_of P.named side }
        ensures value { result ≡ state_of self.now side size }
        ensures sound { IsSoundBoard P.named self.now }
    {
        self.states(side)[size as usize - 1]
    }

    /// The states of a side's sizes, that of size 1 first.
    fn states(&self, side: Side) -> &[SizeState]
        ensures states { AreStates self.now.journal side result.now }
        ensures refuted_allowed { (n : ℕ) → IsTrue (state_of self.now side n).is_refuted → n ≤ SMALL_LIMITS.machine }
        ensures few { sizes_of P.named side ≤ SMALL_LIMITS.machine }
        ensures sound { IsSoundBoard P.named self.now }
    {
        match side {
            Side::System => &self.system_states,
            Side::Environment => &self.environment_states,
        }
    }

    /// The least size from 1 on that isn't marked refuted; and the size of the smallest kept machine, or
    /// the number of allowed sizes plus 1.
    pub fn bounds(&self, side: Side) -> (u32, u32)
        ensures low { IsLow self.now side result.0 }
        ensures high { result.1 ≡ high_of P.named self.now side }
        ensures sound { IsSoundBoard P.named self.now }
    {
        let refuted = refuted_len(self.states(side)) as u32;
        (refuted + 1, self.high(side))
    }

    /// The size of the smallest kept machine, or the number of allowed sizes plus 1.
    fn high(&self, side: Side) -> u32
        ensures { result ≡ high_of P.named self.now side }
    {
        match self.found(side) {
            Some(machine) => machine.size(),
            None => self.sizes(side) + 1,
        }
    }

    /// Whether a worker may claim the size.
    pub fn is_open(&self, side: Side, size: u32) -> bool
        ensures value { result ≡ is_open P.named self.now side size }
        ensures sound { IsSoundBoard P.named self.now }
    {
        if size > self.sizes(side) || size == 0 {
            return false;
        }
        let state = self.state(side, size);
        let other = match side {
            Side::System => Side::Environment,
            Side::Environment => Side::System,
        };
        !state.is_refuted && !state.is_full && size < self.high(side) && self.found(other).is_none()
    }

    /// The smallest machine of the side that was found.
    pub fn found(&self, side: Side) -> Option<&Machine>
        ensures value { option_copied result ≡ machine_of self.now side }
        ensures smallest { IfSome result (λ m. size_of m.now ≡ high_of P.named self.now side) }
        ensures sound { IsSoundBoard P.named self.now }
    {
        match side {
            Side::System => self.system_machine.as_ref(),
            Side::Environment => self.environment_machine.as_ref(),
        }
    }

    /// The smallest machine of the side that was found, by value, when the board has served.
    pub fn into_found(self, side: Side) -> Option<Machine>
        ensures value { result ≡ machine_of self side }
        ensures smallest { IfSome result (λ m. size_of m ≡ high_of P.named self side) }
        ensures sound { IsSoundBoard P.named self }
    {
        match side {
            Side::System => self.system_machine,
            Side::Environment => self.environment_machine,
        }
    }

    /// Gives the worker the open size with the fewest claims, among equals the smallest, among equals the
    /// system's; or none where no size is open. After want of memory the board is as it was.
    pub fn claim(&mut self, worker: u32) -> Result<Option<Claim>, AllocError>
        ensures none { result ≡ Ok None ↔ ((side : Side) (size : ℕ) → IsTrue (is_open P.named self.old side size) → ⊥) }
        ensures unchanged { IfOk result (λ given. IfNone given (self.new ≡ self.old)) }
        ensures first { IfOk result (λ given. IfSome given (IsFirstOpenSize P.named self.old)) }
        ensures allowed { IfOk result (λ given. IfSome given (λ c. (0 < c.size) × (c.size ≤ sizes_of P.named c.side))) }
        ensures event { IfOk result (λ given. IfSome given (λ c. self.new ≡ with_event self.old (Claimed worker c))) }
        ensures err { OnErr result (self.new ≡ self.old) }
        ensures sound { IsSoundBoard P.named self.new }
    {
        let Some(given) = self.first_open() else {
            return Ok(None);
        };
        self.tell(Event::Claimed(worker, given))?;
        Ok(Some(given))
    }

    /// Keeps an accepted machine, unless one of at most its size is kept already. After want of memory the
    /// board is as it was, without the machine.
    pub fn mark_found(&mut self, side: Side, machine: Machine) -> Result<(), AllocError>
        requires accepted { SideHas (sought_by P.named side) (size_of machine) machine }
        requires allowed { size_of machine ≤ sizes_of P.named side }
        ensures ok { OnOk result (self.new ≡ with_machine self.old side machine) }
        ensures err { OnErr result (self.new ≡ self.old) }
        ensures sound { IsSoundBoard P.named self.new }
    {
        let size = machine.size();
        record(
            &mut self.journal,
            &mut self.system_states,
            &mut self.environment_states,
            Event::Found(Claim { side, size }),
        )?;
        match side {
            Side::System => keep_smaller(&mut self.system_machine, machine),
            Side::Environment => keep_smaller(&mut self.environment_machine, machine),
        }
        Ok(())
    }

    /// Marks an allowed size of which the side accepts no machine.
    pub fn mark_refuted(&mut self, side: Side, size: u32) -> Result<(), AllocError>
        requires some { 0 < size }
        requires allowed { size ≤ sizes_of P.named side }
        requires none { (m : MachineModel) → SideHas (sought_by P.named side) size m → ⊥ }
        ensures ok { OnOk result (self.new ≡ with_event self.old (Refuted (record { side = side; size = size }))) }
        ensures err { OnErr result (self.new ≡ self.old) }
        ensures sound { IsSoundBoard P.named self.new }
    {
        self.tell(Event::Refuted(Claim { side, size }))
    }

    /// Marks an allowed size whose log is full.
    pub fn mark_full(&mut self, side: Side, size: u32) -> Result<(), AllocError>
        requires some { 0 < size }
        requires allowed { size ≤ sizes_of P.named side }
        ensures ok { OnOk result (self.new ≡ with_event self.old (Full (record { side = side; size = size }))) }
        ensures err { OnErr result (self.new ≡ self.old) }
        ensures sound { IsSoundBoard P.named self.new }
    {
        self.tell(Event::Full(Claim { side, size }))
    }

    /// Gives a claim back: its size has one claim less, where it has any.
    pub fn leave(&mut self, claim: Claim) -> Result<(), AllocError>
        ensures ok { OnOk result (self.new ≡ with_event self.old (Left claim)) }
        ensures err { OnErr result (self.new ≡ self.old) }
        ensures sound { IsSoundBoard P.named self.new }
    {
        self.tell(Event::Left(claim))
    }

    /// Adds an event that leaves the kept machines as they are.
    fn tell(&mut self, event: Event) -> Result<(), AllocError>
        requires { Allows P.named event }
        ensures ok { OnOk result (self.new ≡ with_event self.old event) }
        ensures err { OnErr result (self.new ≡ self.old) }
        ensures sound { IsSoundBoard P.named self.new }
    {
        record(
            &mut self.journal,
            &mut self.system_states,
            &mut self.environment_states,
            event,
        )?;
        Ok(())
    }

    /// The open size that is to be claimed next.
    fn first_open(&self) -> Option<Claim>
        ensures none { IfNone result ((side : Side) (size : ℕ) → IsTrue (is_open P.named self.now side size) → ⊥) }
        ensures first { IfSome result (IsFirstOpenSize P.named self.now) }
        ensures sound { IsSoundBoard P.named self.now }
    {
        let most = self.system_sizes.max(self.environment_sizes);
        let mut first = None;
        for size in 1..most + 1 {
            let system = Side::System;
            first = self.earlier(first, Claim { side: system, size });
            let environment = Side::Environment;
            first = self.earlier(
                first,
                Claim {
                    side: environment,
                    size,
                },
            );
        }
        first
    }

    /// The first of some open sizes, or the next one where it is open and has fewer claims.
    fn earlier(&self, first: Option<Claim>, next: Claim) -> Option<Claim>
        requires { ForSome first (λ c. IsTrue (is_open P.named self.now c.side c.size)) }
        ensures { result ≡ earlier P.named self.now first next }
    {
        if !self.is_open(next.side, next.size) {
            return first;
        }
        match first {
            None => Some(next),
            Some(claim) => {
                if self.claims(next) < self.claims(claim) {
                    Some(next)
                } else {
                    Some(claim)
                }
            }
        }
    }

    /// How many claims of an open size stand.
    fn claims(&self, claim: Claim) -> u64
        requires { IsTrue (is_open P.named self.now claim.side claim.size) }
        ensures { result ≡ (state_of self.now claim.side claim.size).claims }
    {
        self.state(claim.side, claim.size).claims
    }
}

/// The states of sizes of which nothing is known yet.
fn fresh_states() -> [SizeState; MOST_SIZES]
    ensures { (k : ℕ) → slice_index_or result k fresh ≡ fresh }
{
    [SizeState {
        claims: 0,
        is_found: false,
        is_refuted: false,
        is_full: false,
    }; MOST_SIZES]
}

/// How many states from the first one on are marked refuted.
fn refuted_len(states: &[SizeState]) -> usize
    ensures within { result ≤ length states.now }
    ensures before { (k : ℕ) → k < result → IsTrue (slice_index_or states.now k fresh).is_refuted }
    ensures stops { result < length states.now → (slice_index_or states.now result fresh).is_refuted ≡ false }
{
    for (place, state) in states.iter().enumerate() {
        if !state.is_refuted {
            return place;
        }
    }
    states.len()
}

/// Adds an event to the journal and to the states of both sides' sizes.
fn record(
    journal: &mut Vec<Event>,
    system: &mut [SizeState],
    environment: &mut [SizeState],
    event: Event,
) -> Result<(), AllocError>
    requires system { AreStates journal.old.items System system.old }
    requires environment { AreStates journal.old.items Environment environment.old }
    ensures ok { OnOk result (journal.new.items ≡ journal.old.items ++ event ∷ []) }
    ensures err { OnErr result (journal.new.items ≡ journal.old.items) }
    ensures system { AreStates journal.new.items System system.new }
    ensures environment { AreStates journal.new.items Environment environment.new }
{
    journal.push(event)?;
    update(system, Side::System, event);
    update(environment, Side::Environment, event);
    Ok(())
}

/// Adds an event to the states of a side's sizes, that of size 1 being first.
fn update(states: &mut [SizeState], side: Side, event: Event)
    requires few { length states.old < 2 ^ 32 - 1 }
    requires claims { (k : ℕ) → k < length states.old → (slice_index_or states.old k fresh).claims + 1 < 2 ^ 64 }
    ensures { (k : ℕ) → k < length states.old → slice_index_or states.new k fresh ≡ after_event side (k + 1) (slice_index_or states.old k fresh) event }
{
    for (place, state) in states.iter_mut().enumerate() {
        *state = state.after(side, place as u32 + 1, event);
    }
}

/// Keeps the machine where none is kept or a larger one.
fn keep_smaller(kept: &mut Option<Machine>, machine: Machine)
    ensures { kept.new ≡ Some (smaller kept.old machine) }
{
    let is_smaller = match kept {
        None => true,
        Some(old) => machine.size() < old.size(),
    };
    if is_smaller {
        *kept = Some(machine);
    }
}
