//! What the workers do.
ghost use Rattle.std.specs.Prelude.{◌≡◌, ℕ, ◌<◌, All, IfOk, IfSome, slice_index_or, vec_len};
ghost use Rattle.synth_engine.specs.declared.crews.Crew.{Crew as CrewView};
ghost use Rattle.size_board.specs.Names.{AreNamed};
ghost use Rattle.synth_engine.specs.Plans.{IsWinner};
ghost use Rattle.synth_engine.specs.Tasks.{IsAllowed, IsCrewOf, IsVerdict, SizesFit};

use crate::crews::{Crew, turn_on};
use crate::outcomes::Found;
use crate::plans::Plan;
use crate::sizes::Sizes;
use input_output::Gate;
use letters_and_lassos::Side;
use size_board::{Board, Claim, ProblemNames};
use size_search::Decided;
use std::alloc::{AllocError, Global};
use std::sync::{Mutex, Wait};
use std::thread::{self, Threads};

/// A worker takes so many turns at a size before it claims again.
const TURNS: u32 = 64;

/// What all workers share.
#[derive_where(Clone, Copy)]
pub struct Race<'a, 'b, P: ProblemNames, R: Wait, G: Gate> {
    pub rt: &'a R,
    pub alloc: Global,
    pub board: &'b Mutex<Board<P>>,
    pub sizes: &'a Sizes,
    pub gate: &'a G,
}

impl<P: ProblemNames, R: Wait, G: Gate> Race<'_, '_, P, R, G> {
    /// The work of one worker: it claims a size, takes turns there, and claims again, until no size is open. Where memory is wanted it
    /// leaves its claim and ends.
    pub fn work(&self, crew: &mut Crew) -> Result<(), AllocError>
        requires sizes { SizesFit P.named self.now.sizes.now }
        requires crew { IsCrewOf self.now.sizes.now crew.old }
        ensures crew { IsCrewOf self.now.sizes.now crew.new }
        ensures number { crew.new.number ≡ crew.old.number }
    {
        for _ in self.rt.forever() {
            let Some(claim) = self.claim(crew.number)? else {
                return Ok(());
            };
            if self.stay(crew, claim).is_err() {
                let _ = self.board.lock(self.rt).leave(claim);
                return Err(AllocError);
            }
        }
        unreachable!()
    }

    /// The worker after its work, whatever ended it.
    fn after_work(&self, mut crew: Crew) -> Crew
        requires sizes { SizesFit P.named self.now.sizes.now }
        requires crew { IsCrewOf self.now.sizes.now crew }
        ensures crew { IsCrewOf self.now.sizes.now result }
        ensures number { result.number ≡ crew.number }
    {
        let _ = self.work(&mut crew);
        crew
    }

    /// Claims the size at which a worker is to go on.
    fn claim(&self, worker: u32) -> Result<Option<Claim>, AllocError>
        ensures { IfOk result (λ claim. IfSome claim (IsAllowed P.named)) }
    {
        self.board.lock(self.rt).claim(worker)
    }

    /// Takes turns at a size as long as it is open, a few at most.
    fn stay(&self, crew: &mut Crew, claim: Claim) -> Result<(), AllocError>
        requires sizes { SizesFit P.named self.now.sizes.now }
        requires crew { IsCrewOf self.now.sizes.now crew.old }
        requires claim { IsAllowed P.named claim }
        ensures crew { IsCrewOf self.now.sizes.now crew.new }
        ensures number { crew.new.number ≡ crew.old.number }
    {
        for _ in 0..TURNS {
            if let Some(decided) = self.turn(crew, claim)? {
                return self.mark(claim, decided);
            }
            if !self.is_open(claim) {
                break;
            }
        }
        Ok(())
    }

    /// One turn at a size.
    fn turn(&self, crew: &mut Crew, claim: Claim) -> Result<Option<Decided>, AllocError>
        requires sizes { SizesFit P.named self.now.sizes.now }
        requires crew { IsCrewOf self.now.sizes.now crew.old }
        requires claim { IsAllowed P.named claim }
        ensures crew { IsCrewOf self.now.sizes.now crew.new }
        ensures number { crew.new.number ≡ crew.old.number }
        ensures verdict { IfOk result (λ answer. IfSome answer (IsVerdict P.named claim)) }
    {
        match claim.side {
            Side::System => turn_on(
                self.rt,
                self.alloc,
                &self.sizes.system,
                &mut crew.system,
                claim.size,
                self.gate,
            ),
            Side::Environment => turn_on(
                self.rt,
                self.alloc,
                &self.sizes.environment,
                &mut crew.environment,
                claim.size,
                self.gate,
            ),
        }
    }

    /// Whether a size is still open.
    fn is_open(&self, claim: Claim) -> bool {
        self.board.lock(self.rt).is_open(claim.side, claim.size)
    }

    /// Marks on the board what was decided of a size.
    fn mark(&self, claim: Claim, decided: Decided) -> Result<(), AllocError>
        requires claim { IsAllowed P.named claim }
        requires verdict { IsVerdict P.named claim decided }
    {
        let mut board = self.board.lock(self.rt);
        match decided {
            Decided::Found(machine) => board.mark_found(claim.side, machine),
            Decided::Refuted => board.mark_refuted(claim.side, claim.size),
            Decided::Full => board.mark_full(claim.side, claim.size),
        }
    }
}

/// Lets the workers race, each in a thread of its own where one can be made, and then does what they left. Gives the workers back, and a
/// machine if one was found.
pub fn run_workers<'a, P: ProblemNames + Send + Sync, R: Threads + Wait + Sync, G: Gate + Sync>(
    rt: &'a R,
    alloc: Global,
    plan: Plan,
    sizes: &'a Sizes,
    own: &mut Crew,
    crews: Vec<Crew>,
    gate: &'a G,
) -> Result<(Option<Found>, Vec<Crew>), AllocError>
    requires named { AreNamed P.named plan.system plan.environment plan.system_sizes plan.environment_sizes }
    requires sizes { SizesFit P.named sizes.now }
    requires own { IsCrewOf sizes.now own.old }
    requires crews { All (IsCrewOf sizes.now) crews.items }
    ensures own { IsCrewOf sizes.now own.new }
    ensures own_number { own.new.number ≡ own.old.number }
    ensures winner { IfOk result (λ raced. IfSome raced.0 (IsWinner P.named)) }
    ensures crews { IfOk result (λ raced. All (IsCrewOf sizes.now) raced.1.items) }
    ensures count { IfOk result (λ raced. vec_len raced.1 ≡ vec_len crews) }
    ensures numbers { IfOk result (λ raced. (i : ℕ) (d : CrewView) → i < vec_len crews → (slice_index_or raced.1.items i d).number ≡ (slice_index_or crews.items i d).number) }
{
    let board = Mutex::new(Board::<P>::new(
        alloc,
        plan.system,
        plan.environment,
        plan.system_sizes,
        plan.environment_sizes,
    )?);
    let race = Race {
        rt,
        alloc,
        board: &board,
        sizes,
        gate,
    };
    let crews = thread::map_vec(
        rt,
        crews,
        &|crew: Crew| -> Crew
            requires { SizesFit P.named race.sizes.now × IsCrewOf race.sizes.now crew }
            ensures { IsCrewOf race.entry.sizes.now result × (result.number ≡ crew.number) }
        { race.after_work(crew) },
    )?;
    race.work(own)?;
    Ok((winner_of(board.into_inner()), crews))
}

/// The machine that a board kept, the system's if it has one.
fn winner_of<P: ProblemNames>(board: Board<P>) -> Option<Found>
    ensures { IfSome result (IsWinner P.named) }
{
    let side = match board.found(Side::System) {
        Some(_) => Side::System,
        None => Side::Environment,
    };
    let machine = board.into_found(side)?;
    Some(Found { side, machine })
}
