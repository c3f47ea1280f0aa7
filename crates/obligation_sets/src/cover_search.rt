ghost use Rattle.std.specs.Prelude.{◌≡◌, ◌<◌, ◌≤◌, All, Err, IfOk, OnOk, filter, length, not, reverse};
ghost use Rattle.std.specs.List.{list_any};
ghost use Rattle.ltl_formula.specs.Nodes.{IsNodeIn};
ghost use Rattle.obligation_sets.specs.CoverSignals.{NameSignalsOf};
ghost use Rattle.obligation_sets.specs.Covers.{set_leaves};
ghost use Rattle.obligation_sets.specs.Gathered.{gather, keep_minimal};
ghost use Rattle.obligation_sets.specs.Reduced.{asks_no_more, covers_by};
ghost use Rattle.obligation_sets.specs.Search.{AfterStep, HasLeafPlaces};

use crate::branches::{Branch, Fork, Step};
use crate::forks::KnownForks;
use crate::sets::{Cover, Covering, ObligationSet};
use indexmap::IndexSet;
use ltl_formula::Formulas;
use std::alloc::{AllocError, AllocFailed, Global};

/// The largest number of leaves that a set of obligations may have.
pub const MAX_LEAVES: usize = 100_000;

/// So few leaves are found again as fast as they are looked up.
const FEW_LEAVES: usize = 16;

/// Why the covers of a set weren't given.
#[derive(Clone, Copy, Debug, PartialEq, Eq)]
pub enum CoverFault {
    /// 1: the set has more leaves than `MAX_LEAVES`.
    TooManyLeaves,
    /// There was no memory.
    NoMemory,
}

impl From<AllocError> for CoverFault {
    ghost use Rattle.obligation_sets.specs.declared.cover_search.CoverFault.TheVariants.{NoMemory};

    ghost from_gives = { λ _ e. e ≡ NoMemory };

    fn from(_error: AllocError) -> CoverFault {
        CoverFault::NoMemory
    }
}

impl<T: Drop> From<AllocFailed<T>> for CoverFault {
    ghost use Rattle.obligation_sets.specs.declared.cover_search.CoverFault.TheVariants.{NoMemory};

    ghost from_gives = { λ _ e. e ≡ NoMemory };

    fn from(_error: AllocFailed<T>) -> CoverFault {
        CoverFault::NoMemory
    }
}

/// The covers of a set of obligations in normal form: its leaves that aren't dead, in the order of branches, each
/// different one once, at its first place; of reduced ones those where none asks less. Branches that are equal where they
/// split are followed once. It takes time for each leaf that is met so, as much as there are formulas, and for a reduced
/// cover also for each one that is kept. It takes memory for each cover that is kept, and for some thousand branches.
pub fn covers(
    alloc: Global,
    formulas: &Formulas,
    set: &ObligationSet,
    covering: Covering,
) -> Result<Vec<Cover>, CoverFault>
    requires { All (IsNodeIn formulas.now) set.now }
    ensures covers { IfOk result (λ v. v.items ≡ covers_by covering formulas.now set.now) }
    ensures signals { IfOk result (λ v. NameSignalsOf formulas.now v.items) }
    ensures few_leaves { OnOk result (length (set_leaves formulas.now set.now) ≤ MAX_LEAVES) }
    ensures too_many { result ≡ Err CoverFault.TooManyLeaves → MAX_LEAVES < length (set_leaves formulas.now set.now) }
{
    let mut search = Search::start(alloc, formulas, set)?;
    while let Some(frame) = search.frames.pop() {
        search.go_on(alloc, formulas, covering, frame)?;
        if search.leaves > MAX_LEAVES {
            return Err(CoverFault::TooManyLeaves);
        }
    }
    Ok(search.found.into_iter().collect(alloc)?)
}

/// What is on the stack of the search.
#[derive(Drop)]
pub(crate) enum Frame {
    /// A branch that is to be followed.
    Open(Branch),
    /// The end of what comes of a fork: how many leaves had been met before it.
    Close(Fork, usize),
}

/// The search for the covers of a set.
#[derive(Drop)]
struct Search {
    frames: Vec<Frame>,
    found: IndexSet<Cover>,
    /// How many leaves were met.
    leaves: usize,
    known: KnownForks,
}

impl Search {
    ghost use Rattle.std.specs.Prelude.{◌∷◌, List};
    ghost use Rattle.ltl_formula.specs.Nodes.{IsNodeList};
    ghost use Rattle.ltl_formula.specs.declared.nodes.FormulaId.{FormulaId};
    ghost use Rattle.ltl_formula.specs.declared.nodes.Node.{Node};
    ghost use Rattle.obligation_sets.specs.declared.cover_search.Frame.TheVariants.{Open, Close};
    ghost use Rattle.obligation_sets.specs.Search.{Advances, FramePlaces, SearchAlong};
    ghost use Rattle.obligation_sets.specs.Steps.{HasPlaces};

    /// The search that begins with a set of obligations.
    fn start(alloc: Global, formulas: &Formulas, set: &ObligationSet) -> Result<Search, AllocError>
        requires { All (IsNodeIn formulas.now) set.now }
        ensures along { (covering : Covering) → IfOk result (λ s. SearchAlong covering formulas.now set.now (reverse s.frames.items) s) }
        ensures none { IfOk result (λ s. s.leaves ≡ 0) }
        ensures list { OnOk result (IsNodeList formulas.now) }
    {
        let mut frames = Vec::new(alloc);
        frames.push(Frame::Open(Branch::start(alloc, formulas, set)?))?;
        Ok(Search {
            frames,
            found: IndexSet::new(alloc),
            leaves: 0,
            known: KnownForks::new(alloc),
        })
    }

    /// Goes on with what was on top of the stack.
    fn go_on(
        &mut self,
        alloc: Global,
        formulas: &Formulas,
        covering: Covering,
        frame: Frame,
    ) -> Result<(), AllocError>
        requires list { IsNodeList formulas.now }
        requires places { FramePlaces (length formulas.now) frame }
        requires few { self.old.leaves ≤ MAX_LEAVES }
        ensures { OnOk result (Advances covering formulas.now (frame ∷ reverse self.old.frames.items) self.old self.new 1) }
    {
        match frame {
            Frame::Open(branch) => self.follow(alloc, formulas, covering, branch),
            Frame::Close(fork, before) => self.close(fork, before),
        }
    }

    /// Learns how many leaves a fork has, where all were met.
    fn close(&mut self, fork: Fork, before: usize) -> Result<(), AllocError>
        requires { self.old.leaves ≤ MAX_LEAVES }
        ensures { (covering : Covering) (ns : List Node) → OnOk result (Advances covering ns (Close fork before ∷ reverse self.old.frames.items) self.old self.new 1) }
    {
        let leaves = self.leaves.saturating_sub(before);
        if leaves < FEW_LEAVES {
            return Ok(());
        }
        self.known.learn(fork, leaves)?;
        Ok(())
    }

    /// Follows a branch. Where it is a known fork, its covers are found already, and its leaves are only counted.
    fn follow(
        &mut self,
        alloc: Global,
        formulas: &Formulas,
        covering: Covering,
        branch: Branch,
    ) -> Result<(), AllocError>
        requires list { IsNodeList formulas.now }
        requires places { HasPlaces (length formulas.now) branch }
        requires few { self.old.leaves ≤ MAX_LEAVES }
        ensures { OnOk result (Advances covering formulas.now (Open branch ∷ reverse self.old.frames.items) self.old self.new 1) }
    {
        if self.leaves < FEW_LEAVES {
            return self.take_step(alloc, formulas, covering, branch);
        }
        let settled = branch.settled()?;
        let Some(fork) = settled.fork(alloc, formulas)? else {
            return self.take_step(alloc, formulas, covering, settled);
        };
        if let Some(leaves) = self.known.leaves_of(&fork) {
            self.leaves = self.leaves.saturating_add(leaves);
            return Ok(());
        }
        self.frames.push(Frame::Close(fork, self.leaves))?;
        self.take_step(alloc, formulas, covering, settled)
    }

    /// Takes one step of a branch.
    fn take_step(
        &mut self,
        alloc: Global,
        formulas: &Formulas,
        covering: Covering,
        branch: Branch,
    ) -> Result<(), AllocError>
        requires list { IsNodeList formulas.now }
        requires places { HasPlaces (length formulas.now) branch }
        requires few { self.old.leaves ≤ MAX_LEAVES }
        ensures { OnOk result (Advances covering formulas.now (Open branch ∷ reverse self.old.frames.items) self.old self.new 2) }
    {
        let step = branch.step(alloc, formulas)?;
        self.leaves += carry_out(
            alloc,
            formulas,
            covering,
            step,
            &mut self.frames,
            &mut self.found,
        )?;
        Ok(())
    }
}

/// Puts what came of a step on the stack, or a leaf's cover into what was found. It answers how many leaves it met.
fn carry_out(
    alloc: Global,
    formulas: &Formulas,
    covering: Covering,
    step: Step,
    frames: &mut Vec<Frame>,
    found: &mut IndexSet<Cover>,
) -> Result<usize, AllocError>
    requires { HasLeafPlaces (length formulas.now) step }
    ensures { IfOk result (λ met. AfterStep covering formulas.now step (reverse frames.old.items) (reverse frames.new.items) found.old.keys found.new.keys met) }
{
    match step {
        Step::Leaf(leaf) => {
            gather(found, covering, leaf.cover(alloc, formulas, covering)?)?;
            Ok(1)
        }
        Step::Dead => Ok(1),
        Step::On(rest) => {
            frames.push(Frame::Open(rest))?;
            Ok(0)
        }
        Step::Split(first, second) => {
            frames.push(Frame::Open(second))?;
            frames.push(Frame::Open(first))?;
            Ok(0)
        }
    }
}

/// Keeps one more cover, if it is to be kept.
fn gather(
    found: &mut IndexSet<Cover>,
    covering: Covering,
    cover: Cover,
) -> Result<(), AllocFailed<Cover>>
    ensures { OnOk result (found.new.keys ≡ gather covering found.old.keys cover) }
{
    match covering {
        Covering::Plain => {
            found.insert(cover)?;
            Ok(())
        }
        Covering::Reduced => keep_minimal(found, cover),
    }
}

/// Keeps a cover where none that is kept asks no more, and lets those go that ask no less. So as many are held as are
/// minimal among those met.
fn keep_minimal(found: &mut IndexSet<Cover>, cover: Cover) -> Result<(), AllocFailed<Cover>>
    ensures { OnOk result (found.new.keys ≡ keep_minimal found.old.keys cover) }
{
    if is_covered(found, &cover) {
        return Ok(());
    }
    let_go(found, &cover);
    found.insert(cover)?;
    Ok(())
}

/// Whether one that is kept asks no more than a cover.
fn is_covered(found: &IndexSet<Cover>, cover: &Cover) -> bool
    ensures { result ≡ list_any (λ k. asks_no_more k cover.now) found.now.keys }
{
    found.iter().any(|kept| kept.asks_no_more(cover))
}

/// Lets those go that ask no less than a cover.
fn let_go(found: &mut IndexSet<Cover>, cover: &Cover)
    ensures { found.new.keys ≡ filter (λ k. not (asks_no_more cover.now k)) found.old.keys }
{
    found.retain(|kept| !cover.asks_no_more(kept));
}
