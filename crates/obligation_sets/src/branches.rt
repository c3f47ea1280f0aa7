ghost use Rattle.std.specs.Prelude.{◌≡◌, ◌<◌, ◌^◌, [], ◌∷◌, All, IfOk, IfSome, MatchOption, OnOk, length, reverse};
ghost use Rattle.std.specs.Prelude.{◌++◌, ◌&&◌, ◌||◌, false, fold, if◌then◌else◌, not, slice_index_or};
ghost use Rattle.ltl_formula.specs.Nodes.{PartsBelow};
ghost use Rattle.ltl_formula.specs.declared.nodes.TheConstants.{MAX_SIGNALS};
ghost use Rattle.obligation_sets.specs.Cubes.{forbidding, wanting};
ghost use Rattle.obligation_sets.specs.Ids.{has_id, ids_of, with_id};
ghost use Rattle.obligation_sets.specs.Marks.{done_of, next_of, postponed_of};
ghost use Rattle.obligation_sets.specs.OpenWork.{open_work};
ghost use Rattle.obligation_sets.specs.Reduced.{cover_by, implied_by, implied_parts, left_by, without};

use crate::sets::{Cover, Covering, ObligationSet};
use letters_and_lassos::{Cube, Letter};
use ltl_formula::{FormulaId, Formulas, Node};
use std::alloc::{AllocError, Global};
use std::marker::Model;

/// What a branch has done with one formula.
#[derive(Clone, Copy, PartialEq, Eq)]
struct Mark {
    /// Whether it was taken off the work list.
    done: bool,
    /// Whether it is left to the next position.
    next: bool,
    /// Whether it is an until that is put off.
    postponed: bool,
}

/// One way to meet obligations, as far as it is gone. The end of `work` is the front of the work list. All marks stand in
/// one table, since a branch is copied and moved often.
#[derive(Drop)]
pub(crate) struct Branch {
    work: Vec<FormulaId>,
    cube: Cube,
    marks: Vec<Mark>,
}

/// What comes of taking one formula off a branch's work list.
#[derive(Drop)]
pub(crate) enum Step {
    /// The work list is empty.
    Leaf(Branch),
    /// The branch can't be met.
    Dead,
    /// The branch goes on as this one.
    On(Branch),
    /// The branch goes on as these two.
    Split(Branch, Branch),
}

/// A branch that goes on as two, by its parts, so that equal ones are found. All that is hashed of it is the digest of its marks.
#[derive(Drop, PartialEq, Eq)]
pub(crate) struct Fork {
    pub(crate) digest: u64,
    work: Vec<FormulaId>,
    cube: Cube,
    marks: Vec<Mark>,
}

impl Model for Branch {
    ghost use Rattle.std.specs.Prelude.{reverse};
    ghost use Rattle.obligation_sets.specs.Branch.{Branch};
    ghost use Rattle.obligation_sets.specs.Marks.{done_of, next_of, postponed_of};

    ghost Value = { Branch };

    ghost view = { λ b. record { work = reverse b.work.items; done = done_of b.marks.items; cube = b.cube; next = next_of b.marks.items; postponed = postponed_of b.marks.items } };
}

impl Branch {
    ghost use Rattle.obligation_sets.specs.Covers.{start_branch};
    ghost use Rattle.obligation_sets.specs.Ids.{with_id};
    ghost use Rattle.obligation_sets.specs.Forks.{branch_of};
    ghost use Rattle.obligation_sets.specs.Steps.{HasPlaces, expanding, joining, leaving, opposing, postponing, settled, step};
    ghost use Rattle.ltl_formula.specs.Nodes.{IsNodeList, SignalBelow, IsNodeIn, node_at};

    /// The branch that begins with a set of obligations.
    pub(crate) fn start(
        alloc: Global,
        formulas: &Formulas,
        set: &ObligationSet,
    ) -> Result<Branch, AllocError>
        ensures value { IfOk result (λ b. b ≡ start_branch formulas.now set.now) }
        ensures list { OnOk result (IsNodeList formulas.now) }
    {
        let mut work = Vec::from_slice(alloc, set.ids())?;
        work.reverse();
        let none = Mark {
            done: false,
            next: false,
            postponed: false,
        };
        Ok(Branch {
            work,
            cube: Cube { must: 0, not: 0 },
            marks: vec![in alloc; none; formulas.len()]?,
        })
    }

    /// The branch with its work list from the first open formula on.
    pub(crate) fn settled(mut self) -> Result<Branch, AllocError>
        requires { All (λ f. f.0 < length self.done) self.work }
        ensures { IfOk result (λ b. b ≡ settled self) }
    {
        match pop_open(&mut self.work, &self.marks) {
            Some(id) => self.in_front(id),
            None => Ok(self),
        }
    }

    /// The branch by its parts, where the first formula of its work list is met in two ways.
    pub(crate) fn fork(
        &self,
        alloc: Global,
        formulas: &Formulas,
    ) -> Result<Option<Fork>, AllocError>
        requires { HasPlaces (length formulas.now) self.now }
        ensures { IfOk result (λ o. IfSome o (λ fork. branch_of fork ≡ self.now)) }
    {
        if !self.splits(formulas) {
            return Ok(None);
        }
        Ok(Some(Fork {
            digest: digest(&self.marks),
            work: Vec::from_slice(alloc, &self.work)?,
            cube: self.cube,
            marks: Vec::from_slice(alloc, &self.marks)?,
        }))
    }

    /// Whether the first formula of the work list is met in two ways.
    fn splits(&self, formulas: &Formulas) -> bool
        requires { HasPlaces (length formulas.now) self.now }
    {
        match self.work.last() {
            Some(id) => matches!(
                formulas.node(*id),
                Node::Or(_, _) | Node::Until(_, _) | Node::Release(_, _)
            ),
            None => false,
        }
    }

    /// Takes the first open formula off the work list and says what comes of it.
    pub(crate) fn step(mut self, alloc: Global, formulas: &Formulas) -> Result<Step, AllocError>
        requires { HasPlaces (length formulas.now) self }
        ensures { IfOk result (λ s. s ≡ step formulas.now self) }
    {
        let Some(id) = pop_open(&mut self.work, &self.marks) else {
            return Ok(Step::Leaf(self));
        };
        mark_done(&mut self.marks, id);
        self.expand(alloc, formulas, id)
    }

    /// What comes of a formula that was taken off the work list.
    fn expand(self, alloc: Global, formulas: &Formulas, id: FormulaId) -> Result<Step, AllocError>
        requires places { HasPlaces (length formulas.now) self }
        requires stands { IsNodeIn formulas.now id }
        ensures { IfOk result (λ s. s ≡ expanding formulas.now self id (node_at formulas.now id.0)) }
    {
        match formulas.node(id) {
            Node::True => Ok(Step::On(self)),
            Node::Signal(k) => {
                let cube = wanting(self.cube, k);
                Ok(self.join(cube))
            }
            Node::Not(part) => Ok(self.oppose(formulas.node(part))),
            Node::Next(part) => Ok(Step::On(self.leave(part))),
            Node::And(left, right) => Ok(Step::On(self.in_front(right)?.in_front(left)?)),
            Node::Or(left, right) => {
                let other = self.copy(alloc)?.in_front(right)?;
                Ok(Step::Split(self.in_front(left)?, other))
            }
            Node::Until(left, right) => {
                let other = self.copy(alloc)?.postpone(id).in_front(left)?;
                Ok(Step::Split(self.in_front(right)?, other))
            }
            Node::Release(left, right) => {
                let other = self.copy(alloc)?.leave(id).in_front(right)?;
                Ok(Step::Split(self.in_front(right)?.in_front(left)?, other))
            }
            _ => Ok(Step::Dead),
        }
    }

    /// The branch with a literal joined to its cube, or a dead one where there is none.
    fn join(self, cube: Option<Cube>) -> Step
        ensures { result ≡ joining self cube }
    {
        match cube {
            Some(cube) => Step::On(Branch { cube, ..self }),
            None => Step::Dead,
        }
    }

    /// The branch that forbids a signal.
    fn oppose(self, part: Node) -> Step
        requires { SignalBelow MAX_SIGNALS part }
        ensures { result ≡ opposing self part }
    {
        match part {
            Node::Signal(k) => {
                let cube = forbidding(self.cube, k);
                self.join(cube)
            }
            _ => Step::Dead,
        }
    }

    /// The branch with one more formula in front of its work list.
    fn in_front(mut self, id: FormulaId) -> Result<Branch, AllocError>
        ensures { IfOk result (λ b. b ≡ record self { work = id ∷ self.work }) }
    {
        self.work.push(id)?;
        Ok(self)
    }

    /// The branch that leaves a formula to the next position.
    fn leave(mut self, id: FormulaId) -> Branch
        requires { id.0 < length self.next }
        ensures { result ≡ leaving id self }
    {
        mark_next(&mut self.marks, id);
        self
    }

    /// The branch that puts an until off to the next position.
    fn postpone(mut self, id: FormulaId) -> Branch
        requires next { id.0 < length self.next }
        requires postponed { id.0 < length self.postponed }
        ensures { result ≡ postponing id self }
    {
        mark_postponed(&mut self.marks, id);
        self.leave(id)
    }

    fn copy(&self, alloc: Global) -> Result<Branch, AllocError>
        ensures { IfOk result (λ b. b ≡ self.now) }
    {
        Ok(Branch {
            work: Vec::from_slice(alloc, &self.work)?,
            cube: self.cube,
            marks: Vec::from_slice(alloc, &self.marks)?,
        })
    }

    /// The cover that a leaf is.
    pub(crate) fn cover(
        &self,
        alloc: Global,
        formulas: &Formulas,
        covering: Covering,
    ) -> Result<Cover, AllocError>
        requires places { HasPlaces (length formulas.now) self.now }
        requires few { length self.now.next < 2 ^ 32 }
        ensures { IfOk result (λ c. c ≡ cover_by covering formulas.now self.now) }
    {
        let implied = dropped(alloc, formulas, covering, &self.marks)?;
        cover_of(alloc, self.cube, &self.marks, &implied)
    }
}

/// A number that equal marks have alike, and others seldom (FNV-1a).
fn digest(marks: &[Mark]) -> u64 {
    let mut digest: u64 = 0xcbf2_9ce4_8422_2325;
    for mark in marks {
        digest = (digest ^ number_of(*mark)).wrapping_mul(0x100_0000_01b3);
    }
    digest
}

/// A number for each mark.
fn number_of(mark: Mark) -> u64 {
    u64::from(mark.done) | u64::from(mark.next) << 1 | u64::from(mark.postponed) << 2
}

/// The formulas that a cover leaves out of what its leaf leaves, as flags.
#[tactic(auto, using(crate::proofs::Flags::without_none))]
fn dropped(
    alloc: Global,
    formulas: &Formulas,
    covering: Covering,
    marks: &[Mark],
) -> Result<Vec<bool>, AllocError>
    requires { length marks.now ≡ length formulas.now }
    ensures { IfOk result (λ v. without (next_of marks.now) v.items ≡ left_by covering formulas.now (next_of marks.now)) }
{
    match covering {
        Covering::Plain => Ok(Vec::new(alloc)),
        Covering::Reduced => implied_by(alloc, formulas, marks),
    }
}

/// For each formula of the list, whether one that is left over implies it at once. It takes time for each formula.
fn implied_by(alloc: Global, formulas: &Formulas, marks: &[Mark]) -> Result<Vec<bool>, AllocError>
    requires { length marks.now ≡ length formulas.now }
    ensures { IfOk result (λ v. v.items ≡ implied_by formulas.now (next_of marks.now)) }
{
    let mut implied = vec![in alloc; false; formulas.len()]?;
    for place in (0..formulas.len()).rev() {
        if is_held(marks, &implied, place) {
            mark_implied(&mut implied, formulas.node(FormulaId(place as u32)));
        }
    }
    Ok(implied)
}

/// Whether a formula is left over or implied.
#[tactic(auto, using(crate::proofs::Marks::flag_is))]
fn is_held(marks: &[Mark], implied: &[bool], place: usize) -> bool
    requires marks { place < length marks.now }
    requires implied { place < length implied.now }
    ensures { result ≡ (slice_index_or (next_of marks.now) place false || slice_index_or implied.now place false) }
{
    let mark = marks[place];
    mark.next || implied[place]
}

/// Marks the parts of a formula that hold wherever it does.
fn mark_implied(implied: &mut [bool], node: Node)
    requires { PartsBelow (length implied.old) node }
    ensures flags { implied.new ≡ fold with_id implied.old (implied_parts node) }
    ensures places { length implied.new ≡ length implied.old }
{
    match node {
        Node::And(left, right) => {
            implied[left.0 as usize] = true;
            implied[right.0 as usize] = true;
        }
        Node::Release(_, right) => implied[right.0 as usize] = true,
        _ => {}
    }
}

/// Takes the formulas off the end of `work` up to the first that isn't done.
fn pop_open(work: &mut Vec<FormulaId>, marks: &[Mark]) -> Option<FormulaId>
    requires { All (λ f. f.0 < length marks.now) work.old.items }
    ensures first { MatchOption result
        ((open_work (done_of marks.now) (reverse work.old.items) ≡ []) × (work.new.items ≡ []))
        (λ f. open_work (done_of marks.now) (reverse work.old.items) ≡ f ∷ reverse work.new.items) }
    ensures within { IfSome result (λ f. f.0 < length marks.now) }
    ensures rest_within { All (λ f. f.0 < length marks.now) work.new.items }
{
    while let Some(id) = work.pop() {
        if !is_done(marks, id) {
            return Some(id);
        }
    }
    None
}

/// Whether a formula was taken off the work list.
#[tactic(auto, using(crate::proofs::Marks::flag_is))]
fn is_done(marks: &[Mark], id: FormulaId) -> bool
    requires { id.0 < length marks.now }
    ensures { result ≡ has_id (done_of marks.now) id }
{
    marks[id.0 as usize].done
}

/// Marks a formula as taken off the work list.
#[tactic(auto, using(crate::proofs::Marks::set_flag, crate::proofs::Marks::same_flags))]
fn mark_done(marks: &mut Vec<Mark>, id: FormulaId)
    requires { id.0 < length marks.old.items }
    ensures done { done_of marks.new.items ≡ with_id (done_of marks.old.items) id }
    ensures next { next_of marks.new.items ≡ next_of marks.old.items }
    ensures postponed { postponed_of marks.new.items ≡ postponed_of marks.old.items }
{
    let mark = marks[id.0 as usize];
    marks[id.0 as usize] = Mark { done: true, ..mark };
}

/// Marks a formula as left to the next position.
#[tactic(auto, using(crate::proofs::Marks::set_flag, crate::proofs::Marks::same_flags))]
fn mark_next(marks: &mut Vec<Mark>, id: FormulaId)
    requires { id.0 < length marks.old.items }
    ensures done { done_of marks.new.items ≡ done_of marks.old.items }
    ensures next { next_of marks.new.items ≡ with_id (next_of marks.old.items) id }
    ensures postponed { postponed_of marks.new.items ≡ postponed_of marks.old.items }
{
    let mark = marks[id.0 as usize];
    marks[id.0 as usize] = Mark { next: true, ..mark };
}

/// Marks an until as put off.
#[tactic(auto, using(crate::proofs::Marks::set_flag, crate::proofs::Marks::same_flags))]
fn mark_postponed(marks: &mut Vec<Mark>, id: FormulaId)
    requires { id.0 < length marks.old.items }
    ensures done { done_of marks.new.items ≡ done_of marks.old.items }
    ensures next { next_of marks.new.items ≡ next_of marks.old.items }
    ensures postponed { postponed_of marks.new.items ≡ with_id (postponed_of marks.old.items) id }
{
    let mark = marks[id.0 as usize];
    marks[id.0 as usize] = Mark {
        postponed: true,
        ..mark
    };
}

/// The cube that also wants the signal, or None where it forbids it.
fn wanting(cube: Cube, signal: u32) -> Option<Cube>
    requires { signal < MAX_SIGNALS }
    ensures { result ≡ wanting cube signal }
{
    if Letter(cube.not).has(signal) {
        None
    } else {
        Some(Cube {
            must: cube.must | 1 << signal,
            not: cube.not,
        })
    }
}

/// The cube that also forbids the signal, or None where it wants it.
fn forbidding(cube: Cube, signal: u32) -> Option<Cube>
    requires { signal < MAX_SIGNALS }
    ensures { result ≡ forbidding cube signal }
{
    if Letter(cube.must).has(signal) {
        None
    } else {
        Some(Cube {
            must: cube.must,
            not: cube.not | 1 << signal,
        })
    }
}

/// The cover that the marks of a leaf tell, without the formulas that are dropped, found in one pass over them.
fn cover_of(
    alloc: Global,
    cube: Cube,
    marks: &[Mark],
    dropped: &[bool],
) -> Result<Cover, AllocError>
    requires { length marks.now < 2 ^ 32 }
    ensures { IfOk result (λ c. c ≡ record { cube = cube; next = ids_of (without (next_of marks.now) dropped.now); postponed = ids_of (postponed_of marks.now) }) }
{
    let mut next = Vec::new(alloc);
    let mut postponed = Vec::new(alloc);
    for (id, mark) in marks.iter().enumerate() {
        note_chosen(&mut next, FormulaId(id as u32), stays(*mark, dropped, id))?;
        note_chosen(&mut postponed, FormulaId(id as u32), mark.postponed)?;
    }
    Ok(Cover {
        cube,
        next: ObligationSet::new(next),
        postponed: ObligationSet::new(postponed),
    })
}

/// Whether a formula is left over and not dropped.
fn stays(mark: Mark, dropped: &[bool], place: usize) -> bool
    ensures { result ≡ (mark.next && not (slice_index_or dropped.now place false)) }
{
    mark.next && !dropped.get(place).copied().unwrap_or(false)
}

/// Puts a formula behind the others if it is chosen.
fn note_chosen(ids: &mut Vec<FormulaId>, id: FormulaId, chosen: bool) -> Result<(), AllocError>
    ensures { OnOk result (ids.new.items ≡ ids.old.items ++ (if chosen then id ∷ [] else [])) }
{
    if chosen {
        ids.push(id)?;
    }
    Ok(())
}
