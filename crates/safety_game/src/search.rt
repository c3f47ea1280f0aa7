//! The search for a win, forward from the start.

use crate::search_state::{Answer, Search, Use};
use game_arena::tables::{is_in, mark};
use game_arena::{Arena, Stop};
use game_moves::{Candidate, Class};
use std::alloc::AllocError;
use std::sync::atomic::{AtomicBool, Ordering};
use time_limits::Deadline;

/// Of the answers to a class so many are looked at for one that stays within what is there.
const MOST_LOOKED_AT: usize = 400;

/// A losing position of more states is learnt as it is.
const MOST_LESSENED: usize = 60;

/// About what is kept of a use of a node.
const USE_BYTES: usize = 16;

/// What an answer would lead to: a live node for each successor that has one, and how many have none.
#[derive(Drop)]
struct Plan {
    place: usize,
    targets: Vec<Option<u32>>,
    missing: usize,
}

impl Search<'_> {
    /// Whether the start wins. Once `is_decided` is set, or the time is over, there are no more steps.
    pub(crate) fn run<D: Deadline>(
        &mut self,
        is_decided: &AtomicBool,
        deadline: &D,
    ) -> Result<bool, Stop> {
        let start = self.game.start()?;
        self.add_node(start)?;
        for _ in 0..u64::MAX {
            if is_decided.load(Ordering::SeqCst) || deadline.is_over() {
                return Err(Stop::Steps);
            }
            self.choose_anew(deadline)?;
            if !self.is_live(0) {
                return Ok(false);
            }
            if self.stack.is_empty() && !self.stack_unexpanded()? {
                return Ok(true);
            }
            if let Some(node) = self.stack.pop() {
                self.visit(node)?;
            }
        }
        Ok(false)
    }

    /// Answers again to the classes whose answer led to a node that fell.
    fn choose_anew<D: Deadline>(&mut self, deadline: &D) -> Result<(), Stop> {
        for _ in 0..u64::MAX {
            let Some(user) = self.redo.pop_front() else {
                break;
            };
            if deadline.is_over() {
                return Err(Stop::Steps);
            }
            let is_open = self.is_live(user.node) && self.is_expanded(user.node);
            if is_open && !self.stands(user) && !self.choose(user)? {
                self.lose(user.node)?;
            }
        }
        Ok(())
    }

    /// Whether the answer to a class leads to live nodes alone.
    fn stands(&self, user: Use) -> bool {
        let Some(answer) = self.answer_of(user) else {
            return true;
        };
        for target in &answer.targets {
            if !self.is_live(*target) {
                return false;
            }
        }
        true
    }

    fn answer_of(&self, user: Use) -> Option<&Answer> {
        match self.nodes.get(user.node as usize) {
            Some(node) => node.answers.get(user.class),
            None => None,
        }
    }

    /// Puts the nodes on the stack that answers lead to and that aren't expanded. Whether there are any.
    fn stack_unexpanded(&mut self) -> Result<bool, Stop> {
        self.game.meter.take(self.nodes.len())?;
        let mut reached = vec![in self.alloc(); false; self.nodes.len()]?;
        let mut walk = vec![in self.alloc(); 0u32]?;
        for _ in 0..u64::MAX {
            let Some(number) = walk.pop() else {
                break;
            };
            if !is_in(&reached, number) {
                mark(&mut reached, number);
                self.walk_on(number, &mut walk)?;
            }
        }
        Ok(!self.stack.is_empty())
    }

    /// Goes on to the nodes that the answers of a node lead to, or puts it on the stack where it isn't expanded.
    fn walk_on(&mut self, number: u32, walk: &mut Vec<u32>) -> Result<(), AllocError> {
        if !self.is_expanded(number) {
            self.stack.push(number)?;
            return Ok(());
        }
        if let Some(node) = self.nodes.get(number as usize) {
            for answer in &node.answers {
                walk.extend_from_slice(&answer.targets)?;
            }
        }
        Ok(())
    }

    /// Expands a node and answers each of its classes.
    fn visit(&mut self, number: u32) -> Result<(), Stop> {
        if !self.is_live(number) || self.is_expanded(number) || !self.is_needed(number) {
            return Ok(());
        }
        let position = self.position_of(number);
        if self.loses(position)? {
            return Ok(self.fall(number)?);
        }
        let classes = self.game.expand(position)?;
        let count = classes.len();
        self.put_classes(number, classes)?;
        for class in 0..count {
            if !self.choose(Use {
                node: number,
                class,
            })? {
                return self.lose(number);
            }
        }
        Ok(())
    }

    fn put_classes(&mut self, number: u32, classes: Vec<Class>) -> Result<(), AllocError> {
        let alloc = self.alloc();
        if let Some(node) = self.nodes.get_mut(number as usize) {
            for _ in &classes {
                node.answers.push(Answer {
                    candidate: 0,
                    targets: Vec::new(alloc),
                })?;
            }
            node.classes = classes;
            node.is_expanded = true;
        }
        Ok(())
    }

    /// Whether an answer of a live node leads to the node, or it is the start.
    fn is_needed(&self, number: u32) -> bool {
        let Some(node) = self.nodes.get(number as usize) else {
            return false;
        };
        for user in &node.users {
            if self.is_live(user.node) && self.leads_to(*user, number) {
                return true;
            }
        }
        number == 0
    }

    fn leads_to(&self, user: Use, number: u32) -> bool {
        match self.answer_of(user) {
            Some(answer) => answer.targets.contains(&number),
            None => false,
        }
    }

    /// Answers a class. Whether there is an answer.
    fn choose(&mut self, user: Use) -> Result<bool, Stop> {
        let taken = self.take_candidates(user);
        let candidates = self.not_lost(taken)?;
        let Some(plan) = self.best_plan(&candidates)? else {
            return Ok(false);
        };
        let answer = self.answer(user.node, &candidates, &plan)?;
        self.add_user(&answer.targets, user)?;
        self.put_answer(user, candidates, answer);
        Ok(true)
    }

    /// The candidates that aren't known to lose.
    fn not_lost(&mut self, candidates: Vec<Candidate>) -> Result<Vec<Candidate>, Stop> {
        let mut kept = Vec::with_capacity(self.alloc(), candidates.len())?;
        for candidate in candidates {
            if !self.leads_to_loss(&candidate)? {
                kept.push(candidate)?;
            }
        }
        Ok(kept)
    }

    /// The answer of a plan, with new nodes where some are missing.
    fn answer(&mut self, node: u32, candidates: &[Candidate], plan: &Plan) -> Result<Answer, Stop> {
        let mut targets = Vec::new(self.alloc());
        if let Some(candidate) = candidates.get(plan.place) {
            for (successor, target) in candidate.successors.iter().zip(&plan.targets) {
                targets.push(self.target_of(node, *successor, *target)?)?;
            }
        }
        Ok(Answer {
            candidate: plan.place,
            targets,
        })
    }

    /// Tells nodes that an answer leads to them.
    fn add_user(&mut self, targets: &[u32], user: Use) -> Result<(), Stop> {
        self.game
            .positions
            .take_bytes(targets.len().saturating_mul(USE_BYTES))?;
        for target in targets {
            if let Some(node) = self.nodes.get_mut(*target as usize) {
                node.users.push(user)?;
            }
        }
        Ok(())
    }

    fn take_candidates(&mut self, user: Use) -> Vec<Candidate> {
        let mut taken = Vec::new(self.alloc());
        if let Some(node) = self.nodes.get_mut(user.node as usize) {
            if let Some(class) = node.classes.get_mut(user.class) {
                std::mem::swap(&mut taken, &mut class.candidates);
            }
        }
        taken
    }

    fn put_answer(&mut self, user: Use, candidates: Vec<Candidate>, answer: Answer) {
        if let Some(node) = self.nodes.get_mut(user.node as usize) {
            if let Some(class) = node.classes.get_mut(user.class) {
                class.candidates = candidates;
            }
            if let Some(place) = node.answers.get_mut(user.class) {
                *place = answer;
            }
        }
    }

    /// Whether a successor is known to lose.
    fn leads_to_loss(&mut self, candidate: &Candidate) -> Result<bool, Stop> {
        for successor in &candidate.successors {
            if self.loses(*successor)? {
                return Ok(true);
            }
        }
        Ok(false)
    }

    /// The first answer with fewest successors that no live node covers.
    fn best_plan(&mut self, candidates: &[Candidate]) -> Result<Option<Plan>, Stop> {
        let mut best = Plan {
            place: 0,
            targets: Vec::new(self.alloc()),
            missing: usize::MAX,
        };
        for (place, candidate) in candidates.iter().take(MOST_LOOKED_AT).enumerate() {
            let plan = self.plan(place, candidate)?;
            if plan.missing < best.missing {
                best = plan;
            }
            if best.missing == 0 {
                break;
            }
        }
        if best.missing == usize::MAX {
            return Ok(None);
        }
        Ok(Some(best))
    }

    fn plan(&mut self, place: usize, candidate: &Candidate) -> Result<Plan, Stop> {
        let mut targets = Vec::new(self.alloc());
        let mut missing = 0usize;
        for successor in &candidate.successors {
            let target = self.cover(*successor)?;
            if target.is_none() {
                missing = missing.saturating_add(1);
            }
            targets.push(target)?;
        }
        Ok(Plan {
            place,
            targets,
            missing,
        })
    }

    /// The node for a successor: the one that covers it, or one of it widened, or a new one.
    fn target_of(&mut self, node: u32, successor: u32, target: Option<u32>) -> Result<u32, Stop> {
        if let Some(node) = target {
            return Ok(node);
        }
        let mut wanted = successor;
        if let Some(node) = self.cover(wanted)? {
            return Ok(node);
        }
        if self.is_widened
            && let Some(wider) = self.widened(node, successor)?
        {
            wanted = wider;
        }
        match self.cover(wanted)? {
            Some(node) => Ok(node),
            None => Ok(self.add_node(wanted)?),
        }
    }

    /// A successor with the counted states of the node before it added with no mark met, as if all that was waited for were asked for
    /// again at once; None where that adds nothing or is known to lose.
    fn widened(&mut self, node: u32, successor: u32) -> Result<Option<u32>, Stop> {
        let mut bytes = self.game.positions.copy(successor)?;
        let position = self.position_of(node);
        let arena = self.game.arena;
        if !widen(&mut bytes, self.game.positions.bytes(position), arena) {
            return Ok(None);
        }
        let wider = self.game.positions.number_of(&bytes)?;
        if self.loses(wider)? {
            return Ok(None);
        }
        Ok(Some(wider))
    }

    /// Learns that a node loses, by a position that is as small as it can be and loses at once.
    fn lose(&mut self, number: u32) -> Result<(), Stop> {
        let position = self.position_of(number);
        let least = if self.is_expanded(number) {
            self.lessened(position)?
        } else {
            position
        };
        self.fall(number)?;
        self.learn_losing(least)
    }

    /// A position at most this one that loses at once.
    fn lessened(&mut self, position: u32) -> Result<u32, Stop> {
        let mut bytes = self.game.positions.copy(position)?;
        let mut order = Vec::new(self.alloc());
        for (state, byte) in bytes.iter().enumerate() {
            if *byte > 0 {
                order.push((*byte, state))?;
            }
        }
        if order.len() > MOST_LESSENED {
            return Ok(position);
        }
        order.sort_unstable();
        for (byte, state) in order {
            self.lessen(&mut bytes, state, byte)?;
        }
        self.game.positions.number_of(&bytes)
    }

    /// Makes the byte of a state as small as it can be with the position still losing at once.
    fn lessen(&mut self, bytes: &mut [u8], state: usize, byte: u8) -> Result<(), Stop> {
        put_byte(bytes, state, 0);
        if self.loses_at_once(bytes)? {
            return Ok(());
        }
        for lesser in (1..byte).rev() {
            put_byte(bytes, state, lesser);
            if !self.loses_at_once(bytes)? {
                put_byte(bytes, state, lesser.saturating_add(1));
                return Ok(());
            }
        }
        put_byte(bytes, state, 1);
        Ok(())
    }

    /// Whether some class of a position has only answers that are known to lose.
    fn loses_at_once(&mut self, bytes: &[u8]) -> Result<bool, Stop> {
        let position = self.game.positions.number_of(bytes)?;
        for class in self.game.expand(position)? {
            if self.is_lost(&class)? {
                return Ok(true);
            }
        }
        Ok(false)
    }

    fn is_lost(&mut self, class: &Class) -> Result<bool, Stop> {
        for candidate in &class.candidates {
            if !self.leads_to_loss(candidate)? {
                return Ok(false);
            }
        }
        Ok(true)
    }
}

/// Adds the counted states that a position has alone. Whether there are any.
fn widen(bytes: &mut [u8], before: &[u8], arena: &Arena) -> bool {
    let mut is_wider = false;
    for (state, (byte, old)) in (0u32..u32::MAX).zip(bytes.iter_mut().zip(before)) {
        if *byte == 0 && *old > 0 && arena.is_counted(state) {
            *byte = 1;
            is_wider = true;
        }
    }
    is_wider
}

fn put_byte(bytes: &mut [u8], state: usize, byte: u8) {
    if let Some(place) = bytes.get_mut(state) {
        *place = byte;
    }
}
