//! What a search knows: its nodes, which positions lose, and what is to be done.

use game_arena::Stop;
use game_moves::{Class, Game};
use std::alloc::{AllocError, Global};
use std::collections::{HashMap, VecDeque};

/// The answer to a class: the place of its candidate, and a node for each successor.
#[derive(Drop)]
pub struct Answer {
    pub candidate: usize,
    pub targets: Vec<u32>,
}

/// A position that is played from. Where it is expanded, each of its classes has an answer.
#[derive(Drop)]
pub(crate) struct Node {
    pub(crate) position: u32,
    pub(crate) classes: Vec<Class>,
    pub(crate) answers: Vec<Answer>,
    pub(crate) is_live: bool,
    pub(crate) is_expanded: bool,
    /// The answers that led here once.
    pub(crate) users: Vec<Use>,
}

/// The class of a node.
#[derive(Clone, Copy, Drop)]
pub(crate) struct Use {
    pub(crate) node: u32,
    pub(crate) class: usize,
}

/// Up to where the losing positions were looked through for a position, and whether it loses.
#[derive(Clone, Copy)]
struct Known {
    looked_at: usize,
    loses: bool,
}

impl Known {
    const NOTHING: Known = Known {
        looked_at: 0,
        loses: false,
    };
}

/// A search for a win.
#[derive(Drop)]
pub(crate) struct Search<'a> {
    pub(crate) game: Game<'a>,
    pub(crate) nodes: Vec<Node>,
    pub(crate) stack: Vec<u32>,
    pub(crate) redo: VecDeque<Use>,
    /// Whether a new successor is tried first with the states of the position before it.
    pub(crate) is_widened: bool,
    node_of: HashMap<u32, u32>,
    /// The least positions that are known to lose.
    losing: Vec<u32>,
    known: Vec<Known>,
    /// The nodes that may be live, and how many are.
    live: Vec<u32>,
    live_count: usize,
}

impl<'a> Search<'a> {
    pub(crate) fn new(game: Game<'a>, is_widened: bool) -> Search<'a> {
        let alloc = game.alloc;
        Search {
            game,
            nodes: Vec::new(alloc),
            stack: Vec::new(alloc),
            redo: VecDeque::new(alloc),
            is_widened,
            node_of: HashMap::new(alloc),
            losing: Vec::new(alloc),
            known: Vec::new(alloc),
            live: Vec::new(alloc),
            live_count: 0,
        }
    }

    pub(crate) fn alloc(&self) -> Global {
        self.game.alloc
    }

    pub(crate) fn is_live(&self, node: u32) -> bool {
        match self.nodes.get(node as usize) {
            Some(node) => node.is_live,
            None => false,
        }
    }

    pub(crate) fn is_expanded(&self, node: u32) -> bool {
        match self.nodes.get(node as usize) {
            Some(node) => node.is_expanded,
            None => false,
        }
    }

    pub(crate) fn position_of(&self, node: u32) -> u32 {
        match self.nodes.get(node as usize) {
            Some(node) => node.position,
            None => u32::MAX,
        }
    }

    /// Whether a position is at least one that is known to lose.
    pub(crate) fn loses(&mut self, position: u32) -> Result<bool, Stop> {
        let known = self.known_of(position);
        if known.loses {
            return Ok(true);
        }
        let unseen = self.losing.len().saturating_sub(known.looked_at);
        self.game.meter.take(unseen / 4)?;
        let loses = self.is_above_loss(position, known.looked_at);
        let known = Known {
            looked_at: self.losing.len(),
            loses,
        };
        self.know(position, known)?;
        Ok(loses)
    }

    fn know(&mut self, position: u32, known: Known) -> Result<(), AllocError> {
        let place = position as usize;
        if self.known.len() <= place {
            self.known.resize(place.saturating_add(1), Known::NOTHING)?;
        }
        if let Some(own) = self.known.get_mut(place) {
            *own = known;
        }
        Ok(())
    }

    fn known_of(&self, position: u32) -> Known {
        self.known
            .get(position as usize)
            .copied()
            .unwrap_or(Known::NOTHING)
    }

    /// Whether a position is at least one that was learnt to lose from this place on.
    fn is_above_loss(&self, position: u32, from: usize) -> bool {
        for least in self.losing.iter().skip(from) {
            if self.game.positions.is_at_most(*least, position) {
                return true;
            }
        }
        false
    }

    /// A live node whose position is at least this one; the position's own comes first.
    pub(crate) fn cover(&mut self, position: u32) -> Result<Option<u32>, Stop> {
        if let Some(node) = self.node_of.get(&position).copied() {
            if self.is_live(node) {
                return Ok(Some(node));
            }
        }
        self.game.meter.take(self.live.len() / 4)?;
        Ok(self.live_above(position))
    }

    /// The first live node whose position is at least this one.
    fn live_above(&self, position: u32) -> Option<u32> {
        for node in &self.live {
            if self.is_live_above(*node, position) {
                return Some(*node);
            }
        }
        None
    }

    fn is_live_above(&self, number: u32, position: u32) -> bool {
        match self.nodes.get(number as usize) {
            Some(node) => node.is_live && self.game.positions.is_at_most(position, node.position),
            None => false,
        }
    }

    /// A new node, which is to be expanded.
    pub(crate) fn add_node(&mut self, position: u32) -> Result<u32, AllocError> {
        let alloc = self.alloc();
        let number = u32::try_from(self.nodes.len()).unwrap_or(u32::MAX);
        self.nodes.push(Node {
            position,
            classes: Vec::new(alloc),
            answers: Vec::new(alloc),
            is_live: true,
            is_expanded: false,
            users: Vec::new(alloc),
        })?;
        self.node_of.insert(position, number)?;
        self.live.push(number)?;
        self.stack.push(number)?;
        self.live_count = self.live_count.saturating_add(1);
        Ok(number)
    }

    /// Learns that a position loses: with it fall all nodes whose position is at least it, and their users choose anew.
    pub(crate) fn learn_losing(&mut self, position: u32) -> Result<(), Stop> {
        self.losing.push(position)?;
        self.game.meter.take(self.live.len() / 4)?;
        self.fall_above(position)?;
        if self.live.len() > self.live_count.saturating_mul(2).saturating_add(50) {
            self.forget_fallen()?;
        }
        Ok(())
    }

    /// Takes all nodes out of the game whose position is at least this one.
    fn fall_above(&mut self, position: u32) -> Result<(), AllocError> {
        for place in 0..self.live.len() {
            let Some(node) = self.live.get(place).copied() else {
                break;
            };
            if self.is_live_above(node, position) {
                self.fall(node)?;
            }
        }
        Ok(())
    }

    fn forget_fallen(&mut self) -> Result<(), AllocError> {
        let mut live = Vec::with_capacity(self.alloc(), self.live_count)?;
        for node in &self.live {
            if self.is_live(*node) {
                live.push(*node)?;
            }
        }
        self.live = live;
        Ok(())
    }

    /// Takes a node out of the game.
    pub(crate) fn fall(&mut self, number: u32) -> Result<(), AllocError> {
        let alloc = self.alloc();
        if let Some(node) = self.nodes.get_mut(number as usize) {
            if !node.is_live {
                return Ok(());
            }
            node.is_live = false;
            self.live_count = self.live_count.saturating_sub(1);
            for user in &node.users {
                self.redo.push_back(*user)?;
            }
            node.classes = Vec::new(alloc);
            node.users = Vec::new(alloc);
        }
        Ok(())
    }
}
