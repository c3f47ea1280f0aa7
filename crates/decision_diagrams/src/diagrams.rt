//! A package of diagrams: its variables and their order, its nodes and its limits.

ghost use Rattle.std.specs.Prelude.{◌<◌, IfOk};

use crate::faults::{DiagramFault, DiagramLimits};
use crate::functions::{Function, Variable};
use crate::node_table::{LAST_LEVEL, Node, NodeTable};
use crate::operation_cache::OperationCache;
use std::alloc::Global;

/// The nodes of a package, all in one order of its variables.
#[derive(Drop)]
pub struct Diagrams {
    pub(crate) alloc: Global,
    limits: DiagramLimits,
    pub(crate) table: NodeTable,
    pub(crate) cache: OperationCache,
    /// The level of each variable.
    levels: Vec<u32>,
    /// The variable of each level.
    pub(crate) order: Vec<Variable>,
    /// The steps that are left.
    steps: u64,
    /// The substitutions that were made.
    pub(crate) substitutions: u32,
    /// The nodes, free or not, for which there is room.
    room: usize,
    /// The nodes that the last collection left.
    pub(crate) kept: usize,
}

/// At most so many variables, as each takes a call inside others.
const MOST_VARIABLES: usize = 4096;

/// Numbers of nodes are below this one, since keys of the cache have 28 bits for a function.
const MOST_NODES: usize = 1 << 27;

/// The room for nodes and the entries of the cache in the beginning.
const FIRST_ROOM: usize = 1 << 12;

/// The bytes of a node, of its chain and of its mark.
const NODE_BYTES: usize = 24;

const ENTRY_BYTES: usize = 16;

impl Diagrams {
    /// No variables and no nodes.
    pub fn new(alloc: Global, limits: DiagramLimits) -> Result<Diagrams, DiagramFault> {
        Ok(Diagrams {
            alloc,
            limits,
            table: NodeTable::new(alloc, FIRST_ROOM)?,
            cache: OperationCache::new(alloc, FIRST_ROOM.min(limits.cache))?,
            levels: Vec::new(alloc),
            order: Vec::new(alloc),
            steps: u64::MAX,
            substitutions: 0,
            room: FIRST_ROOM.min(limits.nodes),
            kept: 0,
        })
    }

    /// A new variable, last in the order.
    pub fn add_variable(&mut self) -> Result<Variable, DiagramFault> {
        let place = self.order.len();
        if place >= MOST_VARIABLES {
            return Err(DiagramFault::TooManyVariables);
        }
        let number = place as u32;
        let variable = Variable::of_number(number);
        self.levels.push(number)?;
        self.order.push(variable)?;
        Ok(variable)
    }

    /// Puts the variables into an order that has each of them once, before nodes are made.
    pub fn set_order(&mut self, order: &[Variable]) -> Result<(), DiagramFault> {
        let levels = self.levels_of(order)?;
        self.order = Vec::from_slice(self.alloc, order)?;
        self.levels = levels;
        Ok(())
    }

    /// The level of each variable in an order.
    fn levels_of(&self, order: &[Variable]) -> Result<Vec<u32>, DiagramFault> {
        if order.len() != self.order.len() || self.table.used() > 0 {
            return Err(DiagramFault::WrongOrder);
        }
        let mut levels = vec![in self.alloc; LAST_LEVEL; order.len()]?;
        for (level, variable) in order.iter().enumerate() {
            match levels.get_mut(variable.place()) {
                Some(place) if *place == LAST_LEVEL => {
                    *place = u32::try_from(level).unwrap_or(LAST_LEVEL)
                }
                _ => return Err(DiagramFault::WrongOrder),
            }
        }
        Ok(levels)
    }

    /// The variables from the topmost one on.
    pub fn order(&self) -> &[Variable] {
        &self.order
    }

    /// Lets later calls take at most so many steps together. A step is about a node that is made or an operation that isn't known yet.
    pub fn set_steps(&mut self, steps: u64) {
        self.steps = steps;
    }

    /// The steps that are left.
    pub fn steps(&self) -> u64 {
        self.steps
    }

    /// The number of nodes, whether they are reached or not.
    pub fn nodes(&self) -> usize {
        self.table.used()
    }

    /// The bytes of all tables.
    pub fn bytes(&self) -> usize {
        let nodes = self.room.saturating_mul(NODE_BYTES);
        nodes.saturating_add(bytes_of_entries(self.cache.entries()))
    }

    /// The function that is true where a variable is set.
    pub fn variable(&mut self, variable: Variable) -> Result<Function, DiagramFault> {
        let level = self.level_of(variable)?;
        self.make(level, Function::TRUE, Function::FALSE)
    }

    pub(crate) fn level_of(&self, variable: Variable) -> Result<u32, DiagramFault> {
        match self.levels.get(variable.place()) {
            Some(level) => Ok(*level),
            None => Err(DiagramFault::UnknownVariable),
        }
    }

    /// More than the calls that stand inside each other, since each goes to a greater level.
    pub(crate) fn depth(&self) -> u32 {
        u32::try_from(self.order.len())
            .unwrap_or(LAST_LEVEL)
            .saturating_add(2)
    }

    /// Takes a step, for a call inside one at this depth.
    pub(crate) fn deeper(&mut self, depth: u32) -> Result<u32, DiagramFault>
        ensures { IfOk result (λ left. left < depth) }
    {
        if depth == 0 {
            return Err(DiagramFault::TooManyVariables);
        }
        if self.steps == 0 {
            return Err(DiagramFault::TooManySteps);
        }
        self.steps -= 1;
        Ok(depth - 1)
    }

    /// The function that is `high` where the variable of a level is set, and else `low`. Their levels are greater.
    pub(crate) fn make(
        &mut self,
        level: u32,
        high: Function,
        low: Function,
    ) -> Result<Function, DiagramFault> {
        if high == low {
            return Ok(high);
        }
        let is_complemented = low.is_complemented();
        let node = Node {
            level,
            high: high.complemented_if(is_complemented),
            low: low.regular(),
        };
        let function = match self.table.found(node) {
            Some(function) => function,
            None => self.put(node)?,
        };
        Ok(function.complemented_if(is_complemented))
    }

    fn put(&mut self, node: Node) -> Result<Function, DiagramFault> {
        if !self.table.has_free() && self.table.numbers() >= self.room {
            self.grow()?;
        }
        Ok(self.table.put(node)?)
    }

    /// Makes room for twice as many nodes, or as many as the limits allow, and lets the cache grow with them.
    fn grow(&mut self) -> Result<(), DiagramFault> {
        let room = self.next_room()?;
        self.table.grow(self.alloc, room)?;
        self.room = room;
        let entries = self.cache.entries().saturating_mul(2);
        let bytes = self.bytes().saturating_add(bytes_of_entries(entries));
        if entries <= self.limits.cache.min(room) && bytes <= self.limits.bytes {
            self.cache = self.cache.doubled(self.alloc)?;
        }
        Ok(())
    }

    fn next_room(&self) -> Result<usize, DiagramFault> {
        let most = self.limits.nodes.min(MOST_NODES);
        if self.room >= most {
            return Err(DiagramFault::TooManyNodes);
        }
        let cache = bytes_of_entries(self.cache.entries());
        let allowed = self.limits.bytes.saturating_sub(cache) / NODE_BYTES;
        let room = self.room.saturating_mul(2).min(most).min(allowed);
        if room <= self.room {
            return Err(DiagramFault::TooManyBytes);
        }
        Ok(room)
    }
}

fn bytes_of_entries(entries: usize) -> usize {
    entries.saturating_mul(ENTRY_BYTES)
}
