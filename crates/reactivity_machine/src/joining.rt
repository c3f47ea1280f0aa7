//! A strategy's machine whose states all differ: those with equal actions into equal states are joined, as long as there are any.

use conjunct_monitors::{Diagram, Diagrams, Meter, Stop};
use indexmap::IndexSet;
use reactivity_game::{Action, Strategy};
use std::alloc::{AllocError, Global};
use time_limits::Deadline;

/// A machine whose states are diagrams that end in the numbers of actions. The start is state 0.
#[derive(Drop)]
pub(crate) struct Joined {
    pub(crate) diagrams: Diagrams,
    pub(crate) actions: IndexSet<Action>,
    pub(crate) states: IndexSet<u32>,
}

/// The machine of a strategy with equal states joined.
pub(crate) fn join_states<D: Deadline>(
    alloc: Global,
    strategy: &Strategy,
    meter: &mut Meter,
    deadline: &D,
) -> Result<Joined, Stop> {
    let mut blocks = Vec::new(alloc);
    for _ in &strategy.states {
        blocks.push(0u32)?;
    }
    let mut count = 1usize;
    let mut joined = joined_by(alloc, strategy, &mut blocks)?;
    for _ in 0..strategy.states.len() {
        meter.take_steps(strategy.diagrams.count())?;
        if deadline.is_over() {
            return Err(Stop::Time);
        }
        if joined.states.len() == count {
            break;
        }
        count = joined.states.len();
        joined = joined_by(alloc, strategy, &mut blocks)?;
    }
    Ok(joined)
}

/// The states of a strategy where those of one block count as one. Their blocks are those of the states that are equal then.
fn joined_by(alloc: Global, strategy: &Strategy, blocks: &mut [u32]) -> Result<Joined, AllocError> {
    let mut joined = Joined {
        diagrams: Diagrams::new(alloc),
        actions: IndexSet::new(alloc),
        states: IndexSet::new(alloc),
    };
    let made = joined.take_diagrams(alloc, strategy, blocks)?;
    for (root, block) in strategy.states.iter().zip(blocks.iter_mut()) {
        let (number, _is_new) = joined.states.insert_full(number_at(&made, *root))?;
        *block = u32::try_from(number).unwrap_or(0);
    }
    Ok(joined)
}

impl Joined {
    /// The nodes of a strategy's diagrams by the blocks that they lead to. The nodes below a node stand before it.
    fn take_diagrams(
        &mut self,
        alloc: Global,
        strategy: &Strategy,
        blocks: &[u32],
    ) -> Result<Vec<u32>, AllocError> {
        let mut made = Vec::new(alloc);
        for node in 0..strategy.diagrams.count() {
            let number = match strategy.diagrams.node(u32::try_from(node).unwrap_or(0)) {
                Diagram::Split(level, low, high) => self
                    .diagrams
                    .split(level, number_at(&made, low), number_at(&made, high))?,
                Diagram::End(end) => self.action(strategy, end.place, blocks)?,
            };
            made.push(number)?;
        }
        Ok(made)
    }

    fn action(
        &mut self,
        strategy: &Strategy,
        place: u32,
        blocks: &[u32],
    ) -> Result<u32, AllocError> {
        let action = match strategy.actions.get_index(place as usize) {
            Some(action) => Action {
                writes: action.writes,
                next: number_at(blocks, action.next),
            },
            None => Action { writes: 0, next: 0 },
        };
        let (place, _is_new) = self.actions.insert_full(action)?;
        self.diagrams.end(u32::try_from(place).unwrap_or(0), false)
    }
}

fn number_at(numbers: &[u32], place: u32) -> u32 {
    numbers.get(place as usize).copied().unwrap_or(0)
}
