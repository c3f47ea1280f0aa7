//! The moves of a machine, a cube of letters for each path of its diagrams.

use crate::joining::Joined;
use conjunct_monitors::{Diagram, Meter, Order, Stop};
use game_arena::{Literals, Player};
use game_machine::{ClassMachine, MOST_MOVES, Move};
use letters_and_lassos::Side;
use reactivity_game::Action;
use std::alloc::Global;

/// A node of a diagram, and the letters that lead to it.
#[derive(Clone, Copy)]
struct Place {
    node: u32,
    when: Literals,
}

/// The machine of a side over moves; None where these are too many.
pub(crate) fn class_machine(
    alloc: Global,
    joined: &Joined,
    order: Order,
    side: Side,
    meter: &mut Meter,
) -> Result<Option<ClassMachine>, Stop> {
    let mut states = Vec::new(alloc);
    let mut count = 0usize;
    for root in &joined.states {
        let moves = moves_of(alloc, joined, order, *root, meter)?;
        count = count.saturating_add(moves.len());
        if count > MOST_MOVES {
            return Ok(None);
        }
        states.push(moves)?;
    }
    let player = Player {
        inputs: order.inputs,
        outputs: order.outputs,
        side,
        kind: match side {
            Side::System => order.kind,
            Side::Environment => order.kind.other(),
        },
    };
    Ok(Some(ClassMachine { player, states }))
}

fn moves_of(
    alloc: Global,
    joined: &Joined,
    order: Order,
    root: u32,
    meter: &mut Meter,
) -> Result<Vec<Move>, Stop> {
    let mut moves = Vec::new(alloc);
    let mut open = vec![in alloc;
        Place {
            node: root,
            when: Literals::ANY
        },
    ]?;
    for _ in 0..u64::MAX {
        let Some(place) = open.pop() else {
            break;
        };
        meter.take_steps(1)?;
        match joined.diagrams.node(place.node) {
            Diagram::Split(level, low, high) => {
                open.push(place.on(order, level, true, high))?;
                open.push(place.on(order, level, false, low))?;
            }
            Diagram::End(end) => {
                if let Some(action) = joined.actions.get_index(end.place as usize) {
                    moves.push(move_of(place.when, *action))?;
                }
            }
        }
        if moves.len() > MOST_MOVES {
            break;
        }
    }
    Ok(moves)
}

fn move_of(when: Literals, action: Action) -> Move {
    Move {
        when,
        writes: action.writes,
        next: action.next,
    }
}

impl Place {
    /// The node behind this one where the signal of a level has a value.
    fn on(self, order: Order, level: u32, value: bool, node: u32) -> Place {
        Place {
            node,
            when: self.when.with(order.signal_of(level), value),
        }
    }
}
