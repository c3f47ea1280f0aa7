//! A game from its conjuncts to the winner's strategy.

use crate::fixpoints::{Counts, solve};
use crate::solutions::Solution;
use crate::strategies::{Maker, Strategy};
use crate::views::{Spot, View};
use conjunct_monitors::{Meter, Order, Stop};
use conjuncts::{Conjunct, Forms};
use letters_and_lassos::Side;
use reactivity_arena::{Arena, Cast, Product, mark_of};
use std::alloc::{AllocError, Global};
use time_limits::Deadline;

/// What is played for.
#[derive(Clone, Copy)]
pub struct Players<'a> {
    pub forms: &'a Forms,
    pub assumptions: &'a [Conjunct],
    pub guarantees: &'a [Conjunct],
    pub order: Order,
    /// Whether it is to be told which guarantees the environment needs not to be met, where it wins. The product may have more states then.
    pub is_told: bool,
    /// Rows of the product of so many bytes are kept.
    pub most_kept: usize,
}

/// A game that was played.
#[derive(Drop)]
pub struct Played {
    pub strategy: Strategy,
    /// How many states the product has.
    pub positions: usize,
    /// Whether each guarantee is needed by the environment, where it wins and this was to be told.
    pub needed: Vec<bool>,
}

/// Plays a game, unless the time is over before: the strategy of who wins it.
pub fn play<D: Deadline>(
    alloc: Global,
    players: Players<'_>,
    meter: &mut Meter,
    deadline: &D,
) -> Result<Played, Stop> {
    let mut product = players.product(alloc, meter)?;
    let arena = Arena::new(&mut product, meter, deadline)?;
    let counts = Counts {
        goals: product.goals(),
        assumptions: product.assumptions(),
    };
    let kind = players.order.kind;
    let solution = solve(alloc, &arena, kind, counts, meter, deadline)?;
    let side = if solution.is_kept(0) {
        Side::System
    } else {
        Side::Environment
    };
    let view = View {
        side,
        solution: &solution,
    };
    let mut maker = Maker::new(alloc, &product, &arena, view);
    maker.make(meter, deadline)?;
    let needed = players.needed(alloc, &product, &solution, &maker)?;
    Ok(Played {
        positions: arena.states(),
        strategy: maker.strategy(),
        needed,
    })
}

impl Players<'_> {
    /// The product of the monitors of all conjuncts, those of the assumptions first.
    fn product(&self, alloc: Global, meter: &mut Meter) -> Result<Product, Stop> {
        let mut cast = Cast::new(alloc);
        for conjunct in self.assumptions {
            cast.add(alloc, self.forms, *conjunct, true, self.order, meter)?;
        }
        for conjunct in self.guarantees {
            cast.add(alloc, self.forms, *conjunct, false, self.order, meter)?;
        }
        Product::new(alloc, cast, self.order, self.is_told, self.most_kept, meter)
    }

    /// The guarantees that break, are broken in a state that is reached, or are waited for there.
    fn needed(
        &self,
        alloc: Global,
        product: &Product,
        solution: &Solution,
        maker: &Maker<'_>,
    ) -> Result<Vec<bool>, AllocError> {
        let first = product.first_guarantee();
        let mut needed = vec![in alloc; false; self.guarantees.len()]?;
        for monitor in &maker.broken {
            need(&mut needed, (*monitor as usize).checked_sub(first));
        }
        for spot in &maker.spots {
            if let Spot::At(state, _) = *spot {
                self.need_in(&mut needed, product, solution, state);
            }
        }
        Ok(needed)
    }

    fn need_in(&self, needed: &mut [bool], product: &Product, solution: &Solution, state: u32) {
        let first = product.first_guarantee();
        if let Some(loss) = solution.loss(state)
            && let Some(monitor) = product.monitor_of_goal(mark_of(loss.goal))
        {
            need(needed, monitor.checked_sub(first));
        }
        for guarantee in 0..self.guarantees.len() {
            if product.is_broken_in(state as usize, first.saturating_add(guarantee)) {
                need(needed, Some(guarantee));
            }
        }
    }
}

fn need(needed: &mut [bool], guarantee: Option<usize>) {
    if let Some(guarantee) = guarantee
        && let Some(own) = needed.get_mut(guarantee)
    {
        *own = true;
    }
}
