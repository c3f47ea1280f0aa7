//! Nets by sums of products: for each target cubes over leaves that are set on all of its columns and on no other.

use crate::factors::sum_literal;
use crate::wanted::Wanted;
use crate::work::Work;
use signal_nets::{
    Net, Problem, Signal, count_where, first_column, has_column, is_clear, literal_of, opposite,
    part,
};
use std::alloc::{AllocError, Global};

/// A product of literals, and the columns on which it is set.
#[derive(Drop)]
pub(crate) struct Cube {
    pub(crate) literals: Vec<u32>,
    columns: Vec<u64>,
}

/// From each column so many cubes are made, and the best is taken.
const TRIES: usize = 4;

/// A sum of more products is given up.
const MOST_CUBES: usize = 1000;

/// What the cubes of one target are made of.
#[derive(Drop)]
struct Leaves {
    alloc: Global,
    first: usize,
    behind: usize,
    width: usize,
}

/// The net of a problem; None where the work is over before it is made.
pub fn net_of_products(
    alloc: Global,
    problem: &Problem,
    work: &mut Work,
) -> Result<Option<Net>, AllocError> {
    let mut net = Net::new(alloc, problem)?;
    for (place, target) in problem.targets.iter().enumerate() {
        let leaves = Leaves {
            alloc,
            first: problem.first_node(place),
            behind: net.leaves(),
            width: problem.width,
        };
        let Some(literal) = leaves.target_literal(&mut net, target, work)? else {
            return Ok(None);
        };
        net.targets.push(literal)?;
    }
    Ok(Some(net.cleaned()?))
}

impl Leaves {
    /// The literal of a target, by the cheaper of the sums for it and for its opposite.
    fn target_literal(
        &self,
        net: &mut Net,
        target: &[u64],
        work: &mut Work,
    ) -> Result<Option<u32>, AllocError> {
        let Wanted { on, off } = Wanted::of_target(self.alloc, target)?;
        let Some(set) = self.sum(net, &on, &off, work)? else {
            return Ok(None);
        };
        let Some(unset) = self.sum(net, &off, &on, work)? else {
            return Ok(None);
        };
        if cost(&set) <= cost(&unset) {
            Ok(Some(sum_literal(net, set)?))
        } else {
            Ok(Some(opposite(sum_literal(net, unset)?)))
        }
    }

    /// Cubes that are set on all columns that are on, and on none that are off.
    fn sum(
        &self,
        net: &Net,
        on: &[u64],
        off: &[u64],
        work: &mut Work,
    ) -> Result<Option<Vec<Cube>>, AllocError> {
        let mut left = Vec::from_slice(self.alloc, on)?;
        let mut cubes = Vec::new(self.alloc);
        for _ in 0..MOST_CUBES {
            let Some(column) = first_column(&left) else {
                return Ok(Some(irredundant(self.alloc, on, cubes)?));
            };
            if work.is_over() {
                break;
            }
            let Some(cube) = self.best_cube(net, column, &left, off, work)? else {
                break;
            };
            take_off(&mut left, &cube.columns);
            cubes.push(cube)?;
        }
        Ok(None)
    }

    /// Of the cubes that are made of a column, the one with most of the columns that are left.
    fn best_cube(
        &self,
        net: &Net,
        column: usize,
        left: &[u64],
        off: &[u64],
        work: &mut Work,
    ) -> Result<Option<Cube>, AllocError> {
        let mut literals = self.literals_at(net, column)?;
        let steps = literals.len().saturating_mul(self.width.saturating_add(20));
        work.spend(steps.saturating_mul(TRIES));
        let mut best: Option<(u64, Cube)> = None;
        for _ in 0..TRIES {
            work.shuffle(&mut literals);
            let cube = self.widened(net, &literals, off)?;
            let worth = count_where(left, Signal::new(&cube.columns, false))
                .saturating_mul(100)
                .saturating_add(100)
                .saturating_sub(cube.literals.len() as u64);
            if best.as_ref().is_none_or(|(most, _)| worth > *most) {
                best = Some((worth, cube));
            }
        }
        Ok(best.map(|(_, cube)| cube))
    }

    /// The leaves as they are at a column.
    fn literals_at(&self, net: &Net, column: usize) -> Result<Vec<u32>, AllocError> {
        let mut literals = Vec::new(self.alloc);
        for leaf in self.first..self.behind {
            literals.push(literal_of(leaf, !has_column(net.columns(leaf), column)))?;
        }
        Ok(literals)
    }

    /// A product of literals without those that it can do without, in their order, and still be set on no column that is off.
    fn widened(&self, net: &Net, literals: &[u32], off: &[u64]) -> Result<Cube, AllocError> {
        let mut behind = self.products_behind(net, literals)?;
        let mut bad = Vec::from_slice(self.alloc, off)?;
        let mut kept = Vec::new(self.alloc);
        for literal in literals {
            let Some(others) = behind.pop() else {
                break;
            };
            let met = part(self.alloc, &bad, Signal::new(&others, false))?;
            if !is_clear(&met) {
                bad = part(self.alloc, &bad, net.signal(*literal))?;
                kept.push(*literal)?;
            }
        }
        kept.sort_unstable();
        self.product(net, kept)
    }

    /// For each literal the columns on which all those behind it are set, the last literal's first.
    fn products_behind(&self, net: &Net, literals: &[u32]) -> Result<Vec<Vec<u64>>, AllocError> {
        let alloc = self.alloc;
        let mut products = Vec::new(alloc);
        let mut columns = vec![in alloc; u64::MAX; self.width]?;
        for literal in literals.iter().rev() {
            let with = part(alloc, &columns, net.signal(*literal))?;
            products.push(columns)?;
            columns = with;
        }
        Ok(products)
    }

    fn product(&self, net: &Net, literals: Vec<u32>) -> Result<Cube, AllocError> {
        let alloc = self.alloc;
        let mut columns = vec![in alloc; u64::MAX; self.width]?;
        for literal in &literals {
            columns = part(alloc, &columns, net.signal(*literal))?;
        }
        Ok(Cube { literals, columns })
    }
}

fn take_off(columns: &mut [u64], others: &[u64]) {
    for (word, other) in columns.iter_mut().zip(others) {
        *word &= !*other;
    }
}

fn cost(cubes: &[Cube]) -> usize {
    let mut cost = 0usize;
    for cube in cubes {
        cost = cost.saturating_add(cube.literals.len());
    }
    cost
}

/// The cubes without those whose columns others have too.
fn irredundant(alloc: Global, on: &[u64], cubes: Vec<Cube>) -> Result<Vec<Cube>, AllocError> {
    let mut behind = unions_behind(alloc, on, &cubes)?;
    let mut left = Vec::from_slice(alloc, on)?;
    let mut kept = Vec::new(alloc);
    for cube in cubes {
        let mut own = part(alloc, &left, Signal::new(&cube.columns, false))?;
        if let Some(others) = behind.pop() {
            take_off(&mut own, &others);
        }
        if !is_clear(&own) {
            take_off(&mut left, &cube.columns);
            kept.push(cube)?;
        }
    }
    Ok(kept)
}

/// For each cube the columns of those behind it, the last cube's first.
fn unions_behind(alloc: Global, on: &[u64], cubes: &[Cube]) -> Result<Vec<Vec<u64>>, AllocError> {
    let mut unions = Vec::new(alloc);
    let mut union = vec![in alloc; 0u64; on.len()]?;
    for cube in cubes.iter().rev() {
        unions.push(Vec::from_slice(alloc, &union)?)?;
        for (word, own) in union.iter_mut().zip(&cube.columns) {
            *word |= *own;
        }
    }
    Ok(unions)
}
