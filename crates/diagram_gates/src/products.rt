//! Sums of products of which none can be left out, as gates.

use crate::choices::input_of;
use crate::gates::Gates;
use decision_diagrams::{DiagramFault, Diagrams, Function, Variable};
use std::alloc::Global;
use std::collections::HashMap;

/// Functions between which another one may lie: it is true where the least one is, and false where the greatest one is. The least implies
/// the greatest.
#[derive(Clone, Copy, Debug, PartialEq, Eq, Hash)]
pub struct Bounds {
    pub least: Function,
    pub greatest: Function,
}

/// A sum of products: its function and its literal.
#[derive(Clone, Copy)]
struct Sum {
    function: Function,
    literal: u32,
}

/// Sums of products that were made, with common products of all of them.
#[derive(Drop)]
pub struct Products<'a> {
    /// The literals of variables, by their numbers.
    inputs: &'a [u32],
    known: HashMap<Bounds, Sum>,
}

/// The bounds of the products with a variable's literal, of those with its opposite, and of the others, where these two are known.
#[derive(Clone, Copy)]
struct Halves {
    variable: Variable,
    high: Bounds,
    low: Bounds,
}

impl<'a> Products<'a> {
    /// No sums yet, where `inputs` has the literals of variables, by their numbers.
    pub fn new(alloc: Global, inputs: &'a [u32]) -> Products<'a> {
        Products {
            inputs,
            known: HashMap::new(alloc),
        }
    }

    /// The literal of a sum of products between bounds, and its function. No collection of nodes may come between two calls.
    pub fn literal_between(
        &mut self,
        diagrams: &mut Diagrams,
        gates: &mut Gates,
        bounds: Bounds,
    ) -> Result<(Function, u32), DiagramFault> {
        let depth = u32::try_from(diagrams.order().len()).unwrap_or(u32::MAX);
        let sum = self.sum(diagrams, gates, bounds, depth)?;
        Ok((sum.function, sum.literal))
    }

    fn sum(
        &mut self,
        diagrams: &mut Diagrams,
        gates: &mut Gates,
        bounds: Bounds,
        depth: u32,
    ) -> Result<Sum, DiagramFault> {
        if let Some(sum) = constant_sum(bounds) {
            return Ok(sum);
        }
        if let Some(sum) = self.known.get(&bounds) {
            return Ok(*sum);
        }
        let (Some(halves), true) = (split_bounds(diagrams, bounds), depth > 0) else {
            return Err(DiagramFault::TooManyVariables);
        };
        let (high, low) = only_bounds(diagrams, halves)?;
        let high = self.sum(diagrams, gates, high, depth - 1)?;
        let low = self.sum(diagrams, gates, low, depth - 1)?;
        let rest = rest_bounds(diagrams, halves, high.function, low.function)?;
        let rest = self.sum(diagrams, gates, rest, depth - 1)?;
        let sum = self.joined(diagrams, gates, halves.variable, [high, low, rest])?;
        self.known.insert(bounds, sum)?;
        Ok(sum)
    }

    /// The sum of those with a variable, with its opposite and with neither.
    fn joined(
        &self,
        diagrams: &mut Diagrams,
        gates: &mut Gates,
        variable: Variable,
        [high, low, rest]: [Sum; 3],
    ) -> Result<Sum, DiagramFault> {
        let condition = diagrams.variable(variable)?;
        let function = diagrams.if_then_else(condition, high.function, low.function)?;
        let input = input_of(self.inputs, variable)?;
        let one = gates.and(input, high.literal)?;
        let two = gates.and(input ^ 1, low.literal)?;
        let either = gates.or(one, two)?;
        Ok(Sum {
            function: diagrams.or(function, rest.function)?,
            literal: gates.or(either, rest.literal)?,
        })
    }
}

fn constant_sum(bounds: Bounds) -> Option<Sum> {
    if bounds.least == Function::FALSE {
        return Some(Sum {
            function: Function::FALSE,
            literal: 0,
        });
    }
    if bounds.greatest == Function::TRUE {
        return Some(Sum {
            function: Function::TRUE,
            literal: 1,
        });
    }
    None
}

/// The bounds for both values of the topmost variable; None where both are constants.
fn split_bounds(diagrams: &Diagrams, bounds: Bounds) -> Option<Halves> {
    let variable = diagrams.topmost(&[bounds.least, bounds.greatest])?;
    let (least_high, least_low) = diagrams.halves(bounds.least, variable);
    let (greatest_high, greatest_low) = diagrams.halves(bounds.greatest, variable);
    Some(Halves {
        variable,
        high: Bounds {
            least: least_high,
            greatest: greatest_high,
        },
        low: Bounds {
            least: least_low,
            greatest: greatest_low,
        },
    })
}

/// The bounds of what is true for one value of the variable alone, for each value.
fn only_bounds(diagrams: &mut Diagrams, halves: Halves) -> Result<(Bounds, Bounds), DiagramFault> {
    let high = Bounds {
        least: diagrams.and(halves.high.least, halves.low.greatest.not())?,
        greatest: halves.high.greatest,
    };
    let low = Bounds {
        least: diagrams.and(halves.low.least, halves.high.greatest.not())?,
        greatest: halves.low.greatest,
    };
    Ok((high, low))
}

/// The bounds of the products without the variable, where those with it are there.
fn rest_bounds(
    diagrams: &mut Diagrams,
    halves: Halves,
    high: Function,
    low: Function,
) -> Result<Bounds, DiagramFault> {
    let one = diagrams.and(halves.high.least, high.not())?;
    let two = diagrams.and(halves.low.least, low.not())?;
    Ok(Bounds {
        least: diagrams.or(one, two)?,
        greatest: diagrams.and(halves.high.greatest, halves.low.greatest)?,
    })
}
