//! Gates from the nodes of functions, a choice for each node, or less.

use crate::gates::Gates;
use decision_diagrams::{DiagramFault, Diagrams, Function, Split, Variable};
use std::alloc::Global;
use std::collections::HashMap;

/// Of functions with more nodes a node is always a choice, since comparing its parts would cost too much.
const MOST_COMPARED: usize = 1 << 12;

/// Literals of the functions of nodes, over those of variables.
#[derive(Drop)]
struct Literals<'a> {
    inputs: &'a [u32],
    known: HashMap<u32, u32>,
    is_compared: bool,
}

/// The literals of functions, where `inputs` has the literals of variables, by their numbers.
pub fn literals_of(
    diagrams: &mut Diagrams,
    gates: &mut Gates,
    inputs: &[u32],
    functions: &[Function],
) -> Result<Vec<u32>, DiagramFault> {
    let alloc = gates.allocator();
    let below = diagrams.functions_below(functions)?;
    let mut literals = Literals {
        inputs,
        known: HashMap::new(alloc),
        is_compared: below.len() <= MOST_COMPARED,
    };
    for function in &below {
        if let Some(split) = diagrams.split(*function) {
            let literal = literals.literal_at(diagrams, gates, split)?;
            literals.known.insert(function.number(), literal)?;
        }
    }
    literals.all(alloc, functions)
}

/// The literal of a variable.
pub(crate) fn input_of(inputs: &[u32], variable: Variable) -> Result<u32, DiagramFault> {
    match inputs.get(variable.number() as usize) {
        Some(literal) => Ok(*literal),
        None => Err(DiagramFault::UnknownVariable),
    }
}

impl Literals<'_> {
    fn all(&self, alloc: Global, functions: &[Function]) -> Result<Vec<u32>, DiagramFault> {
        let mut all = Vec::new(alloc);
        for function in functions {
            all.push(self.literal(*function))?;
        }
        Ok(all)
    }

    /// The literal of a constant or of a function that has one.
    fn literal(&self, function: Function) -> u32 {
        let number = function.number();
        if function.is_constant() {
            return number;
        }
        let regular = number - number % 2;
        self.known.get(&regular).copied().unwrap_or(0) ^ (number % 2)
    }

    /// The literal of a node whose parts have theirs.
    fn literal_at(
        &self,
        diagrams: &mut Diagrams,
        gates: &mut Gates,
        split: Split,
    ) -> Result<u32, DiagramFault> {
        let input = input_of(self.inputs, split.variable)?;
        let high = self.literal(split.high);
        let low = self.literal(split.low);
        if self.implies(diagrams, split.low, split.high)? {
            let part = gates.and(input, high)?;
            return gates.or(low, part);
        }
        if self.implies(diagrams, split.high, split.low)? {
            let part = gates.and(input ^ 1, low)?;
            return gates.or(high, part);
        }
        gates.choice(input, high, low)
    }

    fn implies(
        &self,
        diagrams: &mut Diagrams,
        a: Function,
        b: Function,
    ) -> Result<bool, DiagramFault> {
        if a == Function::FALSE || b == Function::TRUE {
            return Ok(true);
        }
        Ok(self.is_compared && diagrams.implies(a, b)? == Function::TRUE)
    }
}
