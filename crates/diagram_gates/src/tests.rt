//! Gates of drawn functions of four variables, evaluated for all values.

use crate::{Bounds, Gates, Products, literals_of};
use decision_diagrams::{DiagramFault, DiagramLimits, Diagrams, Function};
use std::alloc::{AllocError, Global};

/// The literals of the inputs, by variables.
const INPUTS: [u32; 4] = [2, 4, 6, 8];

/// Functions that are drawn, and the state of the generator.
#[derive(Drop)]
struct Drawn {
    alloc: Global,
    diagrams: Diagrams,
    functions: Vec<Function>,
    state: u64,
}

impl Drawn {
    fn new(alloc: Global) -> Result<Drawn, DiagramFault> {
        let mut diagrams = Diagrams::new(alloc, DiagramLimits::default())?;
        let mut functions = Vec::new(alloc);
        for _ in 0..4 {
            let variable = diagrams.add_variable()?;
            functions.push(diagrams.variable(variable)?)?;
        }
        Ok(Drawn {
            alloc,
            diagrams,
            functions,
            state: 88_172_645_463_325_252,
        })
    }

    fn pick(&mut self) -> Function {
        self.state ^= self.state << 13;
        self.state ^= self.state >> 7;
        self.state ^= self.state << 17;
        let place = (self.state >> 9) as usize % self.functions.len().max(1);
        let function = self.functions.get(place).copied();
        function.unwrap_or(Function::TRUE)
    }

    /// A new function, which may be picked later.
    fn draw(&mut self) -> Result<Function, DiagramFault> {
        let (a, b, c) = (self.pick(), self.pick(), self.pick());
        let function = self.diagrams.if_then_else(a, b.not(), c)?;
        self.functions.push(function)?;
        Ok(function)
    }

    /// Whether a literal has a function's value for all values of the inputs.
    fn is_function(
        &self,
        gates: &Gates,
        literal: u32,
        function: Function,
    ) -> Result<bool, AllocError> {
        for place in 0u32..16 {
            let values = [
                place & 1 != 0,
                place & 2 != 0,
                place & 4 != 0,
                place & 8 != 0,
            ];
            let value = value_of(self.alloc, gates, &values, literal)?;
            if value != self.diagrams.evaluate(function, &values) {
                return Ok(false);
            }
        }
        Ok(true)
    }
}

fn value_of(
    alloc: Global,
    gates: &Gates,
    inputs: &[bool],
    literal: u32,
) -> Result<bool, AllocError> {
    let mut values = vec![in alloc; false; 1]?;
    values.extend_from_slice(inputs)?;
    for gate in &gates.list()? {
        let value = at(&values, gate.left) && at(&values, gate.right);
        values.push(value)?;
    }
    Ok(at(&values, literal))
}

fn at(values: &[bool], literal: u32) -> bool {
    let value = values.get((literal / 2) as usize).copied();
    value.unwrap_or(false) != (literal % 2 == 1)
}

#[test]
fn choices_have_the_values_of_functions(rt: HostRuntime) -> Result<(), DiagramFault> {
    let mut drawn = Drawn::new(rt.alloc())?;
    for _ in 0..100 {
        let functions = [drawn.draw()?, drawn.draw()?.not()];
        let mut gates = Gates::new(rt.alloc(), 10);
        let literals = literals_of(&mut drawn.diagrams, &mut gates, &INPUTS, &functions)?;
        for (literal, function) in literals.iter().zip(&functions) {
            assert!(rt; drawn.is_function(&gates, *literal, *function)?);
        }
    }
    Ok(())
}

#[test]
fn products_lie_between_bounds(rt: HostRuntime) -> Result<(), DiagramFault> {
    let mut drawn = Drawn::new(rt.alloc())?;
    for _ in 0..100 {
        let (a, b) = (drawn.draw()?, drawn.draw()?);
        let bounds = Bounds {
            least: drawn.diagrams.and(a, b)?,
            greatest: drawn.diagrams.or(a, b)?,
        };
        let mut gates = Gates::new(rt.alloc(), 10);
        let mut products = Products::new(rt.alloc(), &INPUTS);
        let (function, literal) = products.literal_between(
            &mut drawn.diagrams,
            &mut gates,
            bounds,
        )?;
        assert!(rt; drawn.is_function(&gates, literal, function)?);
        assert_eq!(rt;
            drawn.diagrams.implies(bounds.least, function)?,
            Function::TRUE
        );
        assert_eq!(rt;
            drawn.diagrams.implies(function, bounds.greatest)?,
            Function::TRUE
        );
    }
    Ok(())
}
