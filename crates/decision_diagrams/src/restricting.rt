//! Functions made simpler where their values don't matter.

use crate::diagrams::Diagrams;
use crate::faults::DiagramFault;
use crate::functions::{Function, Variable};
use crate::operation_cache::{Key, Operation};

impl Diagrams {
    /// A function that is alike where `care` is true, and mostly smaller: variables go of which it needn't depend there. It depends on no others.
    pub fn restrict(&mut self, f: Function, care: Function) -> Result<Function, DiagramFault> {
        self.restriction(f, care, self.depth())
    }

    /// The function for one value of a variable.
    pub fn cofactor(
        &mut self,
        f: Function,
        variable: Variable,
        value: bool,
    ) -> Result<Function, DiagramFault> {
        let literal = self.variable(variable)?.complemented_if(!value);
        self.restrict(f, literal)
    }

    #[cycle(restrictions)]
    fn restriction(
        &mut self,
        f: Function,
        care: Function,
        depth: u32,
    ) -> Result<Function, DiagramFault> {
        if f.is_constant() || care.is_constant() {
            return Ok(f);
        }
        let is_complemented = f.is_complemented();
        let f = f.regular();
        if f == care.regular() {
            let is_true = f == care;
            return Ok(Function::FALSE.complemented_if(is_true != is_complemented));
        }
        let key = Key::of_two(Operation::Restrict, f, care);
        if let Some(function) = self.cache.get(key) {
            return Ok(function.complemented_if(is_complemented));
        }
        let depth = self.deeper(depth)?;
        let function = self.restriction_below(f, care, depth)?;
        self.cache.put(key, function);
        Ok(function.complemented_if(is_complemented))
    }

    #[cycle(restrictions)]
    /// The restriction of a function by those of the parts below the topmost level.
    fn restriction_below(
        &mut self,
        f: Function,
        care: Function,
        depth: u32,
    ) -> Result<Function, DiagramFault> {
        let level = self.table.level(f);
        let (care_high, care_low) = self.table.halves(care, self.table.level(care));
        if self.table.level(care) < level {
            let care = self.disjunction(care_high, care_low, depth)?;
            return self.restriction(f, care, depth);
        }
        let (care_high, care_low) = self.table.halves(care, level);
        let (high, low) = self.table.halves(f, level);
        if care_high == Function::FALSE {
            return self.restriction(low, care_low, depth);
        }
        if care_low == Function::FALSE {
            return self.restriction(high, care_high, depth);
        }
        let high = self.restriction(high, care_high, depth)?;
        let low = self.restriction(low, care_low, depth)?;
        self.make(level, high, low)
    }
}
