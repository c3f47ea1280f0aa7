//! Functions in the places of variables.

use crate::diagrams::Diagrams;
use crate::faults::DiagramFault;
use crate::functions::{Function, Variable};
use crate::operation_cache::{Key, Operation};

/// Functions in the places of variables, all at once. Results are kept by its number, so who uses one often makes it once.
#[derive(Drop)]
pub struct Substitution {
    number: u32,
    /// By variables.
    images: Vec<Option<Function>>,
}

impl Substitution {
    /// The functions that stand in the places of variables, which a collection has to keep.
    pub fn image(&self, variable: Variable) -> Option<Function> {
        self.images.get(variable.place()).copied().unwrap_or(None)
    }
}

/// A substitution, and the last level that it changes.
#[derive(Clone, Copy)]
struct Composition<'a> {
    substitution: &'a Substitution,
    last: u32,
}

impl Diagrams {
    /// Maps variables to functions. Where one stands twice, the later function counts.
    pub fn substitution(
        &mut self,
        images: &[(Variable, Function)],
    ) -> Result<Substitution, DiagramFault> {
        let mut functions = vec![in self.alloc; None; self.order.len()]?;
        for (variable, function) in images {
            match functions.get_mut(variable.place()) {
                Some(image) => *image = Some(*function),
                None => return Err(DiagramFault::UnknownVariable),
            }
        }
        Ok(Substitution {
            number: self.next_substitution()?,
            images: functions,
        })
    }

    fn next_substitution(&mut self) -> Result<u32, DiagramFault> {
        if self.substitutions == u32::MAX {
            return Err(DiagramFault::TooManySteps);
        }
        self.substitutions += 1;
        Ok(self.substitutions)
    }

    /// The function with others in the places of variables, all at once.
    pub fn compose(&mut self, f: Function, by: &Substitution) -> Result<Function, DiagramFault> {
        let composition = Composition {
            substitution: by,
            last: self.last_level(by),
        };
        self.composed(f, composition, self.depth())
    }

    /// The last level whose variable has an image, and 0 where there is none.
    fn last_level(&self, by: &Substitution) -> u32 {
        let mut last = 0;
        for (level, variable) in (0u32..u32::MAX).zip(&self.order) {
            if by.image(*variable).is_some() {
                last = level;
            }
        }
        last
    }

    fn composed(
        &mut self,
        f: Function,
        by: Composition<'_>,
        depth: u32,
    ) -> Result<Function, DiagramFault> {
        let level = self.table.level(f);
        if level > by.last {
            return Ok(f);
        }
        let is_complemented = f.is_complemented();
        let f = f.regular();
        let key = Key::of_number(Operation::Compose, f, by.substitution.number);
        if let Some(function) = self.cache.get(key) {
            return Ok(function.complemented_if(is_complemented));
        }
        let depth = self.deeper(depth)?;
        let (high, low) = self.table.halves(f, level);
        let high = self.composed(high, by, depth)?;
        let low = self.composed(low, by, depth)?;
        let image = self.image_at(level, by.substitution)?;
        let function = self.choice(image, high, low, self.depth())?;
        self.cache.put(key, function);
        Ok(function.complemented_if(is_complemented))
    }

    /// What stands in the place of a level's variable.
    fn image_at(&mut self, level: u32, by: &Substitution) -> Result<Function, DiagramFault> {
        let variable = self.order.get(level as usize).copied();
        match variable.and_then(|variable| by.image(variable)) {
            Some(function) => Ok(function),
            None => self.make(level, Function::TRUE, Function::FALSE),
        }
    }
}
