//! Sets of variables, and quantifiers over them.

use crate::diagrams::Diagrams;
use crate::faults::DiagramFault;
use crate::functions::{Function, Variable};
use crate::operation_cache::{Key, Operation};

impl Diagrams {
    /// A set of variables as their conjunction.
    pub fn cube(&mut self, variables: &[Variable]) -> Result<Function, DiagramFault> {
        let mut levels = Vec::new(self.alloc);
        for variable in variables {
            levels.push(self.level_of(*variable)?)?;
        }
        levels.sort_unstable();
        levels.dedup();
        let mut cube = Function::TRUE;
        for level in levels.iter().rev() {
            cube = self.make(*level, cube, Function::FALSE)?;
        }
        Ok(cube)
    }

    /// True where the function is for some values of the cube's variables.
    pub fn exists(&mut self, f: Function, cube: Function) -> Result<Function, DiagramFault> {
        self.existence(f, cube, self.depth())
    }

    /// True where the function is for all values of the cube's variables.
    pub fn forall(&mut self, f: Function, cube: Function) -> Result<Function, DiagramFault> {
        Ok(self.exists(f.not(), cube)?.not())
    }

    /// True where both functions are for some values of the cube's variables.
    pub fn and_exists(
        &mut self,
        f: Function,
        g: Function,
        cube: Function,
    ) -> Result<Function, DiagramFault> {
        self.product(f, g, cube, self.depth())
    }

    /// What is left of a cube from a level on.
    fn cube_from(&self, cube: Function, level: u32) -> Function {
        let mut cube = cube;
        for _ in 0..self.depth() {
            let node = self.table.node(cube);
            if node.level >= level {
                break;
            }
            cube = node.high;
        }
        cube
    }

    fn existence(
        &mut self,
        f: Function,
        cube: Function,
        depth: u32,
    ) -> Result<Function, DiagramFault> {
        let level = self.table.level(f);
        let cube = self.cube_from(cube, level);
        if f.is_constant() || cube.is_constant() {
            return Ok(f);
        }
        let key = Key::of_two(Operation::Exists, f, cube);
        if let Some(function) = self.cache.get(key) {
            return Ok(function);
        }
        let depth = self.deeper(depth)?;
        let (f_high, f_low) = self.table.halves(f, level);
        let (below, _) = self.table.halves(cube, level);
        let high = self.existence(f_high, below, depth)?;
        if below == cube {
            let low = self.existence(f_low, below, depth)?;
            return self.make_kept(key, level, high, low);
        }
        let low = if high == Function::TRUE {
            Function::TRUE
        } else {
            self.existence(f_low, below, depth)?
        };
        self.either_kept(key, high, low, depth)
    }

    fn product(
        &mut self,
        f: Function,
        g: Function,
        cube: Function,
        depth: u32,
    ) -> Result<Function, DiagramFault> {
        if f == Function::FALSE || g == Function::FALSE || f == g.not() {
            return Ok(Function::FALSE);
        }
        if f == Function::TRUE || f == g {
            return self.existence(g, cube, depth);
        }
        if g == Function::TRUE {
            return self.existence(f, cube, depth);
        }
        let level = self.table.level(f).min(self.table.level(g));
        let cube = self.cube_from(cube, level);
        if cube.is_constant() {
            return self.conjunction(f, g, depth);
        }
        let key = Key::of_product(f, g, cube);
        if let Some(function) = self.cache.get(key) {
            return Ok(function);
        }
        let depth = self.deeper(depth)?;
        let (f_high, f_low) = self.table.halves(f, level);
        let (g_high, g_low) = self.table.halves(g, level);
        let (below, _) = self.table.halves(cube, level);
        let high = self.product(f_high, g_high, below, depth)?;
        if below == cube {
            let low = self.product(f_low, g_low, below, depth)?;
            return self.make_kept(key, level, high, low);
        }
        let low = if high == Function::TRUE {
            Function::TRUE
        } else {
            self.product(f_low, g_low, below, depth)?
        };
        self.either_kept(key, high, low, depth)
    }

    /// The disjunction of two functions, kept as the result of an operation.
    fn either_kept(
        &mut self,
        key: Key,
        high: Function,
        low: Function,
        depth: u32,
    ) -> Result<Function, DiagramFault> {
        let function = self.disjunction(high, low, depth)?;
        self.cache.put(key, function);
        Ok(function)
    }
}
