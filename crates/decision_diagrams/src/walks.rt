//! What functions are, read from their nodes, and nodes that go.

use crate::diagrams::Diagrams;
use crate::faults::DiagramFault;
use crate::functions::{Function, Split, Variable};
use crate::node_table::LAST_LEVEL;
use std::alloc::AllocError;

/// Nodes that were met, each once.
#[derive(Drop)]
struct Walk {
    is_met: Vec<bool>,
    /// Their functions.
    met: Vec<Function>,
}

/// A collection pays where there are so many nodes.
const FEW_NODES: usize = 1 << 16;

impl Walk {
    fn meet(&mut self, function: Function) -> Result<(), AllocError> {
        if let Some(is_met) = self.is_met.get_mut(function.node())
            && !*is_met
        {
            *is_met = true;
            self.met.push(function.regular())?;
        }
        Ok(())
    }
}

impl Diagrams {
    /// What a function is by the value of its topmost variable; None for a constant.
    pub fn split(&self, f: Function) -> Option<Split> {
        let level = self.table.level(f);
        let variable = self.order.get(level as usize).copied()?;
        let (high, low) = self.table.halves(f, level);
        Some(Split {
            variable,
            high,
            low,
        })
    }

    /// The topmost variable on which one of these functions depends.
    pub fn topmost(&self, functions: &[Function]) -> Option<Variable> {
        let mut level = LAST_LEVEL;
        for function in functions {
            level = level.min(self.table.level(*function));
        }
        self.order.get(level as usize).copied()
    }

    /// A function where a variable is set, and where it isn't. It depends on none above that variable.
    pub fn halves(&self, f: Function, variable: Variable) -> (Function, Function) {
        let level = self.level_of(variable).unwrap_or(LAST_LEVEL);
        self.table.halves(f, level)
    }

    /// The value of a function at values by variables; a variable without one is unset.
    pub fn evaluate(&self, f: Function, values: &[bool]) -> bool {
        let mut function = f;
        for _ in 0..self.depth() {
            let Some(split) = self.split(function) else {
                break;
            };
            let value = values.get(split.variable.place()).copied();
            function = if value.unwrap_or(false) {
                split.high
            } else {
                split.low
            };
        }
        function == Function::TRUE
    }

    /// All nodes from these functions on, and the constant.
    fn walk(&self, roots: &[Function]) -> Result<Walk, AllocError> {
        let mut walk = Walk {
            is_met: vec![in self.alloc; false; self.table.numbers()]?,
            met: Vec::new(self.alloc),
        };
        for root in roots {
            walk.meet(*root)?;
        }
        for place in 0..self.table.numbers() {
            let Some(function) = walk.met.get(place).copied() else {
                break;
            };
            let node = self.table.node(function);
            walk.meet(node.high)?;
            walk.meet(node.low)?;
        }
        Ok(walk)
    }

    /// The functions of all nodes from these on, each once and none complemented, the parts of each before it. Constants aren't among them.
    pub fn functions_below(&self, roots: &[Function]) -> Result<Vec<Function>, DiagramFault> {
        let mut functions = self.walk(roots)?.met;
        functions.retain(|function| !function.is_constant());
        let table = &self.table;
        functions.sort_by_key(|function| LAST_LEVEL.saturating_sub(table.level(*function)))?;
        Ok(functions)
    }

    /// The number of nodes from a function on, without the constant.
    pub fn node_count(&self, f: Function) -> Result<usize, DiagramFault> {
        Ok(self.functions_below(&[f])?.len())
    }

    /// The variables that a function depends on, in their order.
    pub fn support(&self, f: Function) -> Result<Vec<Variable>, DiagramFault> {
        let mut is_met = vec![in self.alloc; false; self.order.len()]?;
        for function in &self.walk(&[f])?.met {
            let level = self.table.level(*function) as usize;
            if let Some(is_met) = is_met.get_mut(level) {
                *is_met = true;
            }
        }
        let mut variables = Vec::new(self.alloc);
        for (variable, is_met) in self.order.iter().zip(&is_met) {
            if *is_met {
                variables.push(*variable)?;
            }
        }
        Ok(variables)
    }

    pub fn depends_on(&self, f: Function, variable: Variable) -> Result<bool, DiagramFault> {
        Ok(self.support(f)?.contains(&variable))
    }

    /// Takes away all nodes that aren't reached from these functions, which keep their values. No other function may be used any more.
    pub fn collect(&mut self, roots: &[Function]) -> Result<(), DiagramFault> {
        let walk = self.walk(roots)?;
        self.table.sweep(&walk.is_met);
        self.cache.clear();
        self.kept = self.table.used();
        Ok(())
    }

    /// Whether a collection pays: there are more than three times as many nodes as the last one left.
    pub fn wants_collection(&self) -> bool {
        self.nodes() > self.kept.max(FEW_NODES).saturating_mul(3)
    }
}
