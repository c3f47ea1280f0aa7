//! Random operations compared with truth tables of six variables.

use crate::{DiagramFault, DiagramLimits, Diagrams, Function, Variable};
use std::alloc::Global;

/// A function beside its truth table: a bit for each set of six variables.
#[derive(Clone, Copy)]
struct Pair {
    function: Function,
    table: u64,
}

const ALWAYS: Pair = Pair {
    function: Function::TRUE,
    table: u64::MAX,
};

/// The truth tables of the variables.
const VARIABLES: [u64; 6] = [
    0xaaaa_aaaa_aaaa_aaaa,
    0xcccc_cccc_cccc_cccc,
    0xf0f0_f0f0_f0f0_f0f0,
    0xff00_ff00_ff00_ff00,
    0xffff_0000_ffff_0000,
    0xffff_ffff_0000_0000,
];

/// How far apart the values of a variable stand in a table.
const SHIFTS: [u32; 6] = [1, 2, 4, 8, 16, 32];

/// Functions to draw from, and the state of the generator.
#[derive(Drop)]
struct Drawn {
    diagrams: Diagrams,
    variables: Vec<Variable>,
    pairs: Vec<Pair>,
    state: u64,
}

impl Drawn {
    fn new(alloc: Global) -> Result<Drawn, DiagramFault> {
        let mut diagrams = Diagrams::new(alloc, DiagramLimits::default())?;
        let mut variables = Vec::new(alloc);
        for _ in 0..6 {
            variables.push(diagrams.add_variable()?)?;
        }
        variables.reverse();
        diagrams.set_order(&variables)?;
        variables.reverse();
        let mut pairs = Vec::new(alloc);
        for (variable, table) in variables.iter().zip(&VARIABLES) {
            let function = diagrams.variable(*variable)?;
            pairs.push(Pair {
                function,
                table: *table,
            })?;
        }
        for _ in 0..36 {
            pairs.push(ALWAYS)?;
        }
        Ok(Drawn {
            diagrams,
            variables,
            pairs,
            state: 88_172_645_463_325_252,
        })
    }

    fn number(&mut self) -> u64 {
        self.state ^= self.state << 13;
        self.state ^= self.state >> 7;
        self.state ^= self.state << 17;
        self.state
    }

    fn pair(&mut self) -> Pair {
        let place = (self.number() >> 8) as usize % self.pairs.len().max(1);
        let pair = self.pairs.get(place).copied();
        pair.unwrap_or(ALWAYS)
    }

    /// A variable's number below 6.
    fn place(&mut self) -> usize {
        (self.number() >> 8) as usize % 6
    }

    fn variable(&self, place: usize) -> Variable {
        let variable = self.variables.get(place).copied();
        variable.unwrap_or(Variable::of_number(0))
    }

    fn put(&mut self, pair: Pair) {
        let place = self.place().saturating_mul(7);
        if let Some(old) = self.pairs.get_mut(place) {
            *old = pair;
        }
    }

    /// Whether a function has its table, and is equal to those that have the same.
    fn is_right(&self, pair: Pair) -> bool {
        let mut all = self.table_of(pair.function) == pair.table;
        for other in &self.pairs {
            all &= (other.function == pair.function) == (other.table == pair.table);
        }
        all
    }

    fn table_of(&self, function: Function) -> u64 {
        let mut table = 0;
        for place in 0u32..64 {
            let values = VARIABLES.map(|variable| has_bit(variable, place));
            if self.diagrams.evaluate(function, &values) {
                table |= 1u64.checked_shl(place).unwrap_or(0);
            }
        }
        table
    }

    /// A function that a random connective makes.
    fn connected(&mut self) -> Result<Pair, DiagramFault> {
        let (a, b, c) = (self.pair(), self.pair(), self.pair());
        let (f, g, h) = (a.function, b.function, c.function);
        let kind = self.number() % 6;
        let diagrams = &mut self.diagrams;
        let (function, table) = match kind {
            0 => (diagrams.and(f, g)?, a.table & b.table),
            1 => (diagrams.or(f, g.not())?, a.table | !b.table),
            2 => (diagrams.xor(f, g)?, a.table ^ b.table),
            3 => (diagrams.implies(f, g)?, !a.table | b.table),
            4 => (diagrams.equal(f, g)?, !(a.table ^ b.table)),
            _ => (
                diagrams.if_then_else(f, g, h)?,
                chosen(a.table, b.table, c.table),
            ),
        };
        Ok(Pair { function, table })
    }

    /// A function that a random operation at a variable makes.
    fn changed(&mut self) -> Result<Pair, DiagramFault> {
        let (a, b) = (self.pair(), self.pair());
        let (f, g) = (a.function, b.function);
        let place = self.place();
        let kind = self.number() % 5;
        let variable = self.variable(place);
        let diagrams = &mut self.diagrams;
        let cube = diagrams.cube(&[variable])?;
        let (function, table) = match kind {
            0 => (
                diagrams.exists(f, cube)?,
                at(a.table, place, true) | at(a.table, place, false),
            ),
            1 => (
                diagrams.forall(f, cube)?,
                at(a.table, place, true) & at(a.table, place, false),
            ),
            2 => {
                let both = a.table & b.table;
                (
                    diagrams.and_exists(f, g, cube)?,
                    at(both, place, true) | at(both, place, false),
                )
            }
            3 => (
                diagrams.cofactor(f, variable, false)?,
                at(a.table, place, false),
            ),
            _ => {
                let wrong = diagrams.restrict(f, g)?;
                let wrong = diagrams.xor(wrong, f)?;
                (diagrams.and(wrong, g)?, 0)
            }
        };
        Ok(Pair { function, table })
    }

    /// A function with others in the places of two variables.
    fn composed(&mut self) -> Result<Pair, DiagramFault> {
        let (a, b, c) = (self.pair(), self.pair(), self.pair());
        let (one, two) = (self.place(), self.place());
        let images = [
            (self.variable(one), b.function),
            (self.variable(two), c.function),
        ];
        let by = self.diagrams.substitution(&images)?;
        let function = self.diagrams.compose(a.function, &by)?;
        let (set, unset) = (at(a.table, two, true), at(a.table, two, false));
        let set = chosen(b.table, at(set, one, true), at(set, one, false));
        let unset = chosen(b.table, at(unset, one, true), at(unset, one, false));
        Ok(Pair {
            function,
            table: chosen(c.table, set, unset),
        })
    }

    fn collect(&mut self) -> Result<(), DiagramFault> {
        let mut roots = Vec::new(self.diagrams.alloc);
        for pair in &self.pairs {
            roots.push(pair.function)?;
        }
        self.diagrams.collect(&roots)
    }
}

fn has_bit(table: u64, place: u32) -> bool {
    table.checked_shr(place).unwrap_or(0) & 1 == 1
}

fn chosen(condition: u64, then: u64, otherwise: u64) -> u64 {
    condition & then | !condition & otherwise
}

/// A table for one value of a variable.
fn at(table: u64, place: usize, value: bool) -> u64 {
    let set = VARIABLES.get(place).copied().unwrap_or(0);
    let shift = SHIFTS.get(place).copied().unwrap_or(1);
    if value {
        let part = table & set;
        part | part.checked_shr(shift).unwrap_or(0)
    } else {
        let part = table & !set;
        part | part.checked_shl(shift).unwrap_or(0)
    }
}

#[test]
fn connectives_are_those_of_tables(rt: HostRuntime) -> Result<(), DiagramFault> {
    let mut drawn = Drawn::new(rt.alloc())?;
    for _ in 0..400 {
        let pair = drawn.connected()?;
        assert!(rt; drawn.is_right(pair));
        drawn.put(pair);
    }
    Ok(())
}

#[test]
fn operations_at_variables_are_those_of_tables(rt: HostRuntime) -> Result<(), DiagramFault> {
    let mut drawn = Drawn::new(rt.alloc())?;
    for _ in 0..400 {
        for pair in [drawn.connected()?, drawn.changed()?, drawn.composed()?] {
            assert!(rt; drawn.is_right(pair));
            drawn.put(pair);
        }
        drawn.collect()?;
    }
    Ok(())
}
