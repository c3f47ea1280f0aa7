//! And, or, xor, and the choice between two functions.

use crate::diagrams::Diagrams;
use crate::faults::DiagramFault;
use crate::functions::Function;
use crate::operation_cache::{Key, Operation};

impl Diagrams {
    pub fn and(&mut self, a: Function, b: Function) -> Result<Function, DiagramFault> {
        self.conjunction(a, b, self.depth())
    }

    pub fn or(&mut self, a: Function, b: Function) -> Result<Function, DiagramFault> {
        self.disjunction(a, b, self.depth())
    }

    /// `!a || b`.
    pub fn implies(&mut self, a: Function, b: Function) -> Result<Function, DiagramFault> {
        Ok(self.and(a, b.not())?.not())
    }

    pub fn xor(&mut self, a: Function, b: Function) -> Result<Function, DiagramFault> {
        self.difference(a, b, self.depth())
    }

    /// True where both are alike.
    pub fn equal(&mut self, a: Function, b: Function) -> Result<Function, DiagramFault> {
        Ok(self.xor(a, b)?.not())
    }

    /// One function where the condition is true, and else the other.
    pub fn if_then_else(
        &mut self,
        condition: Function,
        then: Function,
        otherwise: Function,
    ) -> Result<Function, DiagramFault> {
        self.choice(condition, then, otherwise, self.depth())
    }

    pub(crate) fn conjunction(
        &mut self,
        a: Function,
        b: Function,
        depth: u32,
    ) -> Result<Function, DiagramFault> {
        if let Some(function) = simple_conjunction(a, b) {
            return Ok(function);
        }
        let (a, b) = in_order(a, b);
        let key = Key::of_two(Operation::And, a, b);
        if let Some(function) = self.cache.get(key) {
            return Ok(function);
        }
        let depth = self.deeper(depth)?;
        let level = self.table.level(a).min(self.table.level(b));
        let (a_high, a_low) = self.table.halves(a, level);
        let (b_high, b_low) = self.table.halves(b, level);
        let high = self.conjunction(a_high, b_high, depth)?;
        let low = self.conjunction(a_low, b_low, depth)?;
        self.make_kept(key, level, high, low)
    }

    pub(crate) fn disjunction(
        &mut self,
        a: Function,
        b: Function,
        depth: u32,
    ) -> Result<Function, DiagramFault> {
        Ok(self.conjunction(a.not(), b.not(), depth)?.not())
    }

    /// Makes a function as `make` does, and keeps it as the result of an operation.
    pub(crate) fn make_kept(
        &mut self,
        key: Key,
        level: u32,
        high: Function,
        low: Function,
    ) -> Result<Function, DiagramFault> {
        let function = self.make(level, high, low)?;
        self.cache.put(key, function);
        Ok(function)
    }

    fn difference(
        &mut self,
        a: Function,
        b: Function,
        depth: u32,
    ) -> Result<Function, DiagramFault> {
        let is_complemented = a.is_complemented() != b.is_complemented();
        let (a, b) = in_order(a.regular(), b.regular());
        if let Some(function) = simple_difference(a, b) {
            return Ok(function.complemented_if(is_complemented));
        }
        let key = Key::of_two(Operation::Xor, a, b);
        if let Some(function) = self.cache.get(key) {
            return Ok(function.complemented_if(is_complemented));
        }
        let depth = self.deeper(depth)?;
        let level = self.table.level(a).min(self.table.level(b));
        let (a_high, a_low) = self.table.halves(a, level);
        let (b_high, b_low) = self.table.halves(b, level);
        let high = self.difference(a_high, b_high, depth)?;
        let low = self.difference(a_low, b_low, depth)?;
        let function = self.make_kept(key, level, high, low)?;
        Ok(function.complemented_if(is_complemented))
    }

    pub(crate) fn choice(
        &mut self,
        condition: Function,
        then: Function,
        otherwise: Function,
        depth: u32,
    ) -> Result<Function, DiagramFault> {
        if let Some(simple) = simple_choice(condition, then, otherwise) {
            return self.simple(simple, depth);
        }
        let (condition, then, otherwise) = if condition.is_complemented() {
            (condition.not(), otherwise, then)
        } else {
            (condition, then, otherwise)
        };
        let is_complemented = then.is_complemented();
        let (then, otherwise) = (then.regular(), otherwise.complemented_if(is_complemented));
        let key = Key::new(Operation::IfThenElse, condition, then, otherwise);
        if let Some(function) = self.cache.get(key) {
            return Ok(function.complemented_if(is_complemented));
        }
        let depth = self.deeper(depth)?;
        let (level, high, low) = self.parts_of_choice(condition, then, otherwise);
        let high = self.choice(high.condition, high.then, high.otherwise, depth)?;
        let low = self.choice(low.condition, low.then, low.otherwise, depth)?;
        let function = self.make_kept(key, level, high, low)?;
        Ok(function.complemented_if(is_complemented))
    }

    fn parts_of_choice(
        &self,
        condition: Function,
        then: Function,
        otherwise: Function,
    ) -> (u32, Choice, Choice) {
        let table = &self.table;
        let level = table.level(then).min(table.level(otherwise));
        let level = table.level(condition).min(level);
        let condition = table.halves(condition, level);
        let then = table.halves(then, level);
        let otherwise = table.halves(otherwise, level);
        let high = Choice {
            condition: condition.0,
            then: then.0,
            otherwise: otherwise.0,
        };
        let low = Choice {
            condition: condition.1,
            then: then.1,
            otherwise: otherwise.1,
        };
        (level, high, low)
    }

    fn simple(&mut self, simple: Simple, depth: u32) -> Result<Function, DiagramFault> {
        match simple {
            Simple::Is(function) => Ok(function),
            Simple::And(a, b) => self.conjunction(a, b, depth),
            Simple::Or(a, b) => self.disjunction(a, b, depth),
            Simple::Xor(a, b) => self.difference(a, b, depth),
        }
    }
}

/// A choice between two functions.
#[derive(Clone, Copy)]
struct Choice {
    condition: Function,
    then: Function,
    otherwise: Function,
}

/// What a choice comes to where its operands are constants or alike.
#[derive(Clone, Copy)]
enum Simple {
    Is(Function),
    And(Function, Function),
    Or(Function, Function),
    Xor(Function, Function),
}

fn simple_choice(condition: Function, then: Function, otherwise: Function) -> Option<Simple> {
    let opposite = condition.not();
    if condition == Function::TRUE || then == otherwise {
        return Some(Simple::Is(then));
    }
    if condition == Function::FALSE {
        return Some(Simple::Is(otherwise));
    }
    if then == Function::TRUE || then == condition {
        return Some(Simple::Or(condition, otherwise));
    }
    if then == Function::FALSE || then == opposite {
        return Some(Simple::And(opposite, otherwise));
    }
    if otherwise == Function::FALSE || otherwise == condition {
        return Some(Simple::And(condition, then));
    }
    if otherwise == Function::TRUE || otherwise == opposite {
        return Some(Simple::Or(opposite, then));
    }
    if then == otherwise.not() {
        return Some(Simple::Xor(condition, otherwise));
    }
    None
}

/// The difference of two functions that aren't complemented and whose order is that of `in_order`, where that is a constant or one of them.
fn simple_difference(a: Function, b: Function) -> Option<Function> {
    if a == b {
        return Some(Function::FALSE);
    }
    if a == Function::FALSE { Some(b) } else { None }
}

/// Both functions, where that is a constant or one of them.
fn simple_conjunction(a: Function, b: Function) -> Option<Function> {
    if a == b || b == Function::TRUE {
        return Some(a);
    }
    if a == Function::TRUE {
        return Some(b);
    }
    if a == Function::FALSE || b == Function::FALSE || a == b.not() {
        return Some(Function::FALSE);
    }
    None
}

/// Two operands whose order doesn't matter, in one order.
fn in_order(a: Function, b: Function) -> (Function, Function) {
    if a.number() <= b.number() {
        (a, b)
    } else {
        (b, a)
    }
}
