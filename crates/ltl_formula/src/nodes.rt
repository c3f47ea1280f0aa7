/// How many different nodes a list of formulas holds at most, whatever more its user would allow.
pub const MAX_NODES: usize = 16_384;

/// How many signals formulas may speak of: their numbers are below this.
pub const MAX_SIGNALS: u32 = 64;

/// A node's place in its list of formulas, from 0.
#[derive(Clone, Copy, Debug, PartialEq, Eq, Hash, PartialOrd, Ord)]
pub struct FormulaId(pub u32);

/// One operator of linear temporal logic over the formulas of earlier nodes, or a formula without parts.
#[derive(Clone, Copy, Debug, PartialEq, Eq, Hash)]
pub enum Node {
    True,
    False,
    Signal(u32),
    Not(FormulaId),
    Next(FormulaId),
    Finally(FormulaId),
    Globally(FormulaId),
    And(FormulaId, FormulaId),
    Or(FormulaId, FormulaId),
    Implies(FormulaId, FormulaId),
    Equiv(FormulaId, FormulaId),
    Until(FormulaId, FormulaId),
    Release(FormulaId, FormulaId),
    WeakUntil(FormulaId, FormulaId),
}
