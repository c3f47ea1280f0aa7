//! Functions and variables.

/// A Boolean function of a package's variables: a node, complemented or not. Equal functions of a package are equal values.
#[derive(Clone, Copy, Debug, PartialEq, Eq, Hash)]
pub struct Function(u32);

/// A variable of a package, numbered from 0 as they are added. Its level in the order is the package's matter.
#[derive(Clone, Copy, Debug, PartialEq, Eq, Hash)]
pub struct Variable(u32);

/// What a function is where its topmost variable is set, and where it isn't.
#[derive(Clone, Copy, Debug, PartialEq, Eq)]
pub struct Split {
    pub variable: Variable,
    pub high: Function,
    pub low: Function,
}

impl Function {
    pub const FALSE: Function = Function(0);

    pub const TRUE: Function = Function(1);

    pub fn not(self) -> Function {
        Function(self.0 ^ 1)
    }

    pub fn is_constant(self) -> bool {
        self.0 < 2
    }

    /// Twice the number of its node, and one more where it is complemented: 0 and 1 are the constants.
    pub fn number(self) -> u32 {
        self.0
    }

    /// The function of a node of a number below 2^31, not complemented.
    pub(crate) fn of_node(node: u32) -> Function {
        Function(node.wrapping_mul(2))
    }

    pub(crate) fn node(self) -> usize {
        (self.0 / 2) as usize
    }

    pub(crate) fn is_complemented(self) -> bool {
        self.0 % 2 == 1
    }

    pub(crate) fn complemented_if(self, is_complemented: bool) -> Function {
        Function(self.0 ^ u32::from(is_complemented))
    }

    /// The function of its node.
    pub(crate) fn regular(self) -> Function {
        Function(self.0 & (u32::MAX - 1))
    }
}

impl Variable {
    pub fn number(self) -> u32 {
        self.0
    }

    pub(crate) fn of_number(number: u32) -> Variable {
        Variable(number)
    }

    pub(crate) fn place(self) -> usize {
        self.0 as usize
    }
}
