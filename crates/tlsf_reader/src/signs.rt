//! The signs of operators and of the bounds of ranges.

ghost use Rattle.std.specs.Prelude.{◌≡◌};
ghost use Rattle.tlsf_syntax.specs.Expressions.{operator_of, big_of, bound_of};

use tlsf_syntax::{Level, Op};
use tlsf_tokens::Symbol;

/// The operators between operands, each with its level.
pub(crate) fn operator(symbol: Symbol) -> Option<(Level, Op)>
    ensures { result ≡ operator_of symbol }
{
    match symbol {
        Symbol::Star => Some((Level::Products, Op::Mul)),
        Symbol::Slash => Some((Level::Quotients, Op::Div)),
        Symbol::Percent => Some((Level::Quotients, Op::Rem)),
        Symbol::Plus => Some((Level::Sums, Op::Plus)),
        Symbol::Minus => Some((Level::Sums, Op::Minus)),
        Symbol::Difference => Some((Level::Differences, Op::Difference)),
        Symbol::Meet => Some((Level::Meets, Op::Meet)),
        Symbol::Join => Some((Level::Unions, Op::Join)),
        Symbol::Equal => Some((Level::Comparisons, Op::Equal)),
        Symbol::Unequal => Some((Level::Comparisons, Op::Unequal)),
        Symbol::Less => Some((Level::Comparisons, Op::Less)),
        Symbol::LessEqual => Some((Level::Comparisons, Op::LessEqual)),
        Symbol::Greater => Some((Level::Comparisons, Op::Greater)),
        Symbol::GreaterEqual => Some((Level::Comparisons, Op::GreaterEqual)),
        Symbol::In => Some((Level::Memberships, Op::Element)),
        Symbol::And => Some((Level::Conjunctions, Op::And)),
        Symbol::Or => Some((Level::Disjunctions, Op::Or)),
        Symbol::Implies => Some((Level::Implications, Op::Implies)),
        Symbol::Equiv => Some((Level::Implications, Op::Equiv)),
        Symbol::WeakUntil => Some((Level::WeakUntils, Op::WeakUntil)),
        Symbol::Until => Some((Level::Untils, Op::Until)),
        Symbol::Release => Some((Level::Releases, Op::Release)),
        _ => None,
    }
}

/// The signs of big operators.
pub(crate) fn big(symbol: Symbol) -> Option<Op>
    ensures { result ≡ big_of symbol }
{
    match symbol {
        Symbol::And => Some(Op::And),
        Symbol::Or => Some(Op::Or),
        _ => None,
    }
}

/// The signs round the name of a range, and whether the bound is strict.
pub(crate) fn bound(symbol: Symbol) -> Option<bool>
    ensures { result ≡ bound_of symbol }
{
    match symbol {
        Symbol::Less => Some(true),
        Symbol::LessEqual => Some(false),
        _ => None,
    }
}
