ghost use Rattle.std.specs.Prelude.{◌≡◌};
ghost use Rattle.ltl_normal.specs.Simplify.{constant_of, facing_of, junction_of, outcome_of};

use ltl_formula::Node;

/// The operators of two parts that a normal form has.
#[derive(Clone, Copy, PartialEq, Eq)]
pub enum Joint {
    And,
    Or,
    Until,
    Release,
}

/// What is left of an operator and its two parts.
#[derive(Clone, Copy, PartialEq, Eq)]
pub enum Outcome {
    First,
    Second,
    Whole,
}

/// The operator itself, or for the negated form its opposite.
pub(crate) fn facing(keep: bool, joint: Joint) -> Joint
    ensures { result ≡ facing_of keep joint }
{
    match joint {
        _ if keep => joint,
        Joint::And => Joint::Or,
        Joint::Or => Joint::And,
        Joint::Until => Joint::Release,
        Joint::Release => Joint::Until,
    }
}

/// The truth value that the node is, if it is one.
pub(crate) fn constant(node: Node) -> Option<bool>
    ensures { result ≡ constant_of node }
{
    match node {
        Node::True => Some(true),
        Node::False => Some(false),
        _ => None,
    }
}

/// What is left of the operator where its parts are these constants, or none, and are the same formula or not.
pub(crate) fn simplified(
    joint: Joint,
    first: Option<bool>,
    second: Option<bool>,
    same: bool,
) -> Outcome
    ensures { result ≡ outcome_of joint first second same }
{
    match joint {
        Joint::And => junction(true, first, second, same),
        Joint::Or => junction(false, first, second, same),
        Joint::Until | Joint::Release => match second {
            Some(_) => Outcome::Second,
            None => Outcome::Whole,
        },
    }
}

/// The same for And, whose neutral part is `true`, and for Or, whose neutral part is `false`.
fn junction(neutral: bool, first: Option<bool>, second: Option<bool>, same: bool) -> Outcome
    ensures { result ≡ junction_of neutral first second same }
{
    match (first, second) {
        (Some(value), _) => if value == neutral {
            Outcome::Second
        } else {
            Outcome::First
        },
        (None, Some(value)) => if value == neutral {
            Outcome::First
        } else {
            Outcome::Second
        },
        (None, None) => if same { Outcome::First } else { Outcome::Whole },
    }
}
