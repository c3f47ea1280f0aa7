ghost use Rattle.std.specs.Prelude.{◌≡◌, ℕ, ◌+◌, ◌*◌, ◌^◌, ◌<◌, ◌≤◌, IfOk, length};
ghost use Rattle.gate_build.specs.Gates.{and_of, exclude, gate_of, ite_of, opposite};

use indexmap::IndexSet;
use std::alloc::AllocError;

/// The operands of a gate, the greater literal first.
#[derive(Clone, Copy, PartialEq, Eq, Hash)]
pub(crate) struct Operands {
    pub(crate) greater: u32,
    pub(crate) lesser: u32,
}

/// The literal of the opposite value.
pub(crate) fn opposite(literal: u32) -> u32
    requires { literal < 2 ^ 31 }
    ensures value { result ≡ opposite literal }
    ensures fits { result < 2 ^ 31 }
{
    if literal % 2 == 0 {
        literal + 1
    } else {
        literal - 1
    }
}

/// The literal of the gate of these operands, which is made once. It takes time that doesn't grow with the gates.
fn gate(first: u32, gates: &mut IndexSet<Operands>, operands: Operands) -> Result<u32, AllocError>
    requires { first + length gates.old.keys < 2 ^ 30 }
    ensures value { IfOk result (λ l. gate_of first gates.old.keys operands ≡ record { gates = gates.new.keys; literal = l }) }
    ensures fits { IfOk result (λ l. l < 2 ^ 31) }
    ensures grown { length gates.new.keys ≤ length gates.old.keys + 1 }
{
    let (place, _) = gates.insert_full(operands)?;
    Ok(2 * (first + place as u32))
}

/// Whether two literals are never both set, as one sees at once.
fn exclude(x: u32, y: u32) -> bool
    requires { y < 2 ^ 31 }
    ensures { result ≡ exclude x y }
{
    x == 0 || y == 0 || x == opposite(y)
}

/// Both literals.
fn and(first: u32, gates: &mut IndexSet<Operands>, x: u32, y: u32) -> Result<u32, AllocError>
    requires room { first + length gates.old.keys < 2 ^ 30 }
    requires x { x < 2 ^ 31 }
    requires y { y < 2 ^ 31 }
    ensures value { IfOk result (λ l. and_of first gates.old.keys x y ≡ record { gates = gates.new.keys; literal = l }) }
    ensures fits { IfOk result (λ l. l < 2 ^ 31) }
    ensures grown { length gates.new.keys ≤ length gates.old.keys + 1 }
{
    if exclude(x, y) {
        return Ok(0);
    }
    if x == 1 {
        return Ok(y);
    }
    if y == 1 {
        return Ok(x);
    }
    if x == y {
        return Ok(x);
    }
    let operands = Operands {
        greater: x.max(y),
        lesser: x.min(y),
    };
    let both = gate(first, gates, operands)?;
    Ok(both)
}

/// The literal of p where x is set, else of q.
pub(crate) fn ite(
    first: u32,
    gates: &mut IndexSet<Operands>,
    x: u32,
    p: u32,
    q: u32,
) -> Result<u32, AllocError>
    requires room { first + length gates.old.keys + 3 ≤ 2 ^ 30 }
    requires x { x < 2 ^ 31 }
    requires p { p < 2 ^ 31 }
    requires q { q < 2 ^ 31 }
    ensures value { IfOk result (λ l. ite_of first gates.old.keys x p q ≡ record { gates = gates.new.keys; literal = l }) }
    ensures fits { IfOk result (λ l. l < 2 ^ 31) }
    ensures grown { length gates.new.keys ≤ length gates.old.keys + 3 }
{
    if p == q {
        return Ok(p);
    }
    if p == 0 {
        if q == 1 {
            return Ok(opposite(x));
        }
        let other = and(first, gates, opposite(x), q)?;
        return Ok(other);
    }
    if q == 0 {
        if p == 1 {
            return Ok(x);
        }
        let one = and(first, gates, x, p)?;
        return Ok(one);
    }
    if p == 1 {
        let neither = and(first, gates, opposite(x), opposite(q))?;
        return Ok(opposite(neither));
    }
    if q == 1 {
        let neither = and(first, gates, x, opposite(p))?;
        return Ok(opposite(neither));
    }
    let one = and(first, gates, x, p)?;
    let other = and(first, gates, opposite(x), q)?;
    let neither = and(first, gates, opposite(one), opposite(other))?;
    Ok(opposite(neither))
}
