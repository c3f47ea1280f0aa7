//! The covers of a set of one formula.
ghost use Rattle.std.specs.Prelude.{◌≡◌, [], ◌∷◌, IfOk};

use crate::formula_texts::{formula, push_times};
use ltl_formula::{FormulaId, Formulas};
use obligation_sets::{Cover, CoverFault, Covering, ObligationSet, covers};
use std::alloc::{AllocError, Global};
use std::test::Fail;

fn set_of_one(alloc: Global, id: FormulaId) -> Result<ObligationSet, AllocError>
    ensures { IfOk result (λ set. set ≡ id ∷ []) }
{
    let mut ids = Vec::new(alloc);
    ids.push(id)?;
    Ok(ObligationSet::new(ids))
}

fn covers_of(alloc: Global, text: &[u8]) -> Result<Result<Vec<Cover>, CoverFault>, Fail> {
    let mut formulas = Formulas::new(alloc);
    let f = formula(alloc, &mut formulas, text)?;
    let set = set_of_one(alloc, f)?;
    Ok(covers(alloc, &formulas, &set, Covering::Plain))
}

/// The conjunction of `(X^j a) || (X^j b)` for each j from 1 to `count`.
fn pairs(alloc: Global, count: u32) -> Result<Vec<u8>, AllocError> {
    let mut text = b"1".to_vec(alloc)?;
    for j in 0..count {
        text.extend_from_slice(b"aX")?;
        push_times(&mut text, b"X", j)?;
        text.extend_from_slice(b"bX")?;
        push_times(&mut text, b"X", j)?;
        text.extend_from_slice(b"|&")?;
    }
    Ok(text)
}

#[test]
fn sixteen_pairs_have_65536_covers(rt: HostRuntime) -> Result<(), Fail> {
    let all = covers_of(rt.alloc(), &pairs(rt.alloc(), 16)?)??;
    assert_eq!(rt; all.len(), 65_536);
    Ok(())
}

/// For each j from 1 to `count`, `X^j a` and `X^j b` and then `(X^j a) || (X^j b)`: both ways to meet the last ones are equal.
fn joined_pairs(alloc: Global, count: u32) -> Result<Vec<u8>, AllocError> {
    let mut text = b"1".to_vec(alloc)?;
    for j in 0..count {
        text.extend_from_slice(b"aX")?;
        push_times(&mut text, b"X", j)?;
        text.extend_from_slice(b"&bX")?;
        push_times(&mut text, b"X", j)?;
        text.extend_from_slice(b"&")?;
    }
    text.extend_from_slice(&pairs(alloc, count)?)?;
    text.push(b'&')?;
    Ok(text)
}

#[test]
fn equal_branches_are_followed_once(rt: HostRuntime) -> Result<(), Fail> {
    let text = joined_pairs(rt.alloc(), 16)?;
    // One by one the 65,536 equal leaves would take minutes.
    for _ in 0..4_000 {
        let all = covers_of(rt.alloc(), &text)??;
        assert_eq!(rt; all.len(), 1);
    }
    Ok(())
}
