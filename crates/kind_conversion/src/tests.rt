//! `G (g <-> r)` of an input r, which is bit 0 of a letter, and an output g, which is bit 1.

use crate::conversion::{ConvertedList, converted};
use crate::shifts::{Shift, shift_of};
use lasso_eval::holds_at;
use letters_and_lassos::{Kind, Lasso, Letter};
use ltl_formula::{FormulaId, Formulas, MAX_NODES, Node};
use std::alloc::{AllocError, Global};
use std::test::Fail;

fn add(formulas: &mut Formulas, node: Node) -> Result<FormulaId, Fail> {
    if !formulas.can_add(node) {
        return Err(Fail::from("a part is missing"));
    }
    Ok(formulas.add(MAX_NODES, node)?)
}

/// The list with X before r, or before g.
fn shifted(alloc: Global, shift: Shift) -> Result<ConvertedList, Fail> {
    let mut formulas = Formulas::new(alloc);
    let output = add(&mut formulas, Node::Signal(1))?;
    let input = add(&mut formulas, Node::Signal(0))?;
    let equal = add(&mut formulas, Node::Equiv(output, input))?;
    let whole = add(&mut formulas, Node::Globally(equal))?;
    if whole.0 as usize >= formulas.len() {
        return Err(Fail::from("the whole is missing"));
    }
    Ok(converted(alloc, &formulas, MAX_NODES, whole, shift, 1)?)
}

fn letters(alloc: Global, digits: &[u8]) -> Result<Vec<Letter>, AllocError> {
    let mut letters = Vec::new(alloc);
    for digit in digits {
        letters.push(Letter(u64::from(*digit & 3)))?;
    }
    Ok(letters)
}

/// A digit for the truth of each word, which is given by the letters of its stem and of its ring.
fn truths(alloc: Global, shift: Shift, words: &[(&[u8], &[u8])]) -> Result<Vec<u8>, Fail> {
    let list = shifted(alloc, shift)?;
    if list.whole.0 as usize >= list.formulas.len() {
        return Err(Fail::from("the whole is missing"));
    }
    let mut truths = Vec::new(alloc);
    for (stem, ring) in words {
        let lasso = Lasso::new(letters(alloc, stem)?, letters(alloc, ring)?)?;
        if lasso.len() == 0 {
            return Err(Fail::from("the word has no letter"));
        }
        let truth = holds_at(alloc, &list.formulas, list.whole, &lasso, 0)?;
        truths.push(b'0' + u8::from(truth))?;
    }
    Ok(truths)
}

/// Stems and rings of words. With X before g the first g is read by no formula, and with X before r the first r.
const WORDS: [(&[u8], &[u8]); 8] = [
    (b"", b"12"),
    (b"", b"3"),
    (b"", b"0"),
    (b"1", b"0"),
    (b"2", b"0"),
    (b"1", b"2"),
    (b"2", b"1"),
    (b"2", b"12"),
];

#[test]
fn equal_letters_are_shifted(rt: HostRuntime) -> Result<(), Fail> {
    for (semantics, target, want) in [
        (Kind::Mealy, Kind::Moore, b"11101001".as_slice()),
        (Kind::Moore, Kind::Mealy, b"11110001"),
    ] {
        let Some(shift) = shift_of(semantics, target) else {
            return Err(Fail::from("nothing is shifted"));
        };
        let truths = truths(rt.alloc(), shift, &WORDS)?;
        assert_eq!(rt; truths.as_slice(), want);
    }
    Ok(())
}
