//! Negated forms of formulas whose parts are shared.
use crate::formula_texts::{formula, push_times};
use ltl_formula::{Formulas, MAX_NODES};
use ltl_normal::negated;
use std::alloc::Global;
use std::test::Fail;

/// So many nodes of shared parts, each twice in the one above: without a table of what was built this would never end.
fn tower(alloc: Global, level: &[u8], levels: u32) -> Result<(), Fail> {
    let mut text = b"a".to_vec(alloc)?;
    push_times(&mut text, level, levels)?;
    let mut formulas = Formulas::new(alloc);
    let top = formula(alloc, &mut formulas, &text)?;
    let _opposite = negated(&mut formulas, MAX_NODES, top)?;
    Ok(())
}

#[test]
fn shared_parts_are_built_once(rt: HostRuntime) -> Result<(), Fail> {
    tower(rt.alloc(), b":&", 500)?;
    tower(rt.alloc(), b"b=", 60)
}
