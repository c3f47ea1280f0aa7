ghost use Rattle.std.specs.Prelude.{◌≡◌, ◌≤◌, [], ◌∷◌, ◌++◌, IfOk, OnOk, filter, length};
ghost use Rattle.ltl_formula.specs.declared.nodes.TheConstants.{MAX_NODES};
ghost use Rattle.ltl_formula.specs.Nodes.{IsNodeList, PartsBelow, IsNodeIn, node_at};
ghost use Rattle.cobuchi_build.specs.Occurring.{is_until, occurring, untils_of, with_parts};

use ltl_formula::{FormulaId, Formulas, Node};
use std::alloc::{AllocError, Global};

/// The until formulas that occur in `f`, by rising id. It takes time and memory for each formula of the list.
pub fn untils_of(
    alloc: Global,
    formulas: &Formulas,
    f: FormulaId,
) -> Result<Vec<FormulaId>, AllocError>
    requires { IsNodeIn formulas.now f }
    ensures untils { IfOk result (λ v. v.items ≡ untils_of formulas.now f) }
    ensures few { IfOk result (λ v. length v.items ≤ MAX_NODES) }
    ensures list { OnOk result (IsNodeList formulas.now) }
{
    let occurs = occurring(alloc, formulas, f)?;
    let mut untils = Vec::new(alloc);
    for (place, occurs) in occurs.iter().enumerate() {
        if *occurs {
            note_until(&mut untils, formulas, FormulaId(place as u32))?;
        }
    }
    Ok(untils)
}

/// For each formula of the list, whether it occurs in `f`. It takes time and memory for each.
pub fn occurring(alloc: Global, formulas: &Formulas, f: FormulaId) -> Result<Vec<bool>, AllocError>
    requires { IsNodeIn formulas.now f }
    ensures flags { IfOk result (λ v. v.items ≡ occurring formulas.now f) }
    ensures places { IfOk result (λ v. length v.items ≡ length formulas.now) }
    ensures list { OnOk result (IsNodeList formulas.now) }
{
    let mut occurs = vec![in alloc; false; formulas.len()]?;
    occurs[f.0 as usize] = true;
    for place in (0..formulas.len()).rev() {
        if occurs[place] {
            mark_parts(&mut occurs, formulas.node(FormulaId(place as u32)));
        }
    }
    Ok(occurs)
}

/// Marks the parts of a formula.
fn mark_parts(occurs: &mut [bool], node: Node)
    requires { PartsBelow (length occurs.old) node }
    ensures flags { occurs.new ≡ with_parts occurs.old node }
    ensures places { length occurs.new ≡ length occurs.old }
{
    match node {
        Node::True | Node::False | Node::Signal(_) => {}
        Node::Not(part) | Node::Next(part) | Node::Finally(part) | Node::Globally(part) => {
            occurs[part.0 as usize] = true;
        }
        Node::And(left, right)
        | Node::Or(left, right)
        | Node::Implies(left, right)
        | Node::Equiv(left, right)
        | Node::Until(left, right)
        | Node::Release(left, right)
        | Node::WeakUntil(left, right) => {
            occurs[left.0 as usize] = true;
            occurs[right.0 as usize] = true;
        }
    }
}

/// Puts the formula behind the others if it is an until.
fn note_until(
    untils: &mut Vec<FormulaId>,
    formulas: &Formulas,
    id: FormulaId,
) -> Result<(), AllocError>
    requires { IsNodeIn formulas.now id }
    ensures { OnOk result (untils.new.items ≡ untils.old.items ++ filter (λ g. is_until (node_at formulas.now g.0)) (id ∷ [])) }
{
    if is_until(formulas.node(id)) {
        untils.push(id)?;
    }
    Ok(())
}

fn is_until(node: Node) -> bool
    ensures { result ≡ is_until node }
{
    matches!(node, Node::Until(_, _))
}
