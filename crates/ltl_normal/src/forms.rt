ghost use Rattle.std.specs.Prelude.{◌≡◌, ◌≤◌, Bool, ℕ, Err, IfOk, OnOk, None, Some, false, length, not, true};
ghost use Rattle.ltl_formula.specs.Nodes.{Grows, IsNodeList, PartsBelow, SignalBelow, IsNodeIn, tree_at, tree_of, trees_of};
ghost use Rattle.ltl_formula.specs.Added.{added};
ghost use Rattle.ltl_formula.specs.ListSignals.{KeepsSignals};
ghost use Rattle.ltl_formula.specs.declared.nodes.TheConstants.{MAX_NODES, MAX_SIGNALS};
ghost use Rattle.ltl_normal.specs.NormalNodes.{constant_node, form_in, join_ids, literal_step, next_id, nodes_to, whole_node};
ghost use Rattle.ltl_formula.specs.NormalForm.{IsNormal};
ghost use Rattle.ltl_normal.specs.NormalTrees.{negated_of, normal_of};
ghost use Rattle.ltl_normal.specs.Performs.{IsMemo, Performs, recorded};
ghost use Rattle.ltl_normal.specs.Simplify.{facing_of};
ghost use Rattle.ltl_normal.specs.Truths.{HasTruthOf, OpposesTruthOf};

use crate::memo::Forms;
use crate::simplify::{Joint, Outcome, constant, facing, simplified};
use ltl_formula::{AddFault, FormulaId, Formulas, MAX_NODES, Node};

/// The normal form of the formula: made of constants, literals, And, Or, Next, Until and Release alone, and true
/// where the formula is. The nodes that it needs are added, parts from left to right before wholes, while fewer than `most`
/// stand; those that stood keep their ids. It takes time about linear in the list, since each node's two forms are found once.
pub fn normal(formulas: &mut Formulas, most: usize, f: FormulaId) -> Result<FormulaId, AddFault>
    requires { IsNodeIn formulas.old f }
    ensures ok { IfOk result (λ id. form_in most true (tree_at formulas.old f) formulas.old ≡ record { nodes = formulas.new; made = Some id }) }
    ensures too_many { result ≡ Err AddFault.TooManyNodes → form_in most true (tree_at formulas.old f) formulas.old ≡ record { nodes = formulas.new; made = None } }
    ensures stands { IfOk result (λ id. IsNodeIn formulas.new id) }
    ensures tree { IfOk result (λ id. tree_at formulas.new id ≡ normal_of (tree_at formulas.old f)) }
    ensures truth { IfOk result (λ id. HasTruthOf (tree_at formulas.old f) (tree_at formulas.new id)) }
    ensures shape { IfOk result (λ id. IsNormal (tree_at formulas.new id)) }
    ensures signals { OnOk result (KeepsSignals formulas.old formulas.new) }
    ensures grows { Grows formulas.old formulas.new }
    ensures list { IsNodeList formulas.new }
{
    form_of(formulas, most, Part { id: f, keep: true })
}

/// The negated form of the formula: as `normal`, but true where the formula isn't.
pub fn negated(formulas: &mut Formulas, most: usize, f: FormulaId) -> Result<FormulaId, AddFault>
    requires { IsNodeIn formulas.old f }
    ensures ok { IfOk result (λ id. form_in most false (tree_at formulas.old f) formulas.old ≡ record { nodes = formulas.new; made = Some id }) }
    ensures too_many { result ≡ Err AddFault.TooManyNodes → form_in most false (tree_at formulas.old f) formulas.old ≡ record { nodes = formulas.new; made = None } }
    ensures stands { IfOk result (λ id. IsNodeIn formulas.new id) }
    ensures tree { IfOk result (λ id. tree_at formulas.new id ≡ negated_of (tree_at formulas.old f)) }
    ensures truth { IfOk result (λ id. OpposesTruthOf (tree_at formulas.old f) (tree_at formulas.new id)) }
    ensures shape { IfOk result (λ id. IsNormal (tree_at formulas.new id)) }
    ensures signals { OnOk result (KeepsSignals formulas.old formulas.new) }
    ensures grows { Grows formulas.old formulas.new }
    ensures list { IsNodeList formulas.new }
{
    form_of(formulas, most, Part { id: f, keep: false })
}

/// A node of which a form is wanted: the normal one, or the negated one.
#[derive(Clone, Copy)]
struct Part {
    id: FormulaId,
    keep: bool,
}

/// The form of a node, with an empty table of what was built.
fn form_of(formulas: &mut Formulas, most: usize, part: Part) -> Result<FormulaId, AddFault>
    requires { IsNodeIn formulas.old part.id }
    ensures performs { Performs (form_in most part.keep (tree_at formulas.old part.id)) formulas.old formulas.new result }
    ensures list { IsNodeList formulas.old }
{
    let covered = formulas.len() <= MAX_NODES;
    prove!(covered);
    let mut forms = nothing_built();
    form(formulas, &mut forms, most, part)
}

fn nothing_built() -> [Forms; MAX_NODES]
    ensures none { (keep : Bool) (i : ℕ) → recorded result keep i ≡ None }
    ensures len { length result ≡ MAX_NODES }
{
    [Forms::NONE; MAX_NODES]
}

/// The form of a node, from the table where it was built before.
#[cycle(forms)]
fn form(
    formulas: &mut Formulas,
    forms: &mut [Forms],
    most: usize,
    part: Part,
) -> Result<FormulaId, AddFault>
    requires stands { IsNodeIn formulas.old part.id }
    requires list { IsNodeList formulas.old }
    requires memo { IsMemo most forms.old formulas.old }
    requires room { MAX_NODES ≤ length forms.old }
    ensures performs { Performs (form_in most part.keep (tree_at formulas.old part.id)) formulas.old formulas.new result }
    ensures memo { OnOk result (IsMemo most forms.new formulas.new) }
{
    let place = part.id.0 as usize;
    if let Some(made) = forms[place].get(part.keep) {
        return Ok(made);
    }
    let made = build(formulas, forms, most, formulas.node(part.id), part.keep)?;
    forms[place] = forms[place].with(part.keep, made);
    Ok(made)
}

/// The form of a node, by the table's row.
#[cycle(forms)]
fn build(
    formulas: &mut Formulas,
    forms: &mut [Forms],
    most: usize,
    node: Node,
    keep: bool,
) -> Result<FormulaId, AddFault>
    requires parts { PartsBelow (length formulas.old) node }
    requires signal { SignalBelow MAX_SIGNALS node }
    requires list { IsNodeList formulas.old }
    requires memo { IsMemo most forms.old formulas.old }
    requires room { MAX_NODES ≤ length forms.old }
    ensures performs { Performs (form_in most keep (tree_of (trees_of formulas.old) node)) formulas.old formulas.new result }
    ensures memo { OnOk result (IsMemo most forms.new formulas.new) }
{
    let same = |id: FormulaId| Part { id, keep };
    let opposite = |id: FormulaId| Part { id, keep: !keep };
    match node {
        Node::True => add_constant(formulas, most, keep),
        Node::False => add_constant(formulas, most, !keep),
        Node::Signal(signal) => add_literal(formulas, most, keep, signal),
        Node::Not(a) => form(formulas, forms, most, opposite(a)),
        Node::Next(a) => next_of(formulas, forms, most, same(a)),
        Node::Finally(a) => from_constant(
            formulas,
            forms,
            most,
            facing(keep, Joint::Until),
            keep,
            same(a),
        ),
        Node::Globally(a) => from_constant(
            formulas,
            forms,
            most,
            facing(keep, Joint::Release),
            !keep,
            same(a),
        ),
        Node::And(a, b) => both(
            formulas,
            forms,
            most,
            facing(keep, Joint::And),
            same(a),
            same(b),
        ),
        Node::Or(a, b) => both(
            formulas,
            forms,
            most,
            facing(keep, Joint::Or),
            same(a),
            same(b),
        ),
        Node::Implies(a, b) => both(
            formulas,
            forms,
            most,
            facing(keep, Joint::Or),
            opposite(a),
            same(b),
        ),
        Node::Equiv(a, b) => equivalence(formulas, forms, most, a, same(b)),
        Node::Until(a, b) => both(
            formulas,
            forms,
            most,
            facing(keep, Joint::Until),
            same(a),
            same(b),
        ),
        Node::Release(a, b) => both(
            formulas,
            forms,
            most,
            facing(keep, Joint::Release),
            same(a),
            same(b),
        ),
        Node::WeakUntil(a, b) => weak_until(formulas, forms, most, a, same(b)),
    }
}

/// The forms of two parts, joined.
#[cycle(forms)]
fn both(
    formulas: &mut Formulas,
    forms: &mut [Forms],
    most: usize,
    joint: Joint,
    a: Part,
    b: Part,
) -> Result<FormulaId, AddFault>
    requires a_stands { IsNodeIn formulas.old a.id }
    requires b_stands { IsNodeIn formulas.old b.id }
    requires list { IsNodeList formulas.old }
    requires memo { IsMemo most forms.old formulas.old }
    requires room { MAX_NODES ≤ length forms.old }
    ensures performs { Performs ((nodes_to most).join joint (form_in most a.keep (tree_at formulas.old a.id)) (form_in most b.keep (tree_at formulas.old b.id))) formulas.old formulas.new result }
    ensures memo { OnOk result (IsMemo most forms.new formulas.new) }
{
    let first = form(formulas, forms, most, a)?;
    let second = form(formulas, forms, most, b)?;
    join(formulas, most, joint, first, second)
}

/// A constant and the form of a part, joined.
#[cycle(forms)]
fn from_constant(
    formulas: &mut Formulas,
    forms: &mut [Forms],
    most: usize,
    joint: Joint,
    value: bool,
    a: Part,
) -> Result<FormulaId, AddFault>
    requires stands { IsNodeIn formulas.old a.id }
    requires list { IsNodeList formulas.old }
    requires memo { IsMemo most forms.old formulas.old }
    requires room { MAX_NODES ≤ length forms.old }
    ensures performs { Performs ((nodes_to most).join joint ((nodes_to most).constant value) (form_in most a.keep (tree_at formulas.old a.id))) formulas.old formulas.new result }
    ensures memo { OnOk result (IsMemo most forms.new formulas.new) }
{
    let first = add_constant(formulas, most, value)?;
    let second = form(formulas, forms, most, a)?;
    join(formulas, most, joint, first, second)
}

/// Next of the form of a part.
#[cycle(forms)]
fn next_of(
    formulas: &mut Formulas,
    forms: &mut [Forms],
    most: usize,
    a: Part,
) -> Result<FormulaId, AddFault>
    requires stands { IsNodeIn formulas.old a.id }
    requires list { IsNodeList formulas.old }
    requires memo { IsMemo most forms.old formulas.old }
    requires room { MAX_NODES ≤ length forms.old }
    ensures performs { Performs ((nodes_to most).next (form_in most a.keep (tree_at formulas.old a.id))) formulas.old formulas.new result }
    ensures memo { OnOk result (IsMemo most forms.new formulas.new) }
{
    let part = form(formulas, forms, most, a)?;
    next(formulas, most, part)
}

/// Both parts true or both false; for the negated form, one alone.
#[cycle(forms)]
fn equivalence(
    formulas: &mut Formulas,
    forms: &mut [Forms],
    most: usize,
    a: FormulaId,
    b: Part,
) -> Result<FormulaId, AddFault>
    requires a_stands { IsNodeIn formulas.old a }
    requires b_stands { IsNodeIn formulas.old b.id }
    requires list { IsNodeList formulas.old }
    requires memo { IsMemo most forms.old formulas.old }
    requires room { MAX_NODES ≤ length forms.old }
    ensures performs { Performs ((nodes_to most).join Joint.Or ((nodes_to most).join Joint.And (form_in most true (tree_at formulas.old a)) (form_in most b.keep (tree_at formulas.old b.id))) ((nodes_to most).join Joint.And (form_in most false (tree_at formulas.old a)) (form_in most (not b.keep) (tree_at formulas.old b.id)))) formulas.old formulas.new result }
    ensures memo { OnOk result (IsMemo most forms.new formulas.new) }
{
    let other = Part {
        id: b.id,
        keep: !b.keep,
    };
    let first = both(
        formulas,
        forms,
        most,
        Joint::And,
        Part { id: a, keep: true },
        b,
    )?;
    let second = both(
        formulas,
        forms,
        most,
        Joint::And,
        Part { id: a, keep: false },
        other,
    )?;
    join(formulas, most, Joint::Or, first, second)
}

/// `a W b` as `b R (a || b)`; for the negated form with the opposite operators.
#[cycle(forms)]
fn weak_until(
    formulas: &mut Formulas,
    forms: &mut [Forms],
    most: usize,
    a: FormulaId,
    b: Part,
) -> Result<FormulaId, AddFault>
    requires a_stands { IsNodeIn formulas.old a }
    requires b_stands { IsNodeIn formulas.old b.id }
    requires list { IsNodeList formulas.old }
    requires memo { IsMemo most forms.old formulas.old }
    requires room { MAX_NODES ≤ length forms.old }
    ensures performs { Performs ((nodes_to most).join (facing_of b.keep Joint.Release) (form_in most b.keep (tree_at formulas.old b.id)) ((nodes_to most).join (facing_of b.keep Joint.Or) (form_in most b.keep (tree_at formulas.old a)) (form_in most b.keep (tree_at formulas.old b.id)))) formulas.old formulas.new result }
    ensures memo { OnOk result (IsMemo most forms.new formulas.new) }
{
    let first = form(formulas, forms, most, b)?;
    let second = both(
        formulas,
        forms,
        most,
        facing(b.keep, Joint::Or),
        Part {
            id: a,
            keep: b.keep,
        },
        b,
    )?;
    join(
        formulas,
        most,
        facing(b.keep, Joint::Release),
        first,
        second,
    )
}

fn add_constant(formulas: &mut Formulas, most: usize, value: bool) -> Result<FormulaId, AddFault>
    ensures { Performs ((nodes_to most).constant value) formulas.old formulas.new result }
{
    if value {
        formulas.add(most, Node::True)
    } else {
        formulas.add(most, Node::False)
    }
}

/// The signal, or the signal and its Not.
fn add_literal(
    formulas: &mut Formulas,
    most: usize,
    keep: bool,
    signal: u32,
) -> Result<FormulaId, AddFault>
    requires { SignalBelow MAX_SIGNALS (Node.Signal signal) }
    ensures { Performs (literal_step most keep signal) formulas.old formulas.new result }
{
    let id = formulas.add(most, Node::Signal(signal))?;
    if keep {
        return Ok(id);
    }
    formulas.add(most, Node::Not(id))
}

/// Next of a form, simplified.
fn next(formulas: &mut Formulas, most: usize, a: FormulaId) -> Result<FormulaId, AddFault>
    requires { IsNodeIn formulas.old a }
    ensures { Performs (next_id most a) formulas.old formulas.new result }
{
    match constant(formulas.node(a)) {
        Some(_) => Ok(a),
        None => formulas.add(most, Node::Next(a)),
    }
}

/// Two forms, joined and simplified.
fn join(
    formulas: &mut Formulas,
    most: usize,
    joint: Joint,
    a: FormulaId,
    b: FormulaId,
) -> Result<FormulaId, AddFault>
    requires a_stands { IsNodeIn formulas.old a }
    requires b_stands { IsNodeIn formulas.old b }
    ensures { Performs (join_ids most joint a b) formulas.old formulas.new result }
{
    let first = constant(formulas.node(a));
    let second = constant(formulas.node(b));
    match simplified(joint, first, second, a == b) {
        Outcome::First => Ok(a),
        Outcome::Second => Ok(b),
        Outcome::Whole => formulas.add(most, whole(joint, a, b)),
    }
}

fn whole(joint: Joint, a: FormulaId, b: FormulaId) -> Node
    ensures { result ≡ whole_node joint a b }
{
    match joint {
        Joint::And => Node::And(a, b),
        Joint::Or => Node::Or(a, b),
        Joint::Until => Node::Until(a, b),
        Joint::Release => Node::Release(a, b),
    }
}
