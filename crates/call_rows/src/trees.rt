//! Trees as text: square brackets round a pair, and angle brackets round any other node with operators.

use crate::lines::Lines;
use std::alloc::AllocError;
use tlsf_syntax::{Body, Declaration, Definition, Expr, Form, Info, Link, Op, Range, SpecTree};

/// The fields of INFO, what is defined, the names that are declared, and each section's formulas.
pub(crate) fn push_tree(lines: &mut Lines, tree: &SpecTree) -> Result<(), AllocError> {
    push_info(lines, &tree.info)?;
    for definition in &tree.definitions {
        push_definition(lines, definition)?;
    }
    push_declared(lines, b"inputs", &tree.inputs)?;
    push_declared(lines, b"outputs", &tree.outputs)?;
    push_section(lines, b"initially ", &tree.sections.initially)?;
    push_section(lines, b"preset ", &tree.sections.preset)?;
    push_section(lines, b"require ", &tree.sections.require)?;
    push_section(lines, b"assert ", &tree.sections.assert)?;
    push_section(lines, b"assume ", &tree.sections.assume)?;
    push_section(lines, b"guarantee ", &tree.sections.guarantee)
}

/// A line for each formula of a section.
fn push_section(lines: &mut Lines, word: &[u8], formulas: &[Expr]) -> Result<(), AllocError> {
    for formula in formulas {
        show_in(lines, formula, (word, b"\n"))?;
    }
    Ok(())
}

/// The title and the description, the tags, the semantics, and the target with its first byte.
fn push_info(lines: &mut Lines, info: &Info) -> Result<(), AllocError> {
    lines.push(b"info")?;
    lines.push_name(&info.title)?;
    lines.push(b",")?;
    lines.push_name(&info.description)?;
    lines.push(b",")?;
    for tag in &info.tags {
        lines.push_name(&tag.name)?;
    }
    let strict = if info.strict { " Strict" } else { "" };
    let kinds = format!(in lines.alloc;
        ", {:?}{strict}, {:?} at byte {}\n",
        info.semantics, info.target, info.target_at
    )?;
    lines.push(kinds.as_bytes())
}

/// The sort of a definition and its name, with the expression or the body.
fn push_definition(lines: &mut Lines, definition: &Definition) -> Result<(), AllocError> {
    match definition {
        Definition::Parameter { word, value } => {
            lines.push(b"parameter")?;
            lines.push_name(&word.name)?;
            show_in(lines, value, (b" = ", b"\n"))
        }
        Definition::Function { word, body, .. } => {
            lines.push(b"function")?;
            lines.push_name(&word.name)?;
            lines.push(b" =")?;
            push_body(lines, body)?;
            lines.push(b"\n")
        }
        Definition::Enumeration { word, .. } => {
            lines.push(b"enum")?;
            lines.push_name(&word.name)?;
            lines.push(b"\n")
        }
    }
}

/// The expression, or each alternative as its guard, a colon and its value.
fn push_body(lines: &mut Lines, body: &Body) -> Result<(), AllocError> {
    match body {
        Body::Plain(tree) => show_in(lines, tree, (b" ", b"")),
        Body::Guarded(alternatives) => {
            for alternative in alternatives {
                match &alternative.guard {
                    Some(guard) => show_in(lines, guard, (b" ", b": "))?,
                    None => lines.push(b" otherwise: ")?,
                }
                show_in(lines, &alternative.value, (b"", b";"))?;
            }
            Ok(())
        }
    }
}

/// `word`, then a blank and a name for each declaration.
fn push_declared(
    lines: &mut Lines,
    word: &[u8],
    declared: &[Declaration],
) -> Result<(), AllocError> {
    lines.push(word)?;
    for declaration in declared {
        lines.push_name(&declaration.word.name)?;
    }
    lines.push(b"\n")
}

fn put_op(to: &mut Lines, op: Op) -> Result<(), AllocError> {
    let word = format!(in to.alloc; "{op:?}")?;
    to.push(word.as_bytes())
}

fn put_number(to: &mut Lines, value: i64) -> Result<(), AllocError> {
    let digits = format!(in to.alloc; "{value}")?;
    to.push(digits.as_bytes())
}

#[cycle(show)]
fn show(to: &mut Lines, tree: &Expr) -> Result<(), AllocError> {
    show_form(to, &tree.form)
}

#[cycle(show)]
fn show_form(to: &mut Lines, form: &Form) -> Result<(), AllocError> {
    match form {
        Form::Number(Some(value)) => put_number(to, *value),
        Form::Number(None) => to.push(b"?"),
        Form::Truth(true) => to.push(b"true"),
        Form::Truth(false) => to.push(b"false"),
        Form::Named(name) => to.push(name.bytes()),
        Form::Call { word, arguments } => {
            to.push(word.name.bytes())?;
            show_all(to, arguments, (b"(", b")"))
        }
        Form::Index { word, index } => {
            to.push(word.name.bytes())?;
            show_in(to, index, (b"[", b"]"))
        }
        Form::SizeOf(part) => show_in(to, part, (b"SIZEOF ", b"")),
        Form::Paren(part) => show_in(to, part, (b"(", b")")),
        Form::Set(members) => show_all(to, members, (b"{", b"}")),
        Form::Steps {
            first,
            second,
            last,
        } => {
            show_in(to, first, (b"{", b", "))?;
            show_in(to, second, (b"", b" .. "))?;
            show_in(to, last, (b"", b"}"))
        }
        _ => show_operators(to, form),
    }
}

#[cycle(show)]
fn show_operators(to: &mut Lines, form: &Form) -> Result<(), AllocError> {
    match form {
        Form::Chain { first, rest } => {
            show_in(to, first, (b"<", b""))?;
            show_links(to, rest)?;
            to.push(b">")
        }
        Form::Pair { op, left, right } => {
            show_in(to, left, (b"[", b" "))?;
            put_op(to, *op)?;
            show_in(to, right, (b" ", b"]"))
        }
        Form::Prefix { op, part } => {
            to.push(b"<")?;
            put_op(to, *op)?;
            show_in(to, part, (b" ", b">"))
        }
        Form::Count { count, part } => {
            show_in(to, count, (b"<Next ", b" "))?;
            show_in(to, part, (b"", b">"))
        }
        Form::Window {
            op,
            from,
            to: until,
            part,
        } => {
            to.push(b"<")?;
            put_op(to, *op)?;
            show_in(to, from, (b" ", b":"))?;
            show_in(to, until, (b"", b" "))?;
            show_in(to, part, (b"", b">"))
        }
        Form::Big { op, ranges, part } => {
            to.push(b"<")?;
            put_op(to, *op)?;
            show_ranges(to, ranges)?;
            show_in(to, part, (b" ", b">"))
        }
        _ => Ok(()),
    }
}

/// A tree between two texts.
#[cycle(show)]
fn show_in(to: &mut Lines, tree: &Expr, around: (&[u8], &[u8])) -> Result<(), AllocError> {
    to.push(around.0)?;
    show(to, tree)?;
    to.push(around.1)
}

/// Trees with commas between.
#[cycle(show)]
fn show_all(to: &mut Lines, trees: &Vec<Expr>, around: (&[u8], &[u8])) -> Result<(), AllocError> {
    to.push(around.0)?;
    for (i, tree) in trees.iter().enumerate() {
        if i > 0 {
            to.push(b", ")?;
        }
        show(to, tree)?;
    }
    to.push(around.1)
}

#[cycle(show)]
fn show_links(to: &mut Lines, links: &Vec<Link>) -> Result<(), AllocError> {
    for link in links {
        to.push(b" ")?;
        put_op(to, link.op)?;
        show_in(to, &link.right, (b" ", b""))?;
    }
    Ok(())
}

#[cycle(show)]
fn show_ranges(to: &mut Lines, ranges: &Vec<Range>) -> Result<(), AllocError> {
    for range in ranges {
        show_range(to, range)?;
    }
    Ok(())
}

fn bound_sign(strict: bool) -> &'static [u8] {
    if strict { b" < " } else { b" <= " }
}

#[cycle(show)]
fn show_range(to: &mut Lines, range: &Range) -> Result<(), AllocError> {
    match range {
        Range::Members { word, set } => {
            to.push(b" (")?;
            to.push(word.name.bytes())?;
            show_in(to, set, (b" IN ", b")"))
        }
        Range::Between {
            low,
            low_strict,
            word,
            high_strict,
            high,
        } => {
            show_in(to, low, (b" (", bound_sign(*low_strict)))?;
            to.push(word.name.bytes())?;
            show_in(to, high, (bound_sign(*high_strict), b")"))
        }
    }
}
