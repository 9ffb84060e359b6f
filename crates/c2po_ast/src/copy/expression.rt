//! Copies of expressions. Each form has a separate function, so a level of nesting takes little of
//! the stack.

ghost use Rattle.std.specs.Prelude.{◌≡◌, map, IfOk};
ghost use Rattle.c2po_ast.specs.Parts.{enclosed, joined, prefixed, quantified};
ghost use Rattle.c2po_ast.specs.Shape.{pick, shape};

use crate::node::{enclose, joined_by, leaf_of, prefixed_by, quantify};
use crate::operator::{Atom, Bracket, Infix, Prefix, Quantifier};
use crate::{Expr, Node};
use mltl_base::Name;
use std::alloc::{AllocError, Global};

/// Returns copies of expressions in order.
#[cycle(copying)]
fn copy_all(alloc: Global, exprs: &[Expr]) -> Result<Vec<Expr>, AllocError>
    ensures { IfOk result (λ copies. map shape copies.items ≡ map shape exprs.now) }
{
    let mut copies = Vec::with_capacity(alloc, exprs.len())?;
    for expr in exprs {
        let copy = copy_expr(alloc, expr)?;
        copies.push(copy)?;
    }
    Ok(copies)
}

/// Returns a copy of an operand in a box.
#[cycle(copying)]
fn boxed(alloc: Global, expr: &Expr) -> Result<Box<Expr>, AllocError>
    ensures { IfOk result (λ copy. shape copy.value ≡ shape expr.now) }
{
    let copy = copy_expr(alloc, expr)?;
    let copy = Box::new(alloc, copy)?;
    Ok(copy)
}

/// Returns brackets around copies of their elements.
#[cycle(copying)]
fn copy_enclosed(alloc: Global, bracket: Bracket, elements: &[Expr]) -> Result<Expr, AllocError>
    ensures { IfOk result (λ copy. shape copy ≡ enclosed bracket (map shape elements.now)) }
{
    let elements = copy_all(alloc, elements)?;
    Ok(enclose(bracket, elements))
}

/// Returns a field picked from a copy of an operand.
#[cycle(copying)]
fn copy_picked(alloc: Global, line: u32, whole: &Expr, field: &Name) -> Result<Expr, AllocError>
    ensures { IfOk result (λ copy. shape copy ≡ pick line (shape whole.now) field.now) }
{
    let whole = boxed(alloc, whole)?;
    let node = Node::Pick(whole, field.copy());
    Ok(Expr { line, node })
}

/// Returns a copy of an operand after a prefix.
#[cycle(copying)]
fn copy_after(alloc: Global, prefix: Prefix, operand: &Expr) -> Result<Expr, AllocError>
    ensures { IfOk result (λ copy. shape copy ≡ prefixed prefix (shape operand.now)) }
{
    let operand = boxed(alloc, operand)?;
    Ok(prefixed_by(prefix, operand))
}

/// Returns a copy of a right operand, joined by an operator to the left operand.
#[cycle(copying)]
fn join_copy(
    alloc: Global,
    line: u32,
    binary: Infix,
    operand: &Expr,
    left: Box<Expr>,
) -> Result<Expr, AllocError>
    ensures { IfOk result (λ copy. shape copy
        ≡ joined line binary (shape left.value) (shape operand.now)) }
{
    let operand = boxed(alloc, operand)?;
    Ok(joined_by(line, binary, left, operand))
}

/// Returns a quantifier over a set, with a copy of its body.
#[cycle(copying)]
fn copy_quantified(
    alloc: Global,
    line: u32,
    quantifier: Quantifier,
    variable: &Name,
    number: u64,
    body: &Expr,
    set: Box<Expr>,
) -> Result<Expr, AllocError>
    ensures { IfOk result (λ copy. shape copy
        ≡ quantified line quantifier variable.now (shape set.value) number (shape body.now)) }
{
    let body = boxed(alloc, body)?;
    Ok(quantify(line, quantifier, variable.copy(), set, number, body))
}

/// Returns a copy of an expression.
#[cycle(copying)]
pub(super) fn copy_expr(alloc: Global, expr: &Expr) -> Result<Expr, AllocError>
    ensures { IfOk result (λ copy. shape copy ≡ shape expr.now) }
{
    let line = expr.line;
    match &expr.node {
        Node::Number(number) => Ok(leaf_of(line, Atom::Number(*number))),
        Node::Truth(truth) => Ok(leaf_of(line, Atom::Truth(*truth))),
        Node::Ref(name) => Ok(leaf_of(line, Atom::Ref(name.copy()))),
        Node::Build(name, parts) => {
            let bracket = Bracket::Call(line, name.copy());
            copy_enclosed(alloc, bracket, parts.as_slice())
        }
        Node::Group(members) => copy_enclosed(alloc, Bracket::Curly(line), members.as_slice()),
        Node::Pick(whole, field) => copy_picked(alloc, line, whole, field),
        Node::Minus(a) => copy_after(alloc, Prefix::Minus(line), a),
        Node::Not(a) => copy_after(alloc, Prefix::Not(line), a),
        Node::Window(op, low, high, a) => {
            copy_after(alloc, Prefix::Window(line, *op, *low, *high), a)
        }
        Node::Arith(op, a, b) => join_copy(alloc, line, Infix::Arith(*op), b, boxed(alloc, a)?),
        Node::Compare(op, a, b) => join_copy(alloc, line, Infix::Compare(*op), b, boxed(alloc, a)?),
        Node::Logic(op, a, b) => join_copy(alloc, line, Infix::Logic(*op), b, boxed(alloc, a)?),
        Node::Between(op, low, high, a, b) => {
            let infix = Infix::Between(*op, *low, *high);
            join_copy(alloc, line, infix, b, boxed(alloc, a)?)
        }
        Node::Each(x, set, e) => {
            copy_quantified(alloc, line, Quantifier::Each, x, 0, e, boxed(alloc, set)?)
        }
        Node::Exists(x, set, e) => {
            copy_quantified(alloc, line, Quantifier::Exists, x, 0, e, boxed(alloc, set)?)
        }
        Node::Count(op, x, set, n, e) => {
            let quantifier = Quantifier::Count(*op);
            copy_quantified(alloc, line, quantifier, x, *n, e, boxed(alloc, set)?)
        }
    }
}
