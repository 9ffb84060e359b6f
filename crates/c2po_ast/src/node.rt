//! Trees from their parts.

ghost use Rattle.std.specs.Prelude.{◌≡◌, map};
ghost use Rattle.c2po_ast.specs.Shape.{shape};
ghost use Rattle.c2po_ast.specs.Parts.{leaf, joined, prefixed, enclosed, quantified};

use crate::operator::{Atom, Bracket, Infix, Prefix, Quantifier};
use crate::{Expr, Node};
use mltl_base::Name;

/// Makes an operand of one token.
pub fn leaf_of(line: u32, atom: Atom) -> Expr
    ensures { shape result ≡ leaf line atom }
{
    let node = match atom {
        Atom::Number(number) => Node::Number(number),
        Atom::Truth(truth) => Node::Truth(truth),
        Atom::Ref(name) => Node::Ref(name),
    };
    Expr { line, node }
}

/// Joins two operands by an operator.
pub fn joined_by(line: u32, binary: Infix, left: Box<Expr>, right: Box<Expr>) -> Expr
    ensures { shape result ≡ joined line binary (shape left.value) (shape right.value) }
{
    let node = match binary {
        Infix::Logic(op) => Node::Logic(op, left, right),
        Infix::Between(op, low, high) => Node::Between(op, low, high, left, right),
        Infix::Compare(op) => Node::Compare(op, left, right),
        Infix::Arith(op) => Node::Arith(op, left, right),
    };
    Expr { line, node }
}

/// Applies a prefix to an operand.
pub fn prefixed_by(prefix: Prefix, operand: Box<Expr>) -> Expr
    ensures { shape result ≡ prefixed prefix (shape operand.value) }
{
    match prefix {
        Prefix::Not(line) => Expr {
            line,
            node: Node::Not(operand),
        },
        Prefix::Minus(line) => Expr {
            line,
            node: Node::Minus(operand),
        },
        Prefix::Window(line, op, low, high) => Expr {
            line,
            node: Node::Window(op, low, high, operand),
        },
    }
}

/// Makes a quantifier over a set. Only a counting quantifier uses the number.
pub fn quantify(
    line: u32,
    quantifier: Quantifier,
    variable: Name,
    set: Box<Expr>,
    number: u64,
    body: Box<Expr>,
) -> Expr
    ensures { shape result
        ≡ quantified line quantifier variable (shape set.value) number (shape body.value) }
{
    match quantifier {
        Quantifier::Each => Expr {
            line,
            node: Node::Each(variable, set, body),
        },
        Quantifier::Exists => Expr {
            line,
            node: Node::Exists(variable, set, body),
        },
        Quantifier::Count(op) => Expr {
            line,
            node: Node::Count(op, variable, set, number, body),
        },
    }
}

/// Makes a set or a struct's value from the elements in brackets.
pub fn enclose(bracket: Bracket, elements: Vec<Expr>) -> Expr
    ensures { shape result ≡ enclosed bracket (map shape elements.items) }
{
    match bracket {
        Bracket::Curly(line) => Expr {
            line,
            node: Node::Group(elements),
        },
        Bracket::Call(line, name) => Expr {
            line,
            node: Node::Build(name, elements),
        },
    }
}
