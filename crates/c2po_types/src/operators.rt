//! Operators by the number of their operands, and quantifiers by the way they join their bodies.

ghost use Rattle.std.specs.Prelude.{◌≡◌, true};
ghost use Rattle.c2po_ast.specs.Shape.{shape};
ghost use Rattle.c2po_types.specs.Environment.{Env, value_of};
ghost use Rattle.c2po_types.specs.Heads.{is_operator};
ghost use Rattle.c2po_types.specs.Operators.{operation_value};

use c2po_ast::{Expr, Node};
use mltl_base::{ArithOp, BetweenOp, CompareOp, CountOp, LogicOp, Name, WindowOp};

/// An operator over one operand.
#[derive(Clone, Copy)]
pub enum UnaryOp {
    Minus,
    Not,
    /// A temporal operator with the bounds of its interval, both included.
    Window(WindowOp, u64, u64),
}

/// An operator over two operands.
#[derive(Clone, Copy)]
pub enum BinaryOp {
    Arith(ArithOp),
    Compare(CompareOp),
    Logic(LogicOp),
    /// A temporal operator with the bounds of its interval, both included.
    Between(BetweenOp, u64, u64),
}

/// The bodies of a quantifier: one for each member of a set, with the member as the value of the
/// variable.
#[derive(Clone, Copy)]
pub struct Bodies<'a> {
    pub name: &'a Name,
    pub set: &'a Expr,
    pub body: &'a Expr,
}

/// A number, a Boolean, or an operator or a quantifier with its operands.
#[derive(Clone, Copy)]
pub enum Operation<'a> {
    Number(i64),
    Truth(bool),
    Unary(UnaryOp, &'a Expr),
    Binary(BinaryOp, &'a Expr, &'a Expr),
    /// A quantifier whose bodies are joined by an operator.
    Joined(LogicOp, Bodies<'a>),
    /// A quantifier that counts, with its number.
    Counted(CountOp, u64, Bodies<'a>),
}

/// Returns `true` if an expression is a number, a Boolean, an operator or a quantifier.
pub fn is_operator(e: &Expr) -> bool
    ensures { result ≡ is_operator (shape e.now) }
{
    match &e.node {
        Node::Ref(_) | Node::Build(..) | Node::Group(_) | Node::Pick(..) => false,
        _ => true,
    }
}

impl<'a> Operation<'a> {
    /// Returns the operation of an expression that is a number, a Boolean, an operator or a
    /// quantifier.
    pub fn of(e: &'a Expr) -> Operation<'a>
        ensures { (env : Env) → is_operator (shape e.now) ≡ true
            → operation_value result env ≡ value_of (shape e.now) env }
    {
        match &e.node {
            Node::Number(n) => Operation::Number(*n),
            Node::Truth(truth) => Operation::Truth(*truth),
            Node::Minus(a) => Operation::Unary(UnaryOp::Minus, a),
            Node::Not(a) => Operation::Unary(UnaryOp::Not, a),
            Node::Window(op, low, high, a) => {
                Operation::Unary(UnaryOp::Window(*op, *low, *high), a)
            }
            Node::Arith(op, a, b) => Operation::Binary(BinaryOp::Arith(*op), a, b),
            Node::Compare(op, a, b) => Operation::Binary(BinaryOp::Compare(*op), a, b),
            Node::Logic(op, a, b) => Operation::Binary(BinaryOp::Logic(*op), a, b),
            Node::Between(op, low, high, a, b) => {
                Operation::Binary(BinaryOp::Between(*op, *low, *high), a, b)
            }
            Node::Each(name, set, body) => {
                Operation::Joined(LogicOp::And, Bodies { name, set, body })
            }
            Node::Exists(name, set, body) => {
                Operation::Joined(LogicOp::Or, Bodies { name, set, body })
            }
            Node::Count(op, name, set, number, body) => {
                Operation::Counted(*op, *number, Bodies { name, set, body })
            }
            Node::Ref(_) | Node::Build(..) | Node::Group(_) | Node::Pick(..) => {
                Operation::Truth(false)
            }
        }
    }
}
