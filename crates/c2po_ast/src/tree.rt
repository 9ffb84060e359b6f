//! Trees of expressions.

use mltl_base::{ArithOp, BetweenOp, CompareOp, CountOp, LogicOp, Name, WindowOp};

/// An expression, with the line of its head token: the operator, the letter of a temporal operator,
/// the number, the name, the `{`, the picked field or the quantifier's word. Round brackets leave
/// no trace.
#[cycle(expr)]
#[derive(Drop)]
pub struct Expr {
    pub line: u32,
    pub node: Node,
}

/// The head and the operands of an expression.
#[cycle(expr)]
#[derive(Drop)]
pub enum Node {
    Number(i64),
    Truth(bool),
    /// The name of a signal, a definition or a variable.
    Ref(Name),
    /// A struct's value, from the values of its fields in order.
    Build(Name, Vec<Expr>),
    /// A set of these elements.
    Group(Vec<Expr>),
    /// A field of a struct's value.
    Pick(Box<Expr>, Name),
    Minus(Box<Expr>),
    Not(Box<Expr>),
    Arith(ArithOp, Box<Expr>, Box<Expr>),
    Compare(CompareOp, Box<Expr>, Box<Expr>),
    Logic(LogicOp, Box<Expr>, Box<Expr>),
    /// A temporal operator with the bounds of its interval, both included.
    Window(WindowOp, u64, u64, Box<Expr>),
    /// A temporal operator between formulas with the bounds of its interval, both included.
    Between(BetweenOp, u64, u64, Box<Expr>, Box<Expr>),
    /// `foreach`: variable, set, body.
    Each(Name, Box<Expr>, Box<Expr>),
    /// `forsome`: variable, set, body.
    Exists(Name, Box<Expr>, Box<Expr>),
    /// A counting quantifier: variable, set, number, body.
    Count(CountOp, Name, Box<Expr>, u64, Box<Expr>),
}
