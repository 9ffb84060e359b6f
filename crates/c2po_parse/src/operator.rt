//! Starts of operands, and operators after operands.

pub use c2po_ast::operator::{Atom, Bracket, Infix, Prefix, Quantifier};
use mltl_base::Name;

/// An operator after an operand, with its line, or a picked field, with the line of its name.
#[derive(Drop)]
pub enum Operator {
    Binary(u32, Infix),
    Field(u32, Name),
}

/// The start of an operand.
#[derive(Drop)]
pub enum Start {
    /// An operand of one token, with its line.
    Leaf(u32, Atom),
    Before(Prefix),
    /// `(` around an expression.
    Round,
    Open(Bracket),
    /// A quantifier's word with its line, `(`, the variable and `:`.
    Bind(u32, Quantifier, Name),
}
