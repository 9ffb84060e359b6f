//! Trees of items.

use crate::Expr;
use mltl_base::{Engine, List, Name};

/// A specification: its items in the order of the text.
#[derive(Drop)]
pub struct SpecTree {
    pub items: List<Item>,
}

/// An item, with the line of its first token.
#[derive(Drop)]
pub struct Item {
    pub line: u32,
    pub body: Body,
}

/// The declaration or the output of an item.
#[derive(Drop)]
pub enum Body {
    /// A struct with its fields in order.
    Struct(Name, List<FieldDecl>),
    /// Signals of one type.
    Input(List<Name>, TypeTree),
    /// A name for an expression.
    Define(Name, Expr),
    /// An output: a formula for an engine, with an optional label.
    Formula(Engine, Option<Name>, Expr),
    /// An output: the assumption and the guarantee of a contract for an engine, with an optional
    /// label.
    Contract(Engine, Option<Name>, Expr, Expr),
}

/// A field of a struct.
#[derive(Drop)]
pub struct FieldDecl {
    pub name: Name,
    pub kind: TypeTree,
}

/// A type as it is written. `bool` and `int` are names here.
#[derive(Drop)]
pub enum TypeTree {
    Named(Name),
    Set(Box<TypeTree>),
}
