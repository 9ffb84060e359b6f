//! Scopes of expressions, and the values that names and picked fields lead to.

use crate::nodes::Made;
use c2po_ast::{Expr, FieldDecl};
use mltl_base::{List, Name};
use std::alloc::Global;

/// The names and the variables that an expression sees, the innermost first.
#[derive(Clone, Copy)]
pub enum Scope<'a> {
    /// The first declared names, this many.
    First(usize),
    /// A variable, whose value is an expression in a scope of its own.
    Member {
        name: &'a Name,
        expr: &'a Expr,
        within: &'a Scope<'a>,
        outer: &'a Scope<'a>,
    },
}

/// The place of an expression: the scope that it sees, and the number of levels that may nest in
/// it.
#[derive(Clone, Copy)]
pub struct Site<'a> {
    pub alloc: Global,
    pub depth: u32,
    pub scope: &'a Scope<'a>,
}

/// The meaning of a name or of an expression that was followed.
#[derive(Clone, Copy)]
pub enum Named<'a> {
    Nothing,
    /// A struct, by its fields.
    Struct(&'a List<FieldDecl>),
    /// A signal, Boolean or integer, by its number.
    Signal(bool, u32),
    /// The value of an expression, and its node, if it has been made.
    Open(Scope<'a>, &'a Expr, Option<Made>),
}

/// The head of a value, after names and picked fields are followed. Its parts aren't visited.
#[derive(Clone, Copy)]
pub enum Head<'a> {
    /// A name without a value.
    Nothing,
    /// A signal, Boolean or integer, by its number.
    Signal(bool, u32),
    Struct(Scope<'a>, &'a Name, &'a [Expr]),
    Set(Scope<'a>, &'a [Expr]),
    /// A number, a Boolean, an operator or a quantifier.
    Leaf(Scope<'a>, &'a Expr),
    /// A number, a Boolean, an operator or a quantifier whose node has been made.
    Kept(Made, Scope<'a>, &'a Expr),
}
