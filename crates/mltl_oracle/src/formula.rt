//! Formulas as trees.

use mltl_base::{ArithOp, BetweenOp, CompareOp, Interval, LogicOp, WindowOp};

/// A whole-number expression over the columns of a row.
#[derive(Drop)]
pub enum Term {
    Column(u32),
    Constant(i64),
    Negative(Box<Term>),
    Arith(ArithOp, Box<Term>, Box<Term>),
}

/// An atom: the Boolean in a column, or a comparison.
#[derive(Drop)]
pub enum Atom {
    IsTrue(u32),
    Compare(CompareOp, Term, Term),
}

/// A formula of both tenses.
#[derive(Drop)]
pub enum Formula {
    Truth(bool),
    Atom(Atom),
    Not(Box<Formula>),
    Logic(LogicOp, Box<Formula>, Box<Formula>),
    Window(WindowOp, Interval, Box<Formula>),
    Between(BetweenOp, Interval, Box<Formula>, Box<Formula>),
}

/// An output: a formula, or an assume-guarantee contract of two formulas.
#[derive(Drop)]
pub enum Output {
    Formula(Formula),
    Contract(Formula, Formula),
}
