//! Parts of expressions: operators, prefixes, quantifiers, brackets and operands of one token.

use mltl_base::{ArithOp, BetweenOp, CompareOp, CountOp, LogicOp, Name, WindowOp};

/// An operator between operands, with its interval if it is temporal.
#[derive(Clone, Copy)]
pub enum Infix {
    Logic(LogicOp),
    Between(BetweenOp, u64, u64),
    Compare(CompareOp),
    Arith(ArithOp),
}

/// A prefix of an operand, with its line, and with its interval if it is temporal.
#[derive(Clone, Copy)]
pub enum Prefix {
    Not(u32),
    Minus(u32),
    Window(u32, WindowOp, u64, u64),
}

/// A quantifier over a set.
#[derive(Clone, Copy)]
pub enum Quantifier {
    Each,
    Exists,
    Count(CountOp),
}

/// Brackets around elements with commas between them: braces, or the brackets of a call of a
/// struct's name, with their line.
#[derive(Drop)]
pub enum Bracket {
    Curly(u32),
    Call(u32, Name),
}

/// An operand of one token.
#[derive(Drop)]
pub enum Atom {
    Number(i64),
    Truth(bool),
    Ref(Name),
}
