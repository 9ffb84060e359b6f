//! The operators of specifications, and the instructions of observer programs.

use crate::Interval;

/// An operator between integers.
#[derive(Clone, Copy, PartialEq, Eq, Hash)]
pub enum ArithOp {
    Add,
    Sub,
    Mul,
    Div,
    Rem,
}

/// A comparison of integers.
#[derive(Clone, Copy, PartialEq, Eq)]
pub enum CompareOp {
    Eq,
    Ne,
    Lt,
    Le,
    Gt,
    Ge,
}

/// An operator between formulas at one time.
#[derive(Clone, Copy)]
pub enum LogicOp {
    And,
    Or,
    Implies,
    Iff,
}

/// A temporal operator of one formula: finally, globally, once, historically.
#[derive(Clone, Copy, PartialEq, Eq)]
pub enum WindowOp {
    F,
    G,
    O,
    H,
}

/// A temporal operator between formulas: until, release, since.
#[derive(Clone, Copy)]
pub enum BetweenOp {
    U,
    R,
    S,
}

/// The comparison that a counting quantifier makes with the number of true bodies.
#[derive(Clone, Copy)]
pub enum CountOp {
    Exactly,
    AtLeast,
    AtMost,
}

/// An instruction of the Booleanizer. Operands are numbers of earlier instructions; columns count
/// from 0.
#[derive(Clone, Copy)]
pub enum BzOp {
    /// The integer in a column.
    Column(u32),
    /// The Boolean in a column, which is 0 or 1.
    IsTrue(u32),
    Const(i64),
    Neg(u32),
    Add(u32, u32),
    Sub(u32, u32),
    Mul(u32, u32),
    /// The quotient, truncated toward zero.
    Div(u32, u32),
    /// The remainder, with the sign of the left operand.
    Rem(u32, u32),
    Eq(u32, u32),
    Lt(u32, u32),
    Le(u32, u32),
}

/// An instruction of the future-time engine. `Load` reads a Boolean of the Booleanizer; other
/// operands are numbers of earlier instructions of the engine.
#[derive(Clone, Copy)]
pub enum FtOp {
    True,
    Load(u32),
    Not(u32),
    And(u32, u32),
    Until(u32, u32, Interval),
}

/// An instruction of the past-time engine. `Load` reads a Boolean of the Booleanizer; other
/// operands are numbers of earlier instructions of the engine.
#[derive(Clone, Copy)]
pub enum PtOp {
    True,
    Load(u32),
    Not(u32),
    And(u32, u32),
    Since(u32, u32, Interval),
}
