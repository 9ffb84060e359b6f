//! Nodes of plain formulas, and specifications that are unfolded to nodes.

use mltl_base::{ArithOp, BetweenOp, CompareOp, Engine, Interval, List, LogicOp, Name, WindowOp};

/// A node of a plain formula or of an integer expression. Operands are the indices of earlier
/// nodes; signals are numbered in the order of declaration.
#[derive(Clone, Copy)]
pub enum Plain {
    Truth(bool),
    /// The value of a Boolean signal.
    Flag(u32),
    Number(i64),
    /// The value of an integer signal.
    Signal(u32),
    Minus(u32),
    Arith(ArithOp, u32, u32),
    Compare(CompareOp, u32, u32),
    Not(u32),
    Logic(LogicOp, u32, u32),
    Window(WindowOp, Interval, u32),
    Between(BetweenOp, Interval, u32, u32),
}

/// An output: its engine, the places of its formula or of the left and the right formula of a
/// contract, and its name.
#[derive(Drop)]
pub enum PlainOut {
    Formula(Engine, u32, Name),
    Contract(Engine, u32, u32, Name),
}

/// An unfolded specification: the nodes, and the outputs in order.
#[derive(Drop)]
pub struct Expanded {
    pub nodes: List<Plain>,
    pub outs: List<PlainOut>,
}
