//! The hash by which vertices are found. Its key is a hash of the specification itself, so that whoever chooses numbers
//! doesn't know it before all of them are chosen.

use c2po_ast::Plain;
use mltl_base::{ArithOp, BetweenOp, CompareOp, LogicOp, WindowOp};
use std::hash::{BuildHasher, DefaultHasher, Hash, Hasher};

/// Makes hashers that have read a key.
#[derive(Clone, Copy)]
pub struct Keyed {
    start: DefaultHasher,
}

impl BuildHasher for Keyed {
    type Hasher = DefaultHasher;

    ghost build_hasher = { λ keyed. keyed.start };

    fn build_hasher(&self) -> DefaultHasher {
        self.start
    }
}

impl Keyed {
    /// Returns hashers that have read a hash of the nodes. Vertices are found by any key, so no clause says which this is.
    pub fn by(nodes: &[Plain]) -> Keyed {
        let mut key = DefaultHasher::new();
        for node in nodes {
            feed(&mut key, *node);
        }
        let mut start = DefaultHasher::new();
        start.write_u64(key.finish());
        Keyed { start }
    }
}

/// Returns the number of an arithmetic operator among all operators.
fn arith_kind(op: ArithOp) -> u8 {
    match op {
        ArithOp::Add => 6,
        ArithOp::Sub => 7,
        ArithOp::Mul => 8,
        ArithOp::Div => 9,
        ArithOp::Rem => 10,
    }
}

/// Returns the number of a comparison among all operators.
fn compare_kind(op: CompareOp) -> u8 {
    match op {
        CompareOp::Eq => 11,
        CompareOp::Ne => 12,
        CompareOp::Lt => 13,
        CompareOp::Le => 14,
        CompareOp::Gt => 15,
        CompareOp::Ge => 16,
    }
}

/// Returns the number of a connective among all operators.
fn logic_kind(op: LogicOp) -> u8 {
    match op {
        LogicOp::And => 17,
        LogicOp::Or => 18,
        LogicOp::Implies => 19,
        LogicOp::Iff => 20,
    }
}

/// Returns the number of a temporal operator of one operand among all operators.
fn window_kind(op: WindowOp) -> u8 {
    match op {
        WindowOp::F => 21,
        WindowOp::G => 22,
        WindowOp::O => 23,
        WindowOp::H => 24,
    }
}

/// Returns the number of a temporal operator of two operands among all operators.
fn between_kind(op: BetweenOp) -> u8 {
    match op {
        BetweenOp::U => 25,
        BetweenOp::R => 26,
        BetweenOp::S => 27,
    }
}

/// Feeds a node to the key: its operator, numbers, signals, operands and bounds.
fn feed(key: &mut DefaultHasher, node: Plain) {
    match node {
        Plain::Truth(value) => (0u8, value).hash(key),
        Plain::Number(number) => (1u8, number).hash(key),
        Plain::Flag(a) => (2u8, a).hash(key),
        Plain::Signal(a) => (3u8, a).hash(key),
        Plain::Minus(a) => (4u8, a).hash(key),
        Plain::Not(a) => (5u8, a).hash(key),
        Plain::Arith(op, a, b) => (arith_kind(op), a, b).hash(key),
        Plain::Compare(op, a, b) => (compare_kind(op), a, b).hash(key),
        Plain::Logic(op, a, b) => (logic_kind(op), a, b).hash(key),
        Plain::Window(op, interval, a) => (window_kind(op), interval, a).hash(key),
        Plain::Between(op, interval, a, b) => (between_kind(op), interval, a, b).hash(key),
    }
}
