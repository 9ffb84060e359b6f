//! Vertices: expressions and core formulas over numbered ones.

ghost use Rattle.std.specs.Prelude.{◌≡◌};
ghost use Rattle.core_graph.specs.Vertices.{is_formula, operands_of};

use mltl_base::{ArithOp, Interval};

/// An integer, an atom or a core formula. Its operands are the numbers of earlier vertices.
#[derive(Clone, Copy, PartialEq, Eq, Hash)]
pub enum Vertex {
    Column(u32),
    Const(i64),
    Neg(usize),
    Arith(ArithOp, usize, usize),
    IsTrue(u32),
    Eq(usize, usize),
    Lt(usize, usize),
    Le(usize, usize),
    True,
    /// The truth of an atom as a formula.
    Load(usize),
    Not(usize),
    And(usize, usize),
    Until(Interval, usize, usize),
    Since(Interval, usize, usize),
}

/// The operands of a vertex, from left to right.
#[derive(Clone, Copy)]
pub enum Operands {
    Zero,
    One(usize),
    Two(usize, usize),
}

impl Vertex {
    /// Returns the operands from left to right.
    pub fn operands(self) -> Operands
        ensures { result ≡ operands_of self }
    {
        match self {
            Vertex::Column(_) | Vertex::Const(_) | Vertex::IsTrue(_) | Vertex::True =>
                Operands::Zero,
            Vertex::Neg(a) | Vertex::Load(a) | Vertex::Not(a) => Operands::One(a),
            Vertex::Arith(_, a, b) => Operands::Two(a, b),
            Vertex::Eq(a, b) | Vertex::Lt(a, b) | Vertex::Le(a, b) => Operands::Two(a, b),
            Vertex::And(a, b) => Operands::Two(a, b),
            Vertex::Until(_, a, b) | Vertex::Since(_, a, b) => Operands::Two(a, b),
        }
    }

    /// Returns true if the vertex is a core formula, not an expression.
    pub fn is_formula(self) -> bool
        ensures { result ≡ is_formula self }
    {
        match self {
            Vertex::True | Vertex::Load(_) | Vertex::Not(_) | Vertex::And(..) => true,
            Vertex::Until(..) | Vertex::Since(..) => true,
            Vertex::Column(_) | Vertex::Const(_) | Vertex::Neg(_) | Vertex::Arith(..) => false,
            Vertex::IsTrue(_) | Vertex::Eq(..) | Vertex::Lt(..) | Vertex::Le(..) => false,
        }
    }
}
