//! Observer programs and their parts.

ghost use Rattle.std.specs.Prelude.{◌≡◌};
ghost use Rattle.mltl_base.specs.Programs.{out_name};

use crate::{BzOp, Engine, FtOp, List, Name, PtOp};

/// An output of a program: a formula, or an assume-guarantee contract of two formulas, by the
/// numbers of their instructions in the engine.
#[derive(Drop)]
pub enum Out {
    Formula(Engine, u32, Name),
    Contract(Engine, u32, u32, Name),
}

impl Out {
    /// Returns the name under which the output is reported.
    pub fn name(&self) -> &Name
        ensures name { result.now ≡ out_name self.now }
    {
        match self {
            Out::Formula(_, _, name) | Out::Contract(_, _, _, name) => name,
        }
    }
}

/// The queue slots of each ft instruction, and the most boxes of each pt instruction.
#[derive(Drop)]
pub struct Sizes {
    pub ft: List<u32>,
    pub pt: List<u32>,
}

/// The instructions and outputs of a specification, without sizes.
#[derive(Drop)]
pub struct Graph {
    pub bz: List<BzOp>,
    pub ft: List<FtOp>,
    pub pt: List<PtOp>,
    pub outs: List<Out>,
}

/// A signal that a program stores: its name, its kind, and its column.
#[derive(Drop)]
pub struct StoredSignal {
    pub name: Name,
    pub truth: bool,
    pub column: u32,
}

/// An observer program. In version 1 it stores no signals; in version 2 each column that an
/// instruction reads is the column of a stored signal.
#[derive(Drop)]
pub struct Program {
    pub version: u32,
    /// The number of columns of a row.
    pub width: u32,
    pub bz: List<BzOp>,
    pub ft: List<FtOp>,
    pub pt: List<PtOp>,
    pub outs: List<Out>,
    pub sizes: Sizes,
    pub signals: List<StoredSignal>,
}

/// The columns of the signals in a row: the number of columns, and the column of each signal in
/// order of declaration.
#[derive(Drop)]
pub struct Columns {
    pub width: u32,
    pub of_signal: List<u32>,
}
