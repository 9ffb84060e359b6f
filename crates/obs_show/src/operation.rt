//! Operations: instructions that get a line each.

ghost use Rattle.std.specs.Prelude.{◌≡◌, Bool};
ghost use Rattle.obs_show.specs.Naming.{is_future_operation, is_operation, is_past_operation};

use mltl_base::{BzOp, FtOp, PtOp};

/// An instruction of a part of a program.
pub(crate) trait Instruction {
    ghost operation: { Self → Bool };

    /// Returns true if it is an operation, which gets a defined name.
    fn is_operation(&self) -> bool
        ensures { result ≡ operation self.now };
}

impl Instruction for BzOp {
    ghost use Rattle.obs_show.specs.Naming.{is_operation};

    ghost operation = { is_operation };

    fn is_operation(&self) -> bool {
        !matches!(*self, BzOp::Column(_) | BzOp::IsTrue(_) | BzOp::Const(_))
    }
}

impl Instruction for FtOp {
    ghost use Rattle.obs_show.specs.Naming.{is_future_operation};

    ghost operation = { is_future_operation };

    fn is_operation(&self) -> bool {
        !matches!(*self, FtOp::True | FtOp::Load(_))
    }
}

impl Instruction for PtOp {
    ghost use Rattle.obs_show.specs.Naming.{is_past_operation};

    ghost operation = { is_past_operation };

    fn is_operation(&self) -> bool {
        !matches!(*self, PtOp::True | PtOp::Load(_))
    }
}
