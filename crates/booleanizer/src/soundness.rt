//! The law that sound instructions can be computed in 64 bits on every row that fits them.

ghost use Rattle.std.specs.Prelude.{[], All, List, length};
ghost use Rattle.mltl_base.specs.declared.operators.BzOp.{BzOp};
ghost use Rattle.mltl_base.specs.Atoms.{Row};
ghost use Rattle.mltl_base.specs.Programs.{FitsRow};
ghost use Rattle.booleanizer.specs.Evaluation.{AllCompute};
ghost use Rattle.obs_verify.specs.Soundness.{SoundOps};

/// States that if each instruction is sound, its number on a row that fits has 64 bits, and no
/// divisor is 0. It is a law, and does nothing.
pub fn sound_instructions_compute()
    ensures { (row : Row) (ops : List BzOp) →
        All (FitsRow row) ops → SoundOps (length row) [] ops → AllCompute row [] ops }
{}
