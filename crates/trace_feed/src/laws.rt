//! Laws of rows: each is the contract of an empty function.

ghost use Rattle.std.specs.Prelude.{◌≡◌, ℕ, List};
ghost use Rattle.mltl_base.specs.declared.program.Program.{Program as Observer};
ghost use Rattle.mltl_base.specs.Atoms.{Row};
ghost use Rattle.mltl_base.specs.Programs.{IsFit};
ghost use Rattle.trace_feed.specs.Rows.{line_meaning, row};

/// The row of a line fits the program: it has a value of its kind in each column that an
/// instruction reads.
pub fn rows_are_fit()
    ensures { (program : Observer) (line : List ℕ) (values : Row) →
        line_meaning program line ≡ row values → IsFit program values }
{}
