//! The row that was taken last, for contracts alone.

ghost use Rattle.std.specs.Prelude.{◌≡◌, List, ℤ};
ghost use Rattle.std.specs.Borrow.{ftrue};

use std::marker::Model;

/// The row that a monitor has taken last. Contracts see its numbers; it has no bytes, and nothing
/// is copied.
#[derive(Drop)]
pub struct LastRow {
    pub ghost numbers: { List ℤ },
}

impl Model for LastRow {
    ghost also_owns = { λ _. ftrue };
}

// A last row owns nothing.
unsafe impl Send for LastRow {}

impl LastRow {
    /// Makes a last row of these numbers, for contracts.
    #[inline(always)]
    pub fn of(_row: &[i64]) -> LastRow
        ensures { result.numbers ≡ _row.now }
    {
        LastRow {}
    }
}
