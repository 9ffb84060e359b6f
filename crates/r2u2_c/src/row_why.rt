//! The cause of a row that isn't taken, as C reads it.

ghost use Rattle.std.specs.Prelude.{◌≡◌};
ghost use Rattle.r2u2_c.specs.Exports.{row_cause};

use crate::codes::{NOT_A_ROW, REPORTS_LEFT, TOO_MANY_ROWS};
use r2u2_monitor::RowFault;

/// The cause of a row that isn't taken, as C reads it: the code that the call returns and, for
/// `NOT_A_ROW`, the column, counted from 0.
#[repr(C)]
#[derive(Clone, Copy)]
pub struct RowWhy {
    pub why: u32,
    /// The column, or 0 if the code isn't `NOT_A_ROW`.
    pub column: u32,
}

impl RowWhy {
    /// Returns the fault of a row as C reads it.
    pub(crate) fn of(fault: RowFault) -> RowWhy
        ensures { result ≡ row_cause fault }
    {
        match fault {
            RowFault::ReportsLeft => RowWhy {
                why: REPORTS_LEFT,
                column: 0,
            },
            RowFault::NotARow(column) => RowWhy {
                why: NOT_A_ROW,
                column,
            },
            RowFault::TooManyRows => RowWhy {
                why: TOO_MANY_ROWS,
                column: 0,
            },
        }
    }
}
