//! Faults of a row.

use std::error::Error;
use std::fmt;

/// The cause of a row that a monitor doesn't take.
#[derive(Clone, Copy, PartialEq, Eq, Debug)]
pub enum RowFault {
    /// Reports of the last row haven't been returned yet.
    ReportsLeft,
    /// The numbers aren't a row of the program from this column on, counted from 0. It is the first
    /// column without a number if there are too few numbers, the first column past the width if
    /// there are too many, and else the first column that can't hold its number.
    NotARow(u32),
    /// The monitor has taken `MAX_MISSION` rows.
    TooManyRows,
}

impl fmt::Display for RowFault {
    ghost use Rattle.std.specs.Prelude.{Some};
    ghost use Rattle.r2u2_monitor.specs.RowFaults.{row_fault_text};

    ghost output = { λ fault. Some (row_fault_text fault) };

    fn fmt<W: fmt::Write>(&self, f: &mut fmt::Formatter<W>) -> fmt::Result {
        match *self {
            RowFault::ReportsLeft => write!(f, "reports are left"),
            RowFault::NotARow(column) => {
                let number = u64::from(column) + 1;
                write!(f, "not a number of the right kind in column {number}")
            }
            RowFault::TooManyRows => write!(f, "too many rows"),
        }
    }
}

impl Error for RowFault {}
