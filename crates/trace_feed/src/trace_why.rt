//! Faults of a line of a trace.

use mltl_base::Name;

/// A fault of a line of a trace. Columns count from 0.
#[derive(Drop)]
pub enum TraceWhy {
    /// The line has too few fields.
    Width,
    /// The field in this column isn't an integer.
    NotWhole(u32),
    /// The field in this column is an integer outside its range.
    OutOfRange(u32),
    /// The first 65,536 bytes hold no newline.
    LongLine,
    /// No column of the header has the name of this signal.
    Missing(Name),
    /// More than one column of the header has the name of this signal.
    Twice(Name),
    /// The line doesn't begin with a time stamp.
    Stamp,
    /// The time isn't above the time before it.
    Order,
}
