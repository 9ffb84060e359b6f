//! Endings of a loop over a trace.

ghost use Rattle.std.specs.Prelude.{◌≡◌};
ghost use Rattle.r2u2_watch.specs.Endings.{watched_of, why_of};

use trace_feed::TraceWhy;

/// The ending of the loop over a trace.
#[derive(Drop)]
pub enum Watched {
    /// The trace was read to its end, and all lines are out.
    Done,
    /// The line of the trace with this number, from 1, has this fault.
    BadTrace(u64, TraceWhy),
    /// The trace goes on past the mission time.
    TooLong,
    /// A read of the trace failed.
    ReadFault,
    /// A write of a line failed.
    WriteFault,
}

/// A fault of a line after the header: a `TraceWhy` without a name, so that it stays in registers.
#[derive(Clone, Copy)]
pub(crate) enum LineFault {
    Width,
    NotWhole(u32),
    OutOfRange(u32),
    LongLine,
    Stamp,
    Order,
}

impl LineFault {
    /// Returns the fault as a fault of the trace.
    fn why(self) -> TraceWhy
        ensures { result ≡ why_of self }
    {
        match self {
            LineFault::Width => TraceWhy::Width,
            LineFault::NotWhole(column) => TraceWhy::NotWhole(column),
            LineFault::OutOfRange(column) => TraceWhy::OutOfRange(column),
            LineFault::LongLine => TraceWhy::LongLine,
            LineFault::Stamp => TraceWhy::Stamp,
            LineFault::Order => TraceWhy::Order,
        }
    }
}

/// The ending of the loop over a trace, within the loop.
#[derive(Clone, Copy)]
pub(crate) enum Ending {
    Done,
    BadLine(u64, LineFault),
    TooLong,
    ReadFault,
    WriteFault,
}

impl Ending {
    /// Returns the ending as the ending of the whole call.
    pub(crate) fn watched(self) -> Watched
        ensures { result ≡ watched_of self }
    {
        match self {
            Ending::Done => Watched::Done,
            Ending::BadLine(number, fault) => Watched::BadTrace(number, fault.why()),
            Ending::TooLong => Watched::TooLong,
            Ending::ReadFault => Watched::ReadFault,
            Ending::WriteFault => Watched::WriteFault,
        }
    }
}
