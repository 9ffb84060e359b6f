//! Counters, one for each place.

ghost use Rattle.std.specs.Prelude.{◌≡◌};
ghost use Rattle.tool_io.specs.Counts.{count_at, counted_up, no_counts};

use crate::host::Place;

/// A count of events for each place. A counter stays at 2^64 - 1 once it is there.
#[derive(Clone, Copy)]
pub struct Counts {
    pub spec: u64,
    pub header: u64,
    pub program: u64,
    pub trace: u64,
    pub out: u64,
    pub err: u64,
}

impl Counts {
    /// Creates counters at 0.
    pub fn new() -> Counts
        ensures { result ≡ no_counts }
    {
        Counts {
            spec: 0,
            header: 0,
            program: 0,
            trace: 0,
            out: 0,
            err: 0,
        }
    }

    /// Returns the counter of a place.
    pub fn at(&self, place: Place) -> u64
        ensures { result ≡ count_at self.now place }
    {
        match place {
            Place::Spec => self.spec,
            Place::Header => self.header,
            Place::Program => self.program,
            Place::Trace => self.trace,
            Place::Out => self.out,
            Place::Err => self.err,
        }
    }

    /// Adds one to the counter of a place.
    pub fn raise(&mut self, place: Place)
        ensures { self.new ≡ counted_up self.old place }
    {
        match place {
            Place::Spec => self.spec = self.spec.saturating_add(1),
            Place::Header => self.header = self.header.saturating_add(1),
            Place::Program => self.program = self.program.saturating_add(1),
            Place::Trace => self.trace = self.trace.saturating_add(1),
            Place::Out => self.out = self.out.saturating_add(1),
            Place::Err => self.err = self.err.saturating_add(1),
        }
    }
}
