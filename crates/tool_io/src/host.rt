//! The places of a program, the results of calls on them, and the contract of their hosts.

ghost use Rattle.std.specs.Prelude.{ℕ, Option, List, ◌<◌, length};
ghost use Rattle.tool_io.specs.declared.host.Place.{Place};
ghost use Rattle.tool_io.specs.Log.{Event};
ghost use Rattle.tool_io.specs.Host.{IsSource, IsSink, AttachCause, AttachLog, ReadRange, ReadCause, ReadLog, ReadLeft, WriteRange, WriteCause, WriteLog, LeftElsewhere, LeftAlone};

/// A source or a sink of bytes. `Out` and `Err` are written, the others are read.
#[derive(Clone, Copy, PartialEq, Eq)]
pub enum Place {
    /// A specification.
    Spec,
    /// The header of a trace.
    Header,
    /// A compiled program.
    Program,
    /// The rows of a trace.
    Trace,
    /// The output: verdict lines, or a compiled program.
    Out,
    /// Messages to the user.
    Err,
}

/// The result of an attach.
#[derive(Clone, Copy, PartialEq, Eq, Debug)]
pub enum Attached {
    /// The place is attached to the name.
    Ready,
    /// The attach failed; the place's count of faults rose by one.
    Failed,
}

/// The result of a read.
#[derive(Clone, Copy, PartialEq, Eq)]
pub enum Got {
    /// This many bytes were read to the start of the slice, at least one.
    Bytes(usize),
    /// Nothing is left.
    End,
    /// The read failed; the place's count of faults rose by one.
    Failed,
}

/// The result of a write.
#[derive(Clone, Copy, PartialEq, Eq)]
pub enum Put {
    /// This many bytes from the start of the piece went out.
    Wrote(usize),
    /// The write failed; the place's count of faults rose by one.
    Failed,
}

/// A host: the files and streams of a program.
///
/// `faults` counts the failed calls of each place; a count never falls, and stays at 2^64 - 1 once
/// it is there. `log`, if the host shows it, is the list of its events. `left`, if it is shown, is
/// all that a place has still to read. A call that fails raises the count of its place by one, and
/// only a failed attach may log an event, `Missed`; every other call leaves all counts, and logs
/// one event. So the calls of a place are its faults and its events other than `Missed` together.
/// `Out` and `Err` are the standard streams until they are attached elsewhere.
pub trait Host {
    ghost faults: { Self → Place → ℕ };

    ghost log: { Self → Option (List Event) };

    ghost left: { Self → Place → Option (List ℕ) };

    /// Attaches the place to the file of this name, or to whatever else the name means to the host.
    fn attach(&mut self, place: Place, name: &str) -> Attached
        ensures cause { AttachCause result (faults self.old) (faults self.new) place }
        ensures log { AttachLog result (log self.old) (log self.new) place name.now }
        ensures left { LeftElsewhere (left self.old) (left self.new) place };

    /// Reads bytes of the place to the start of the slice.
    fn read(&mut self, place: Place, into: &mut [u8]) -> Got
        requires source { IsSource place }
        requires room { 0 < length into.old }
        ensures range { ReadRange result into.new }
        ensures cause { ReadCause result (faults self.old) (faults self.new) place }
        ensures log { ReadLog result (log self.old) (log self.new) place into.new }
        ensures left { ReadLeft result (left self.old place) (left self.new place) into.new }
        ensures elsewhere { LeftElsewhere (left self.old) (left self.new) place };

    /// Writes a prefix of the piece to the place.
    fn write(&mut self, place: Place, piece: &[u8]) -> Put
        requires sink { IsSink place }
        requires room { 0 < length piece.now }
        ensures range { WriteRange result piece.now }
        ensures cause { WriteCause result (faults self.old) (faults self.new) place }
        ensures log { WriteLog result (log self.old) (log self.new) place piece.now }
        ensures left { LeftAlone (left self.old) (left self.new) };
}
