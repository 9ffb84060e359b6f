//! The host over files and the standard streams: the edge at which the system is trusted.

ghost use Rattle.std.specs.Prelude.{◌≡◌, ◌<◌, length, IfOk, ◌≤◌, None, IsErr, is_some};
ghost use Rattle.std.specs.Io.{ReadsAtMost, WritesAtMost};
ghost use Rattle.tool_io.specs.Host.{IsSource, IsSink, AttachCause, AttachLog, ReadRange, ReadCause, ReadLog, ReadLeft, WriteRange, WriteCause, WriteLog, LeftElsewhere, LeftAlone};
ghost use Rattle.tool_io.specs.RealHost.{new_edge, faults_of, no_log, none_left, after_attach, Reads, after_write};

use crate::counts::Counts;
use crate::host::{Attached, Got, Host, Place, Put};
use std::fs::File;
use std::io::{Read, Write};
use std::marker::Model;
use std::{fs, io};

/// The stream that a place is attached to.
#[derive(Drop)]
enum Stream {
    /// The place's standard stream.
    Standard,
    /// A file.
    At(File),
    /// The end of a file, which is closed.
    Ended,
}

/// A host over the system's files and standard streams. The name `-` is the place's standard
/// stream.
///
/// A file that was read to its end is closed, so that its descriptor isn't taken for the standard
/// input of a program that was started without one.
///
/// It counts a fault at each error of the system, at a write that takes nothing, and at a read of a
/// place that isn't attached. It shows neither a log nor the bytes left.
#[derive(Drop)]
pub struct RealHost {
    rt: HostRuntime,
    faults: Counts,
    spec: Option<Stream>,
    header: Option<Stream>,
    program: Option<Stream>,
    trace: Option<Stream>,
    out: Stream,
    err: Stream,
}

impl Model for RealHost {
    ghost use Rattle.std.specs.Option.{is_some};
    ghost use Rattle.tool_io.specs.RealHost.{Edge};

    ghost Value = { Edge };

    ghost view = { λ host. record {
      faults = host.faults;
      spec = is_some host.spec;
      header = is_some host.header;
      program = is_some host.program;
      trace = is_some host.trace;
    } };
}

impl RealHost {
    /// Creates a host without attached places: `Out` and `Err` are the standard output and error.
    pub fn new(rt: HostRuntime) -> RealHost
        ensures { result ≡ new_edge }
    {
        RealHost {
            rt,
            faults: Counts::new(),
            spec: None,
            header: None,
            program: None,
            trace: None,
            out: Stream::Standard,
            err: Stream::Standard,
        }
    }

    fn open(&self, place: Place, name: &str) -> io::Result<Stream> {
        if name == "-" {
            return Ok(Stream::Standard);
        }
        let file = match place {
            Place::Out | Place::Err => fs::create(&self.rt, name)?,
            Place::Spec | Place::Header | Place::Program | Place::Trace => {
                fs::open(&self.rt, name)?
            }
        };
        Ok(Stream::At(file))
    }
}

/// Reads once from a stream.
fn read_from(stream: &Stream, rt: HostRuntime, into: &mut [u8]) -> io::Result<usize>
    ensures { ReadsAtMost result into.new }
{
    match stream {
        Stream::Standard => rt.stdin().read(into),
        Stream::At(file) => {
            let mut file: &File = file;
            file.read(into)
        }
        Stream::Ended => Ok(0),
    }
}

/// Reads once from a place, and closes its file if the read meets the end.
fn read_place(place: &mut Option<Stream>, rt: HostRuntime, into: &mut [u8]) -> io::Result<usize>
    ensures reads { ReadsAtMost result into.new }
    ensures attached { is_some place.new ≡ is_some place.old }
    ensures unattached { place.old ≡ None → IsErr result }
{
    let Some(stream) = place else {
        return Err(io::Error::from(io::ErrorKind::NotFound));
    };
    let count = read_from(stream, rt, into)?;
    if let (0, Stream::At(_)) = (count, &stream) {
        *stream = Stream::Ended;
    }
    Ok(count)
}

/// Writes once to a stream; the standard stream of `Err` is the standard error.
fn write_to(stream: &Stream, rt: HostRuntime, place: Place, piece: &[u8]) -> io::Result<usize>
    ensures { WritesAtMost result piece.now }
{
    match (stream, place) {
        (Stream::At(file), _) => send(file, piece),
        (Stream::Standard, Place::Err) => send(rt.stderr(), piece),
        (Stream::Standard, _) => send(rt.stdout(), piece),
        (Stream::Ended, _) => Ok(0),
    }
}

/// Writes once, and flushes.
fn send<W: Write + Drop>(mut to: W, piece: &[u8]) -> io::Result<usize>
    ensures { WritesAtMost result piece.now }
{
    let count = to.write(piece)?;
    to.flush()?;
    Ok(count)
}

impl Host for RealHost {
    ghost faults = { faults_of };

    ghost log = { no_log };

    ghost left = { none_left };

    fn attach(&mut self, place: Place, name: &str) -> Attached
        ensures after { self.new ≡ after_attach self.old place result }
        ensures cause { AttachCause result (faults_of self.old) (faults_of self.new) place }
        ensures log { AttachLog result (no_log self.old) (no_log self.new) place name.now }
        ensures left { LeftElsewhere (none_left self.old) (none_left self.new) place }
    {
        let Ok(stream) = self.open(place, name) else {
            self.faults.raise(place);
            return Attached::Failed;
        };
        match place {
            Place::Spec => self.spec = Some(stream),
            Place::Header => self.header = Some(stream),
            Place::Program => self.program = Some(stream),
            Place::Trace => self.trace = Some(stream),
            Place::Out => self.out = stream,
            Place::Err => self.err = stream,
        }
        Attached::Ready
    }

    fn read(&mut self, place: Place, into: &mut [u8]) -> Got
        requires source { IsSource place }
        requires room { 0 < length into.old }
        ensures reads { Reads result self.old self.new place }
        ensures range { ReadRange result into.new }
        ensures cause { ReadCause result (faults_of self.old) (faults_of self.new) place }
        ensures log { ReadLog result (no_log self.old) (no_log self.new) place into.new }
        ensures left { ReadLeft result
            (none_left self.old place) (none_left self.new place) into.new }
        ensures elsewhere { LeftElsewhere (none_left self.old) (none_left self.new) place }
    {
        let answer = match place {
            Place::Spec => read_place(&mut self.spec, self.rt, into),
            Place::Header => read_place(&mut self.header, self.rt, into),
            Place::Program => read_place(&mut self.program, self.rt, into),
            _ => read_place(&mut self.trace, self.rt, into),
        };
        match answer {
            Ok(0) => Got::End,
            Ok(count) => Got::Bytes(count),
            Err(_) => {
                self.faults.raise(place);
                Got::Failed
            }
        }
    }

    fn write(&mut self, place: Place, piece: &[u8]) -> Put
        requires sink { IsSink place }
        requires room { 0 < length piece.now }
        ensures after { self.new ≡ after_write self.old place result }
        ensures range { WriteRange result piece.now }
        ensures cause { WriteCause result (faults_of self.old) (faults_of self.new) place }
        ensures log { WriteLog result (no_log self.old) (no_log self.new) place piece.now }
        ensures left { LeftAlone (none_left self.old) (none_left self.new) }
    {
        let stream = if place == Place::Err {
            &self.err
        } else {
            &self.out
        };
        let answer = write_to(stream, self.rt, place, piece);
        match answer {
            Ok(count) if count > 0 => Put::Wrote(count),
            _ => {
                self.faults.raise(place);
                Put::Failed
            }
        }
    }
}
