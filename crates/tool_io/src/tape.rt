//! The log of a host in memory, as data.

ghost use Rattle.std.specs.Prelude.{◌≡◌, ◌+◌, ◌<◌, ◌≤◌, [], ◌∷◌, ◌++◌, IfOk, IsTrue, length, vec_len, vec_capacity};
ghost use Rattle.tool_io.specs.Log.{given};
ghost use Rattle.tool_io.specs.Tape.{has_room, with_event, new_tape};
ghost use Rattle.tool_io.specs.TapeInside.{event_of};

use crate::host::Place;
use std::alloc::{AllocError, Global};
use std::marker::Model;

/// The kind of an event of a log.
#[derive(Clone, Copy, PartialEq, Eq)]
pub enum Deed {
    /// A name was attached.
    Attach,
    /// A name couldn't be attached.
    Miss,
    /// A read took bytes.
    Take,
    /// A write gave bytes.
    Give,
}

/// An event without its bytes, which follow the bytes of earlier events in the tape's buffer.
#[derive(Clone, Copy)]
pub struct Mark {
    pub deed: Deed,
    pub place: Place,
    pub len: usize,
}

/// A log with room for a number of events and bytes, all of it reserved by `make`.
#[derive(Drop)]
pub struct Tape {
    marks: Vec<Mark>,
    bytes: Vec<u8>,
    out: Vec<u8>,
    err: Vec<u8>,
    most_events: usize,
    most_bytes: usize,
}

impl Model for Tape {
    ghost use Rattle.tool_io.specs.Tape.{Taped};

    ghost Value = { Taped };

    ghost use Rattle.tool_io.specs.TapeInside.{view_of, IsTape};

    ghost view = { view_of };

    ghost invariant = { IsTape };
}

impl Tape {
    /// Creates an empty log with room for `events` events, and for `bytes` bytes in them, on `Out`
    /// and on `Err`.
    pub fn make(alloc: Global, events: usize, bytes: usize) -> Result<Tape, AllocError>
        ensures { IfOk result (λ tape. tape ≡ new_tape events bytes) }
    {
        let marks = Vec::with_capacity(alloc, events)?;
        let in_events = Vec::with_capacity(alloc, bytes)?;
        let on_out = Vec::with_capacity(alloc, bytes)?;
        let on_err = Vec::with_capacity(alloc, bytes)?;
        Ok(Tape {
            marks,
            bytes: in_events,
            out: on_out,
            err: on_err,
            most_events: events,
            most_bytes: bytes,
        })
    }

    /// Returns true if one more event with `count` bytes fits.
    pub fn has_room(&self, count: usize) -> bool
        ensures { result ≡ has_room self.now count }
    {
        self.marks.len() < self.most_events && count <= self.most_bytes - self.bytes.len()
    }

    /// Returns the bytes that `Out` was given.
    pub fn out(&self) -> &[u8]
        ensures { result.now ≡ given Place.Out self.now.events }
    {
        self.out.as_slice()
    }

    /// Returns the bytes that `Err` was given.
    pub fn err(&self) -> &[u8]
        ensures { result.now ≡ given Place.Err self.now.events }
    {
        self.err.as_slice()
    }

    /// Logs one more event. Does not allocate.
    pub fn tell(&mut self, deed: Deed, place: Place, piece: &[u8])
        requires { IsTrue (has_room self.old (length piece.now)) }
        ensures { self.new ≡ with_event self.old (event_of deed place piece.now) }
    {
        let len = piece.len();
        push_mark(&mut self.marks, Mark { deed, place, len });
        append(&mut self.bytes, piece);
        append(&mut self.out, given_by(deed, place, piece, Place::Out));
        append(&mut self.err, given_by(deed, place, piece, Place::Err));
    }
}

/// Returns the bytes that a deed at a place gives to the place `to`.
fn given_by(deed: Deed, place: Place, piece: &[u8], to: Place) -> &[u8]
    ensures { result.now ≡ given to (event_of deed place piece.now ∷ []) }
{
    if deed == Deed::Give && place == to {
        piece
    } else {
        &[]
    }
}

/// Adds a mark to marks that have room for it.
fn push_mark(marks: &mut Vec<Mark>, mark: Mark)
    requires { vec_len marks.old < vec_capacity marks.old }
    ensures items { marks.new.items ≡ marks.old.items ++ mark ∷ [] }
    ensures room { vec_capacity marks.old ≤ vec_capacity marks.new }
{
    marks.push(mark).unwrap();
}

/// Adds bytes to a vector that has room for them.
fn append(bytes: &mut Vec<u8>, piece: &[u8])
    requires { vec_len bytes.old + length piece.now ≤ vec_capacity bytes.old }
    ensures items { bytes.new.items ≡ bytes.old.items ++ piece.now }
    ensures room { vec_capacity bytes.old ≤ vec_capacity bytes.new }
{
    bytes.extend_from_slice(piece).unwrap();
}
