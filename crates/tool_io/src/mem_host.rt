//! A host in memory, for tests: it shows its log and the bytes left, and fails listed calls.

ghost use Rattle.std.specs.Prelude.{◌≡◌, ◌≢◌, ◌≤◌, ◌<◌, ◌+◌, ℕ, List, [], ◌∷◌, ◌++◌, IfOk, OnOk, OnErr, Some, length, drop, not};
ghost use Rattle.tool_io.specs.Host.{IsSource, IsSink, AttachCause, AttachLog, ReadRange, ReadCause, ReadLog, ReadLeft, WriteRange, WriteCause, WriteLog, LeftElsewhere, LeftAlone};
ghost use Rattle.tool_io.specs.Log.{given};
ghost use Rattle.tool_io.specs.MemFiles.{file_of, IsUnread};
ghost use Rattle.tool_io.specs.MemHost.{new_host, faults_of, log_of, left_in, is_listed, is_missing, noted, failed, stands, at_most, attach_answer, after_attach, Reads, write_answer, after_write};

use crate::counts::Counts;
use crate::host::{Attached, Got, Host, Place, Put};
use crate::mem_files::MemFiles;
use crate::tape::{Deed, Tape};
use std::alloc::{AllocError, Global};
use std::marker::Model;

/// A call that is to fail: its place, and its number at that place, counted from 0.
#[derive(Clone, Copy)]
pub struct Listed {
    pub place: Place,
    pub call: u64,
}

/// A host in memory: files by name, a log, counts of calls and of faults for each place, and a list
/// of calls that are to fail.
///
/// A call fails exactly if it is listed, attaches a place that is read to a name without a file,
/// reads a place that isn't attached, or needs more events or bytes than there is room for. Each
/// such call is counted at its place. A failed attach logs `Missed` if it fits. No call of the
/// trait allocates.
#[derive(Drop)]
pub struct MemHost {
    store: MemFiles,
    tape: Tape,
    calls: Counts,
    faults: Counts,
    listed: Vec<Listed>,
    block: Option<usize>,
}

impl Model for MemHost {
    ghost use Rattle.tool_io.specs.MemHost.{Held};

    ghost Value = { Held };

    ghost use Rattle.std.specs.Prelude.{IfSome, ◌<◌};

    ghost view = { λ host. record {
      store = host.store;
      tape = host.tape;
      calls = host.calls;
      faults = host.faults;
      listed = host.listed.items;
      block = host.block;
    } };

    ghost invariant = { λ host. IfSome host.block (λ n. 0 < n) };
}

impl MemHost {
    /// Creates a host without files, with room for `events` events in its log, for `bytes` bytes in
    /// them, including names, and for as many bytes on `Out` and on `Err`. No call is listed and no
    /// read is limited.
    pub fn make(alloc: Global, events: usize, bytes: usize) -> Result<MemHost, AllocError>
        ensures { IfOk result (λ host. host ≡ new_host events bytes) }
    {
        let tape = Tape::make(alloc, events, bytes)?;
        Ok(MemHost {
            store: MemFiles::new(alloc),
            tape,
            calls: Counts::new(),
            faults: Counts::new(),
            listed: Vec::new(alloc),
            block: None,
        })
    }

    /// Stores these bytes as the file of this name, in place of an older file, which no place may
    /// be reading.
    pub fn put_file(&mut self, name: &str, bytes: &[u8]) -> Result<(), AllocError>
        requires { IsUnread self.old.store name.now }
        ensures holds { OnOk result (file_of self.new.store name.now ≡ Some bytes.now) }
        ensures other_files { (other : List ℕ) → other ≢ name.now →
            file_of self.new.store other ≡ file_of self.old.store other }
        ensures readings { self.new.store.readings ≡ self.old.store.readings }
        ensures rest { self.new ≡ record self.old { store = self.new.store } }
        ensures err { OnErr result (self.new ≡ self.old) }
    {
        self.store.put(name, bytes)
    }

    /// Makes the call with this number at this place, counted from 0, fail.
    pub fn fail(&mut self, place: Place, call: u64) -> Result<(), AllocError>
        ensures ok { OnOk result (self.new ≡ record self.old {
          listed = self.old.listed ++ record { place = place; call = call } ∷ [];
        }) }
        ensures err { OnErr result (self.new ≡ self.old) }
    {
        self.listed.push(Listed { place, call })?;
        Ok(())
    }

    /// Limits every read to this many bytes.
    pub fn set_block(&mut self, n: usize)
        requires { 1 ≤ n }
        ensures { self.new ≡ record self.old { block = Some n } }
    {
        self.block = Some(n);
    }

    /// Returns all bytes that `Out` was given, under any name.
    pub fn out(&self) -> &[u8]
        ensures { result.now ≡ given Place.Out self.now.tape.events }
    {
        self.tape.out()
    }

    /// Returns all bytes that `Err` was given, under any name.
    pub fn err(&self) -> &[u8]
        ensures { result.now ≡ given Place.Err self.now.tape.events }
    {
        self.tape.err()
    }

    /// Counts a call of a place. Returns true if it is listed.
    fn begin(&mut self, place: Place) -> bool
        ensures listed { result ≡ is_listed self.old place }
        ensures after { self.new ≡ noted self.old place }
    {
        let call = self.calls.at(place);
        self.calls.raise(place);
        self.listed
            .iter()
            .any(|entry| entry.place == place && entry.call == call)
    }

    /// Attaches a place to a name. Returns false if its file is missing.
    fn stand(&mut self, place: Place, name: &str) -> bool
        ensures found { result ≡ not (is_missing self.old place name.now) }
        ensures after { self.new ≡ stands self.old place name.now }
    {
        match place {
            Place::Out | Place::Err => true,
            Place::Spec | Place::Header | Place::Program | Place::Trace => {
                self.store.open(place, name)
            }
        }
    }

    /// Returns the most bytes that a read into a slice of this length returns.
    fn limit(&self, room: usize) -> usize
        requires { 0 < room }
        ensures value { result ≡ at_most self.now.block room }
        ensures some { 0 < result }
    {
        match self.block {
            Some(n) => room.min(n),
            None => room,
        }
    }

    /// Attaches a place as the host's `attach` does.
    fn attach_name(&mut self, place: Place, name: &str) -> Attached
        ensures answer { result ≡ attach_answer self.old place name.now }
        ensures after { self.new ≡ after_attach self.old place name.now }
    {
        let listed = self.begin(place);
        let has_room = self.tape.has_room(name.len());
        if listed || !has_room || !self.stand(place, name) {
            self.faults.raise(place);
            if has_room {
                self.tape.tell(Deed::Miss, place, name.as_bytes());
            }
            return Attached::Failed;
        }
        self.tape.tell(Deed::Attach, place, name.as_bytes());
        Attached::Ready
    }

    /// Reads as the host's `read` does, into a slice that isn't empty.
    fn read_piece(&mut self, place: Place, into: &mut [u8]) -> Got
        requires { 0 < length into.old }
        ensures reads { Reads result self.old self.new place into.old into.new }
        ensures some { 0 < at_most self.old.block (length into.old) }
    {
        let listed = self.begin(place);
        let most = self.limit(into.len());
        let Some(left) = self.store.left(place) else {
            self.faults.raise(place);
            return Got::Failed;
        };
        let piece = &left[..most.min(left.len())];
        if listed || !self.tape.has_room(piece.len()) {
            self.faults.raise(place);
            return Got::Failed;
        }
        fill_front(into, piece);
        let count = piece.len();
        self.tape.tell(Deed::Take, place, piece);
        self.store.skip(place, count);
        if count == 0 {
            Got::End
        } else {
            Got::Bytes(count)
        }
    }

    /// Writes as the host's `write` does.
    fn write_piece(&mut self, place: Place, piece: &[u8]) -> Put
        ensures answer { result ≡ write_answer self.old place piece.now }
        ensures after { self.new ≡ after_write self.old place piece.now }
    {
        let listed = self.begin(place);
        if listed || !self.tape.has_room(piece.len()) {
            self.faults.raise(place);
            return Put::Failed;
        }
        self.tape.tell(Deed::Give, place, piece);
        Put::Wrote(piece.len())
    }
}

/// Copies a piece to the start of a slice.
fn fill_front(into: &mut [u8], piece: &[u8])
    requires { length piece.now ≤ length into.old }
    ensures { into.new ≡ piece.now ++ drop (length piece.now) into.old }
{
    into[..piece.len()].copy_from_slice(piece);
}

impl Host for MemHost {
    ghost faults = { faults_of };

    ghost log = { log_of };

    ghost left = { left_in };

    fn attach(&mut self, place: Place, name: &str) -> Attached
        ensures answer { result ≡ attach_answer self.old place name.now }
        ensures after { self.new ≡ after_attach self.old place name.now }
        ensures cause { AttachCause result (faults_of self.old) (faults_of self.new) place }
        ensures log { AttachLog result (log_of self.old) (log_of self.new) place name.now }
        ensures left { LeftElsewhere (left_in self.old) (left_in self.new) place }
    {
        self.attach_name(place, name)
    }

    fn read(&mut self, place: Place, into: &mut [u8]) -> Got
        requires source { IsSource place }
        requires room { 0 < length into.old }
        ensures reads { Reads result self.old self.new place into.old into.new }
        ensures range { ReadRange result into.new }
        ensures cause { ReadCause result (faults_of self.old) (faults_of self.new) place }
        ensures log { ReadLog result (log_of self.old) (log_of self.new) place into.new }
        ensures left { ReadLeft result (left_in self.old place) (left_in self.new place) into.new }
        ensures elsewhere { LeftElsewhere (left_in self.old) (left_in self.new) place }
    {
        self.read_piece(place, into)
    }

    fn write(&mut self, place: Place, piece: &[u8]) -> Put
        requires sink { IsSink place }
        requires room { 0 < length piece.now }
        ensures answer { result ≡ write_answer self.old place piece.now }
        ensures after { self.new ≡ after_write self.old place piece.now }
        ensures range { WriteRange result piece.now }
        ensures cause { WriteCause result (faults_of self.old) (faults_of self.new) place }
        ensures log { WriteLog result (log_of self.old) (log_of self.new) place piece.now }
        ensures left { LeftAlone (left_in self.old) (left_in self.new) }
    {
        self.write_piece(place, piece)
    }
}
