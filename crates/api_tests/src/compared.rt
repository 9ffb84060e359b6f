//! A host in memory that keeps the bytes that are read of a program, so that they can be compared.

ghost use Rattle.std.specs.Prelude.{◌≡◌, ◌≢◌, [], ◌∷◌, ◌++◌, IsTrue, IsFalse, OnOk, Some};
ghost use Rattle.tool_io.specs.declared.host.Place.TheVariants.{Program as OfProgram};
ghost use Rattle.tool_io.specs.Log.{Took, taken};
ghost use Rattle.tool_io.specs.MemFiles.{file_of, no_files};
ghost use Rattle.tool_io.specs.MemHost.{faults_of, log_of, left_in};

use std::alloc::{AllocError, Global};
use std::marker::Model;
use tool_io::{Attached, Got, Host, MemHost, Place, Put};

/// A host in memory, with the bytes that were read of the program.
#[derive(Drop)]
pub struct Compared {
    host: MemHost,
    read: Vec<u8>,
    /// True if no byte was left out for want of memory.
    whole: bool,
}

impl Model for Compared {
    ghost use Rattle.api_tests.specs.Keeping.{Keeping, KeepsProgram};

    ghost Value = { Keeping };

    ghost view = { λ compared. record {
      host = compared.host;
      read = compared.read.items;
      whole = compared.whole;
    } };

    ghost invariant = { λ compared.
        KeepsProgram compared.host.tape.events compared.read.items compared.whole };
}

/// Keeps the bytes of a read at this place, if it is the program's. Returns true if there was
/// memory for them.
#[tactic(auto, using(crate::proofs::Kept::no_more))]
fn keep(read: &mut Vec<u8>, place: Place, piece: &[u8]) -> bool
    ensures { IsTrue result → read.new.items
        ≡ read.old.items ++ taken OfProgram (Took place piece.now ∷ []) }
{
    match place {
        Place::Program => read.extend_from_slice(piece).is_ok(),
        Place::Spec => true,
        Place::Header => true,
        Place::Trace => true,
        Place::Out => true,
        Place::Err => true,
    }
}

fn both(first: bool, second: bool) -> bool
    ensures first { IsTrue result → IsTrue first }
    ensures second { IsTrue result → IsTrue second }
{
    first && second
}

impl Compared {
    /// Makes a host that has read nothing yet.
    pub fn make(alloc: Global, host: MemHost) -> Compared
        requires new { host.tape.events ≡ [] }
        ensures { result.host ≡ host }
    {
        Compared {
            host,
            read: Vec::new(alloc),
            whole: true,
        }
    }

    /// Puts a program into a file of this name.
    pub fn put_program(&mut self, name: &str, program: &[u8]) -> Result<(), AllocError>
        requires unread { self.old.host.store.readings ≡ no_files.readings }
        ensures holds { OnOk result (file_of self.new.host.store name.now ≡ Some program.now) }
        ensures rest { self.new.host ≡ record self.old.host { store = self.new.host.store } }
    {
        self.host.put_file(name, program)
    }

    /// Returns true if all bytes that were read of the program are known, and are these bytes.
    pub fn has_read(&self, program: &[u8]) -> bool
        ensures whole { IsTrue result → taken OfProgram self.now.host.tape.events ≡ program.now }
        ensures other { IsFalse result → IsTrue self.now.whole → self.now.read ≢ program.now }
    {
        if !self.whole {
            return false;
        }
        self.read.as_slice() == program
    }

    /// Returns the host in memory.
    pub fn host(&self) -> &MemHost
        ensures { result.now ≡ self.now.host }
    {
        &self.host
    }
}

impl Host for Compared {
    ghost faults = { λ compared. faults_of compared.host };

    ghost log = { λ compared. log_of compared.host };

    ghost left = { λ compared. left_in compared.host };

    fn attach(&mut self, place: Place, name: &str) -> Attached {
        self.host.attach(place, name)
    }

    fn read(&mut self, place: Place, into: &mut [u8]) -> Got {
        let got = self.host.read(place, into);
        match got {
            Got::Bytes(n) => {
                let kept = keep(&mut self.read, place, &into[..n]);
                self.whole = both(self.whole, kept);
            }
            Got::End => {}
            Got::Failed => {}
        }
        got
    }

    fn write(&mut self, place: Place, piece: &[u8]) -> Put {
        self.host.write(place, piece)
    }
}
