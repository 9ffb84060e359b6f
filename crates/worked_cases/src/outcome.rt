//! The outcome of a run, and the differences of two outcomes.

ghost use Rattle.std.specs.Prelude.{◌≢◌, ◌↔◌, IsTrue};

use std::alloc::Global;

/// The outcome of a run: its exit status, and the bytes on its output and on its error output.
#[derive(Drop)]
pub struct Outcome {
    pub status: u8,
    pub output: Vec<u8>,
    pub errors: Vec<u8>,
}

impl Outcome {
    /// Makes the outcome of a run that ends with success and writes nothing.
    pub fn new(alloc: Global) -> Outcome {
        Outcome {
            status: 0,
            output: Vec::new(alloc),
            errors: Vec::new(alloc),
        }
    }
}

/// Returns the first byte at which two texts differ, and its line, both counted from 1.
pub fn parting(came: &[u8], wanted: &[u8]) -> (usize, usize) {
    let mut line = 1usize;
    for (place, (one, other)) in came.iter().zip(wanted.iter()).enumerate() {
        if one != other {
            return (place.saturating_add(1), line);
        }
        line = line.saturating_add(usize::from(*one == b'\n'));
    }
    (came.len().min(wanted.len()).saturating_add(1), line)
}

/// Parts of an outcome, such as the parts that differ.
#[derive(Clone, Copy, PartialEq, Eq)]
pub struct Parts {
    pub status: bool,
    pub output: bool,
    pub errors: bool,
}

impl Parts {
    pub fn none() -> Parts {
        Parts {
            status: false,
            output: false,
            errors: false,
        }
    }

    /// Returns the parts in which an outcome differs from the expected one.
    pub fn of(found: &Outcome, wanted: &Outcome) -> Parts
        ensures status { IsTrue result.status ↔ (found.now.status ≢ wanted.now.status) }
        ensures output { IsTrue result.output ↔ (found.now.output.items ≢ wanted.now.output.items) }
        ensures errors { IsTrue result.errors ↔ (found.now.errors.items ≢ wanted.now.errors.items) }
    {
        Parts {
            status: found.status != wanted.status,
            output: found.output.as_slice() != wanted.output.as_slice(),
            errors: found.errors.as_slice() != wanted.errors.as_slice(),
        }
    }

    /// Returns the part of this name alone.
    pub fn named(name: &str) -> Option<Parts> {
        let status = name == "status";
        let output = name == "output";
        let errors = name == "errors";
        (status || output || errors).then_some(Parts {
            status,
            output,
            errors,
        })
    }
}
