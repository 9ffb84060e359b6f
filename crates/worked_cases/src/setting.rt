//! The setting of a run: the most bytes of a read, the length of its file, and a call that fails.

use std::fmt;
use tool_io::Place;

/// The setting of one of several runs of the same words.
#[derive(Clone, Copy)]
pub struct Setting {
    /// The most bytes of a read.
    pub block: usize,
    /// The length that the file was cut to.
    pub length: Option<usize>,
    /// The place and the number of the call that fails.
    pub failing: Option<(Place, u64)>,
}

fn name_of(place: Place) -> &'static str {
    match place {
        Place::Spec => "spec",
        Place::Header => "header",
        Place::Program => "program",
        Place::Trace => "trace",
        Place::Out => "out",
        Place::Err => "err",
    }
}

impl fmt::Display for Setting {
    fn fmt<W: fmt::Write>(&self, f: &mut fmt::Formatter<W>) -> fmt::Result {
        let block = self.block;
        write!(f, "reads of at most {block} bytes")?;
        if let Some(length) = self.length {
            write!(f, ", a file of {length} bytes")?;
        }
        if let Some((place, call)) = self.failing {
            let place = name_of(place);
            write!(f, ", call {call} at {place} fails")?;
        }
        Ok(())
    }
}
