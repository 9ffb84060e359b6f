//! A run that a script requests.

use crate::moments::Told;
use crate::outcome::{Outcome, Parts};
use tool_io::Place;

/// A run that a script requests, and its expected outcome.
#[derive(Drop)]
pub struct Asked {
    pub line: usize,
    pub words: String,
    pub lengths: Option<(usize, usize)>,
    pub failing: Option<(Place, u64)>,
    pub wanted: Outcome,
    /// The number of lines of the trace that are read before each expected line is out, if the
    /// script has it.
    pub told: Vec<Told>,
    pub meant: Parts,
}

impl Asked {
    /// Returns the name of the trace: the last word.
    pub fn trace(&self) -> &str {
        match self.words.as_str().rsplit_once(' ') {
            Some((_, name)) => name,
            None => "",
        }
    }
}
