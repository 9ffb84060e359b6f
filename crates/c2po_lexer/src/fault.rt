//! Faults of a text that has no tokens.

use thiserror::Error;

/// The first fault of a text, with its line, counted from 1.
#[derive(Clone, Copy, Debug, Error)]
pub enum LexFault {
    /// A byte outside a comment begins no token.
    #[error("line {0}: a byte that begins no token")]
    Letter(u32),
    /// A word has more than 64 bytes.
    #[error("line {0}: a word of more than 64 bytes")]
    LongWord(u32),
    /// A number is above 9,223,372,036,854,775,807.
    #[error("line {0}: a number above 9223372036854775807")]
    Number(u32),
    /// Out of memory.
    #[error("out of memory")]
    Memory,
}
