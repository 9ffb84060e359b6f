//! Faults of a specification that has no tree.

ghost use Rattle.std.specs.Prelude.{◌≡◌};
ghost use Rattle.c2po_parse.specs.declared.fault.ParseFault.TheVariants.{Memory};

use std::alloc::AllocFailed;
use thiserror::Error;

/// The fault of the first faulty item, with its line, counted from 1.
#[derive(Clone, Copy, Debug, Error)]
pub enum ParseFault {
    /// An item has more than 1,024 tokens.
    #[error("line {0}: an item of more than 1024 tokens")]
    TooManyTokens(u32),
    /// The grammar gives an item no tree.
    #[error("line {0}: an item that the grammar doesn't know")]
    Grammar(u32),
    /// Out of memory.
    #[error("out of memory")]
    Memory,
}

impl<T: Drop> From<AllocFailed<T>> for ParseFault {
    ghost from_gives = { λ _ e. e ≡ Memory };

    fn from(_refused: AllocFailed<T>) -> ParseFault {
        ParseFault::Memory
    }
}
