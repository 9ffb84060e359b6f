//! Faults of the reading of expressions.

ghost use Rattle.c2po_parse.specs.declared.tree_fault.TreeFault.TheVariants.{Memory};
ghost use Rattle.std.specs.Prelude.{◌≡◌};

use std::alloc::{AllocError, AllocFailed};
use thiserror::Error;

/// The reason why an expression isn't read.
#[derive(Clone, Copy, Debug, Error)]
pub enum TreeFault {
    /// The grammar has no tree for the tokens.
    #[error("no expression")]
    NoTree,
    /// Out of memory.
    #[error("out of memory")]
    Memory,
}

impl From<AllocError> for TreeFault {
    ghost from_gives = { λ _ e. e ≡ Memory };

    fn from(_refused: AllocError) -> TreeFault {
        TreeFault::Memory
    }
}

impl<T: Drop> From<AllocFailed<T>> for TreeFault {
    ghost from_gives = { λ _ e. e ≡ Memory };

    fn from(_refused: AllocFailed<T>) -> TreeFault {
        TreeFault::Memory
    }
}
