//! The state of the check of a specification.

ghost use Rattle.std.specs.Prelude.{◌≡◌};
ghost use Rattle.c2po_types.specs.Environment.{no_names};
ghost use Rattle.c2po_types.specs.Holding.{StandsFor};
ghost use Rattle.c2po_types.specs.Stepwise.{start};

use crate::{Declarations, NameTable, Unfolding};
use std::alloc::Global;

/// The state of the check after some items.
#[derive(Drop)]
pub struct Progress {
    pub declared: Declarations,
    /// The labels of outputs, which have a name space of their own.
    pub labels: NameTable<()>,
    /// The meanings of names with the summaries of their values.
    pub values: Unfolding,
    /// The weight of the outputs together.
    pub total: u32,
}

impl Progress {
    ghost use Rattle.c2po_types.specs.Reaching.{state_of};

    /// Makes the state before the first item. Doesn't allocate.
    pub fn new(alloc: Global) -> Self
        ensures start { state_of result no_names ≡ start }
        ensures stands { StandsFor result.values no_names }
    {
        Progress {
            declared: Declarations::new(alloc),
            labels: NameTable::new(alloc),
            values: Unfolding::new(alloc),
            total: 0,
        }
    }
}
