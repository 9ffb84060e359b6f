//! Faults of a specification that has no program.

ghost use Rattle.std.specs.Prelude.{◌≡◌};

use core_graph::GraphFault;
use std::alloc::AllocError;

/// The first limit that a specification exceeds: instructions, then delays, then slots.
#[derive(Clone, Copy, PartialEq, Eq, Debug)]
pub enum BuildFault {
    /// A list of instructions would be longer than the limit.
    TooManyNodes,
    /// A future-time instruction would have a worst-case delay above the limit.
    TooLate,
    /// The queues and boxes together would have more slots than the limit.
    TooManySlots,
    /// Out of memory.
    Memory,
}

impl From<AllocError> for BuildFault {
    ghost use Rattle.c2po_compile.specs.declared.build_fault.BuildFault.TheVariants.{Memory};

    ghost from_gives = { λ _ fault. fault ≡ Memory };

    fn from(_refused: AllocError) -> BuildFault {
        BuildFault::Memory
    }
}

impl From<GraphFault> for BuildFault {
    ghost use Rattle.c2po_compile.specs.BuildLimits.{graph_limit};

    ghost from_gives = { λ fault limit. limit ≡ graph_limit fault };

    fn from(fault: GraphFault) -> BuildFault {
        match fault {
            GraphFault::TooManyNodes => BuildFault::TooManyNodes,
            GraphFault::Memory => BuildFault::Memory,
        }
    }
}
