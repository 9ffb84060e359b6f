//! The reasons why an expression isn't unfolded.

ghost use Rattle.std.specs.Prelude.{◌≡◌, ◌+◌, IfOk, IfErr};
ghost use Rattle.c2po_types.specs.declared.unfold_fault.UnfoldFault.TheVariants.{Memory};

use std::alloc::{AllocError, AllocFailed};

/// The reason why an expression isn't unfolded.
#[derive(Clone, Copy)]
pub enum UnfoldFault {
    /// The weight is above the room that is left.
    Heavy,
    /// Out of memory.
    Memory,
}

impl<T: Drop> From<AllocFailed<T>> for UnfoldFault {
    ghost from_gives = { λ _ e. e ≡ Memory };

    fn from(_refused: AllocFailed<T>) -> UnfoldFault {
        UnfoldFault::Memory
    }
}

impl From<AllocError> for UnfoldFault {
    ghost from_gives = { λ _ e. e ≡ Memory };

    fn from(_refused: AllocError) -> UnfoldFault {
        UnfoldFault::Memory
    }
}

/// Returns the number of levels that are left within one more level. The stack ends long before the
/// levels do.
#[inline(always)]
pub(crate) fn deeper(levels: u32) -> Result<u32, UnfoldFault>
    ensures left { IfOk result (λ left. left + 1 ≡ levels) }
    ensures none { IfErr result (λ why. why ≡ Memory) }
{
    levels.checked_sub(1).ok_or(UnfoldFault::Memory)
}
