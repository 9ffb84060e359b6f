//! Faults of programs that can't be shown.

ghost use Rattle.std.specs.Prelude.{◌≡◌};

use std::alloc::AllocError;

/// The reason why a program has no text.
#[derive(Clone, Copy)]
pub enum ShowFault {
    /// The text has more bytes than the limit.
    TooLong,
    /// The outputs weigh more, as trees, than the outputs of a specification may.
    Wide,
    Memory,
}

impl From<AllocError> for ShowFault {
    ghost use Rattle.obs_show.specs.declared.fault.ShowFault.TheVariants.{Memory};

    ghost from_gives = { λ _ fault. fault ≡ Memory };

    fn from(_refused: AllocError) -> ShowFault {
        ShowFault::Memory
    }
}
