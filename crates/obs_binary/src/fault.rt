//! Faults of bytes that are no observer program.

ghost use Rattle.std.specs.Prelude.{◌≡◌};
ghost use Rattle.obs_binary.specs.declared.fault.ReadFault.TheVariants.{Memory};

use std::alloc::AllocError;

/// The first fault of bytes that are no observer program. Places count from 0 at the start of the
/// bytes.
#[derive(Clone, Copy)]
pub enum ReadFault {
    /// The bytes are fewer than a header, or fewer than the header says.
    Short,
    /// The first four bytes aren't the letters MLTL.
    Magic,
    /// The version is neither 1 nor 2.
    Version,
    /// The byte at this offset must be 0 and isn't, or names no engine or no kind.
    Reserved(u64),
    /// The byte at this offset isn't an opcode of its part.
    Opcode(u64),
    /// The bytes are more than the header says.
    Trailing,
    /// The name of this output isn't 1 to 64 letters, digits and `_` within the name bytes; the
    /// number of outputs if bytes are left over.
    NameBytes(u32),
    /// The name of this signal isn't 1 to 64 letters, digits and `_` within the name bytes; the
    /// number of signals if bytes are left over.
    SignalBytes(u32),
    /// Out of memory.
    Memory,
}

impl From<AllocError> for ReadFault {
    ghost from_gives = { λ _ fault. fault ≡ Memory };

    fn from(_error: AllocError) -> ReadFault {
        ReadFault::Memory
    }
}
