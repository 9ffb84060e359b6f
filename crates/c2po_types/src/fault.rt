//! Faults of a specification.

ghost use Rattle.std.specs.Prelude.{◌≡◌};
ghost use Rattle.c2po_types.specs.declared.fault.TypeFault.TheVariants.{Memory};

use std::alloc::{AllocError, AllocFailed};

/// The first fault of a specification, with its line, counted from 1.
#[derive(Clone, Copy)]
pub enum TypeFault {
    /// A name isn't visible.
    Unknown(u32),
    /// A name is declared twice.
    Twice(u32),
    /// A value has another kind than its place requires.
    Kind(u32),
    /// The number of arguments isn't the struct's number of fields.
    Count(u32),
    /// The struct has no such field.
    Field(u32),
    /// An interval or a number is out of bounds.
    Bounds(u32),
    /// The specification has too many signals.
    Signals(u32),
    /// The outputs or a definition weigh too much when unfolded.
    Wide(u32),
    /// A divisor isn't a number, or is 0.
    Divisor(u32),
    /// An integer may leave 64 bits.
    Range(u32),
    /// An output has an operator of the other tense than its section.
    Tense(u32),
    /// Out of memory.
    Memory,
}

impl<T: Drop> From<AllocFailed<T>> for TypeFault {
    ghost from_gives = { λ _ e. e ≡ Memory };

    fn from(_refused: AllocFailed<T>) -> TypeFault {
        TypeFault::Memory
    }
}

impl From<AllocError> for TypeFault {
    ghost from_gives = { λ _ e. e ≡ Memory };

    fn from(_refused: AllocError) -> TypeFault {
        TypeFault::Memory
    }
}
