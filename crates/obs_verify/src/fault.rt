//! Faults of programs that aren't well-formed.

ghost use Rattle.std.specs.Prelude.{◌≡◌, length};
ghost use Rattle.obs_verify.specs.FaultTexts.{part_name};

use mltl_base::Part;
use std::alloc::AllocError;
use std::error::Error;
use std::fmt;

/// The first fault of a program, in the order of the rules. Numbers count from 0.
#[derive(Clone, Copy)]
pub enum VerifyFault {
    /// The width is above its limit.
    Width,
    /// A stored signal has no column of a row, or has the column or the name of an earlier signal.
    Signal(u32),
    /// An instruction reads a column or an instruction that it can't read.
    Operand(Part, u32),
    /// An interval runs downward or past its limit.
    Interval(Part, u32),
    /// The divisor of an instruction isn't a single number other than 0.
    Divisor(u32),
    /// An instruction may have a value of more than 64 bits.
    Range(u32),
    /// The worst-case delay of a future-time instruction is above its limit.
    TooLate(u32),
    /// An output reports an instruction that doesn't exist.
    Output(u32),
    /// A stored size isn't the size that the instruction needs.
    Size(Part, u32),
    /// The instructions need too many slots and boxes.
    TooManySlots,
    Memory,
}

impl fmt::Display for VerifyFault {
    ghost use Rattle.std.specs.Prelude.{Some};
    ghost use Rattle.obs_verify.specs.FaultTexts.{verify_fault_text};

    ghost output = { λ fault. Some (verify_fault_text fault) };

    fn fmt<W: fmt::Write>(&self, f: &mut fmt::Formatter<W>) -> fmt::Result {
        match *self {
            VerifyFault::Width => write!(f, "width"),
            VerifyFault::Signal(k) => write!(f, "signal {k}"),
            VerifyFault::Operand(part, i) => {
                let part = name_of_part(part);
                write!(f, "operand {part} {i}")
            }
            VerifyFault::Interval(part, i) => {
                let part = name_of_part(part);
                write!(f, "interval {part} {i}")
            }
            VerifyFault::Divisor(i) => write!(f, "divisor {i}"),
            VerifyFault::Range(i) => write!(f, "range {i}"),
            VerifyFault::TooLate(i) => write!(f, "toolate {i}"),
            VerifyFault::Output(k) => write!(f, "output {k}"),
            VerifyFault::Size(part, i) => {
                let part = name_of_part(part);
                write!(f, "size {part} {i}")
            }
            VerifyFault::TooManySlots => write!(f, "toomanyslots"),
            VerifyFault::Memory => write!(f, "out of memory"),
        }
    }
}

impl fmt::Debug for VerifyFault {
    fn fmt<W: fmt::Write>(&self, f: &mut fmt::Formatter<W>) -> fmt::Result {
        fmt::Display::fmt(self, f)
    }
}

impl Error for VerifyFault {}

/// Returns the name of a part of a program, as faults print it.
pub fn name_of_part(part: Part) -> &'static str
    ensures text { result.now ≡ part_name part }
    ensures short { length result.now ≡ 2 }
{
    match part {
        Part::Bz => "bz",
        Part::Ft => "ft",
        Part::Pt => "pt",
    }
}

impl From<AllocError> for VerifyFault {
    ghost use Rattle.obs_verify.specs.declared.fault.VerifyFault.TheVariants.{Memory};

    ghost from_gives = { λ _ fault. fault ≡ Memory };

    fn from(_refused: AllocError) -> VerifyFault {
        VerifyFault::Memory
    }
}

/// The reason why a program of version 1 has no version 2.
#[derive(Clone, Copy)]
pub enum UpgradeFault {
    /// This is the first instruction that reads a column as another kind than an earlier one does.
    Both(u32),
    Memory,
}

impl From<AllocError> for UpgradeFault {
    ghost use Rattle.obs_verify.specs.declared.fault.UpgradeFault.TheVariants.{Memory};

    ghost from_gives = { λ _ fault. fault ≡ Memory };

    fn from(_refused: AllocError) -> UpgradeFault {
        UpgradeFault::Memory
    }
}
