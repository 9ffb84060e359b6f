//! Faults of program files.

ghost use Rattle.std.specs.Prelude.{◌≡◌};
ghost use Rattle.obs_binary.specs.Faults.{of_reading, of_verifying};

use crate::ReadFault;
use mltl_base::Part;
use obs_verify::VerifyFault;
use std::error::Error;
use std::fmt;

/// The fault of a program: up to `SignalBytes` in its bytes, else in its instructions. Numbers
/// count from 0.
#[derive(Clone, Copy)]
pub enum ProgramFault {
    /// The bytes are fewer than a header, or fewer than the header says.
    Short,
    /// The first four bytes aren't the letters MLTL.
    Magic,
    /// The version is neither 1 nor 2.
    Version,
    /// The byte at this offset must be 0 and isn't, or names no engine or no kind.
    Reserved(u64),
    /// The byte at this offset isn't an opcode of its part.
    Opcode(u64),
    /// The bytes are more than the header says.
    Trailing,
    /// This output has no name of 1 to 64 letters, digits and `_`; the number of outputs if bytes
    /// are left over.
    NameBytes(u32),
    /// This signal has no name of 1 to 64 letters, digits and `_`; the number of signals if bytes
    /// are left over.
    SignalBytes(u32),
    /// The width is above its limit.
    Width,
    /// A stored signal has no column of a row, or has the column or the name of an earlier signal.
    Signal(u32),
    /// An instruction reads a column or an instruction that it can't read.
    Operand(Part, u32),
    /// An interval runs downward or past its limit.
    Interval(Part, u32),
    /// The divisor of an instruction isn't a single number other than 0.
    Divisor(u32),
    /// An instruction may have a value of more than 64 bits.
    Range(u32),
    /// The worst-case delay of a future-time instruction is above its limit.
    TooLate(u32),
    /// An output reports an instruction that doesn't exist.
    Output(u32),
    /// A stored size isn't the size that the instruction needs.
    Size(Part, u32),
    /// The instructions need too many slots and boxes.
    TooManySlots,
}

/// The reason why bytes give no checked program.
#[derive(Clone, Copy)]
pub enum FileFault {
    /// The program has this fault.
    Program(ProgramFault),
    /// Out of memory.
    Memory,
}

impl fmt::Display for FileFault {
    ghost use Rattle.std.specs.Prelude.{Some};
    ghost use Rattle.obs_binary.specs.Texts.{file_fault_text};

    ghost output = { λ fault. Some (file_fault_text fault) };

    fn fmt<W: fmt::Write>(&self, f: &mut fmt::Formatter<W>) -> fmt::Result {
        match *self {
            FileFault::Program(why) => write!(f, "program: {why}"),
            FileFault::Memory => write!(f, "out of memory"),
        }
    }
}

impl fmt::Debug for FileFault {
    fn fmt<W: fmt::Write>(&self, f: &mut fmt::Formatter<W>) -> fmt::Result {
        fmt::Display::fmt(self, f)
    }
}

impl Error for FileFault {}

impl From<ReadFault> for FileFault {
    ghost from_gives = { λ fault told. told ≡ of_reading fault };

    fn from(fault: ReadFault) -> FileFault {
        let fault = match fault {
            ReadFault::Short => ProgramFault::Short,
            ReadFault::Magic => ProgramFault::Magic,
            ReadFault::Version => ProgramFault::Version,
            ReadFault::Reserved(offset) => ProgramFault::Reserved(offset),
            ReadFault::Opcode(offset) => ProgramFault::Opcode(offset),
            ReadFault::Trailing => ProgramFault::Trailing,
            ReadFault::NameBytes(k) => ProgramFault::NameBytes(k),
            ReadFault::SignalBytes(k) => ProgramFault::SignalBytes(k),
            ReadFault::Memory => return FileFault::Memory,
        };
        FileFault::Program(fault)
    }
}

impl From<VerifyFault> for FileFault {
    ghost from_gives = { λ fault told. told ≡ of_verifying fault };

    fn from(fault: VerifyFault) -> FileFault {
        let fault = match fault {
            VerifyFault::Width => ProgramFault::Width,
            VerifyFault::Signal(k) => ProgramFault::Signal(k),
            VerifyFault::Operand(part, i) => ProgramFault::Operand(part, i),
            VerifyFault::Interval(part, i) => ProgramFault::Interval(part, i),
            VerifyFault::Divisor(i) => ProgramFault::Divisor(i),
            VerifyFault::Range(i) => ProgramFault::Range(i),
            VerifyFault::TooLate(i) => ProgramFault::TooLate(i),
            VerifyFault::Output(k) => ProgramFault::Output(k),
            VerifyFault::Size(part, i) => ProgramFault::Size(part, i),
            VerifyFault::TooManySlots => ProgramFault::TooManySlots,
            VerifyFault::Memory => return FileFault::Memory,
        };
        FileFault::Program(fault)
    }
}
