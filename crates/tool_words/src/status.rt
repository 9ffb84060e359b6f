//! Endings of a run of a program.

ghost use Rattle.std.specs.Prelude.{◌≡◌};
ghost use Rattle.tool_words.specs.Codes.{code_of};
ghost use Rattle.tool_words.specs.Files.{file_status};
ghost use Rattle.tool_words.specs.Statuses.{compile_status};

use c2po_compile::{CompileFault, HeaderWhy, Refusal};
use obs_binary::{FileFault, ProgramFault};
use std::alloc::AllocError;
use tool_io::Place;
use trace_feed::TraceWhy;

/// The ending of a run. Lines count from 1; line 0 is the whole specification.
#[derive(Drop)]
pub enum Status {
    /// The run did what its arguments request, and all of its output is out. A trace was read to
    /// its end.
    Done,
    /// The arguments request help, and the usage line is out.
    Helped,
    /// The arguments are invalid.
    Usage,
    /// The specification has a fault, or is past a limit.
    Refused(u32, Refusal),
    /// The program file has a fault.
    BadProgram(ProgramFault),
    /// The header of a compilation has a fault.
    BadHeader(HeaderWhy),
    /// A line of the trace has a fault.
    BadTrace(u64, TraceWhy),
    /// The trace goes on past the mission time.
    TooLong,
    /// A text is longer than its limit.
    TextTooLong(Place),
    OpenFault(Place),
    ReadFault(Place),
    WriteFault(Place),
    /// Out of memory.
    Memory,
}

impl Status {
    /// Returns the exit code of a program that ends with this status: 0 for success, 1 for its
    /// arguments, 2 for a specification, 3 for a program file, 4 for a header or a trace, 5 for a
    /// text or a trace past its limit, 6 for opening and reading, 7 for writing, 8 for memory.
    pub fn code(&self) -> u8
        ensures { result ≡ code_of self.now }
    {
        match self {
            Status::Done | Status::Helped => 0,
            Status::Usage => 1,
            Status::Refused(_, _) => 2,
            Status::BadProgram(_) => 3,
            Status::BadHeader(_) | Status::BadTrace(_, _) => 4,
            Status::TooLong | Status::TextTooLong(_) => 5,
            Status::OpenFault(_) | Status::ReadFault(_) => 6,
            Status::WriteFault(_) => 7,
            Status::Memory => 8,
        }
    }
}

impl From<FileFault> for Status {
    ghost from_gives = { λ fault status. status ≡ file_status fault };

    fn from(fault: FileFault) -> Status {
        match fault {
            FileFault::Program(fault) => Status::BadProgram(fault),
            FileFault::Memory => Status::Memory,
        }
    }
}

impl From<CompileFault> for Status {
    ghost from_gives = { λ fault status. status ≡ compile_status fault };

    fn from(fault: CompileFault) -> Status {
        match fault {
            CompileFault::Refused(line, why) => Status::Refused(line, why),
            CompileFault::BadHeader(why) => Status::BadHeader(why),
            CompileFault::Memory => Status::Memory,
        }
    }
}

impl From<AllocError> for Status {
    ghost use Rattle.tool_words.specs.declared.status.Status.TheVariants.{Memory};

    ghost from_gives = { λ _ status. status ≡ Memory };

    fn from(_refused: AllocError) -> Status {
        Status::Memory
    }
}
