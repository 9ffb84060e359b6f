//! Monitors from the bytes of a program, and the header that binds its signals.

ghost use Rattle.std.specs.Prelude.{◌≡◌, ◌≢◌, ◌≤◌, ◌<◌, Ok, Err, IfOk, IfErr, OnOk, length};
ghost use Rattle.mltl_base.specs.declared.limits.TheConstants.{MAX_LINE_BYTES};
ghost use Rattle.r2u2_monitor.specs.Monitoring.{program_of};
ghost use Rattle.r2u2_c.specs.Opening.{Starts, bound_by, of_file, of_header, opened_by, program_under};

use mltl_base::limits::MAX_LINE_BYTES;
use mltl_base::{Name, Program};
use obs_binary::{FileFault, ProgramFault, open};
use obs_verify::Checked;
use r2u2_monitor::Monitor;
use std::alloc::{AllocError, Global};
use trace_columns::{HeaderFault, bind_to_header};

/// The fault of an opening.
#[derive(Drop)]
pub enum OpeningFault {
    /// The program has this fault.
    Program(ProgramFault),
    /// A header was given, but the program is of version 1, and stores no signals.
    NoSignals,
    /// The header has more than 65,535 bytes.
    LongHeader,
    /// The header doesn't begin with `#`.
    NoHeader,
    /// This signal is the first that doesn't occur exactly once in the header. It is missing there.
    Missing(Name),
    /// This signal is the first that doesn't occur exactly once in the header. It occurs there more
    /// than once.
    Twice(Name),
    /// Out of memory.
    Memory,
}

impl From<FileFault> for OpeningFault {
    ghost from_gives = { λ fault why. why ≡ of_file fault };

    fn from(fault: FileFault) -> OpeningFault {
        match fault {
            FileFault::Program(fault) => OpeningFault::Program(fault),
            FileFault::Memory => OpeningFault::Memory,
        }
    }
}

impl From<HeaderFault> for OpeningFault {
    ghost from_gives = { λ fault why. why ≡ of_header fault };

    fn from(fault: HeaderFault) -> OpeningFault {
        match fault {
            HeaderFault::NoHeader => OpeningFault::NoHeader,
            HeaderFault::Missing(name) => OpeningFault::Missing(name),
            HeaderFault::Twice(name) => OpeningFault::Twice(name),
            HeaderFault::Memory => OpeningFault::Memory,
        }
    }
}

impl From<AllocError> for OpeningFault {
    ghost use Rattle.r2u2_c.specs.declared.opened.OpeningFault.TheVariants.{Memory};

    ghost from_gives = { λ _ why. why ≡ Memory };

    fn from(_refused: AllocError) -> OpeningFault {
        OpeningFault::Memory
    }
}

/// Returns a monitor of the program in these bytes.
pub(crate) fn open_monitor(alloc: Global, bytes: &[u8]) -> Result<Box<Monitor>, OpeningFault>
    ensures opened { IfOk result (λ b. Starts (opened_by bytes.now) b.value) }
    ensures refused { IfErr result (λ why. why ≢ OpeningFault.Memory
        → opened_by bytes.now ≡ Err why) }
{
    Ok(load(alloc, open(alloc, bytes)?)?)
}

/// Returns a monitor of the program in these bytes, with its signals in the columns that a header
/// names.
pub(crate) fn open_under(
    alloc: Global,
    bytes: &[u8],
    header: &[u8],
) -> Result<Box<Monitor>, OpeningFault>
    ensures opened { IfOk result (λ b. Starts (program_under header.now bytes.now) b.value) }
    ensures refused { IfErr result (λ why. why ≢ OpeningFault.Memory
        → program_under header.now bytes.now ≡ Err why) }
{
    let checked = open(alloc, bytes)?;
    let bound = bind(alloc, checked, header)?;
    Ok(load(alloc, bound)?)
}

/// Binds the signals of a program to the columns that a header names.
fn bind(alloc: Global, checked: Checked, header: &[u8]) -> Result<Checked, OpeningFault>
    ensures bound { IfOk result (λ bound. bound_by header.now checked ≡ Ok bound) }
    ensures refused { IfErr result (λ why. why ≢ OpeningFault.Memory
        → bound_by header.now checked ≡ Err why) }
{
    takes_header(checked.program(), header)?;
    Ok(bind_to_header(alloc, checked, header)?)
}

/// Checks that a program stores signals, and that a header is short enough to name their columns.
fn takes_header(program: &Program, header: &[u8]) -> Result<(), OpeningFault>
    ensures stored { OnOk result (program.now.version ≡ 2) }
    ensures short { OnOk result (length header.now < MAX_LINE_BYTES) }
    ensures refused { IfErr result (λ why. bound_by header.now program.now ≡ Err why) }
{
    if program.version != 2 {
        return Err(OpeningFault::NoSignals);
    }
    if header.len() >= MAX_LINE_BYTES {
        return Err(OpeningFault::LongHeader);
    }
    Ok(())
}

/// Makes a monitor in a block of its own.
fn load(alloc: Global, checked: Checked) -> Result<Box<Monitor>, AllocError>
    ensures starts { IfOk result (λ b. Starts (Ok checked) b.value) }
{
    let monitor = Monitor::load(alloc, checked)?;
    Ok(Box::new(alloc, monitor)?)
}
