//! Reading the file of the arguments: a specification, or a program.

ghost use Rattle.std.specs.Prelude.{◌≡◌, ◌≤◌, IfOk, length};
ghost use Rattle.tool_io.specs.Log.{OnLog};
ghost use Rattle.tool_words.specs.Causes.{PhaseCause};
ghost use Rattle.tool_words.specs.Files.{file_limit, file_place};
ghost use Rattle.tool_words.specs.FileReading.{FileLog, unread};

use crate::{FileKind, Status};
use mltl_base::limits::{MAX_PROGRAM_BYTES, MAX_SPEC_BYTES};
use std::alloc::Global;
use tool_io::{Attached, Host, Place, WholeFault, read_whole};

/// Returns the place of a file, and the most bytes that it may have.
fn place_of(kind: FileKind) -> (Place, usize)
    ensures place { result.0 ≡ file_place kind }
    ensures limit { result.1 ≡ file_limit kind }
{
    match kind {
        FileKind::Spec => (Place::Spec, MAX_SPEC_BYTES),
        FileKind::Program => (Place::Program, MAX_PROGRAM_BYTES),
    }
}

/// Reads a specification or a program whole.
pub fn read_file<H: Host>(
    alloc: Global,
    kind: FileKind,
    name: &str,
    host: &mut H,
) -> Result<Vec<u8>, Status>
    ensures cause { PhaseCause result (H.faults host.old) (H.faults host.new) }
    ensures log { OnLog (H.log host.old) (H.log host.new)
        (FileLog result (file_place kind) (file_limit kind) name.now) }
    ensures within { IfOk result (λ bytes. length bytes.items ≤ file_limit kind) }
{
    let (place, limit) = place_of(kind);
    if let Attached::Failed = host.attach(place, name) {
        return Err(Status::OpenFault(place));
    }
    read_whole(alloc, host, place, limit).map_err(|fault| status_unread(place, fault))
}

fn status_unread(place: Place, fault: WholeFault) -> Status
    ensures { result ≡ unread place fault }
{
    match fault {
        WholeFault::TooLong => Status::TextTooLong(place),
        WholeFault::ReadFault => Status::ReadFault(place),
        WholeFault::Memory => Status::Memory,
    }
}
