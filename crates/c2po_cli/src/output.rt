//! Writing the product.

ghost use Rattle.std.specs.Prelude.{Some, option_map};
ghost use Rattle.tool_io.specs.Log.{OnLog};
ghost use Rattle.tool_words.specs.Causes.{RunCause};
ghost use Rattle.c2po_cli.specs.Phases.{GivenLog, PutLog};

use tool_io::{Attached, Host, Place, Put, put_all};
use tool_words::Status;

/// Writes the bytes on `Out`.
fn give<H: Host>(bytes: &[u8], host: &mut H) -> Status
    ensures cause { RunCause result (H.faults host.old) (H.faults host.new) }
    ensures log { OnLog (H.log host.old) (H.log host.new) (GivenLog result bytes.now) }
{
    match put_all(host, Place::Out, bytes) {
        Put::Wrote(_) => Status::Done,
        Put::Failed => Status::WriteFault(Place::Out),
    }
}

/// Attaches the file of this name, and writes the bytes into it.
fn give_to<H: Host>(name: &str, bytes: &[u8], host: &mut H) -> Status
    ensures cause { RunCause result (H.faults host.old) (H.faults host.new) }
    ensures log { OnLog (H.log host.old) (H.log host.new)
        (PutLog result (Some name.now) bytes.now) }
{
    if let Attached::Failed = host.attach(Place::Out, name) {
        return Status::OpenFault(Place::Out);
    }
    give(bytes, host)
}

/// Writes the bytes into the file of this name, or without a name to the standard output.
pub(crate) fn write_out<H: Host>(out: Option<&str>, bytes: &[u8], host: &mut H) -> Status
    ensures cause { RunCause result (H.faults host.old) (H.faults host.new) }
    ensures log { OnLog (H.log host.old) (H.log host.new)
        (PutLog result (option_map (λ name. name.now) out.entry) bytes.now) }
{
    match out {
        None => give(bytes, host),
        Some(name) => give_to(name, bytes, host),
    }
}
