//! The header file of a compilation.

ghost use Rattle.std.specs.Prelude.{◌≡◌, List as Seq, None, ℕ};
ghost use Rattle.c2po_ast.specs.ItemShape.{spec_shape};
ghost use Rattle.c2po_compile.specs.Front.{first_refusal, items_in};
ghost use Rattle.tool_io.specs.Log.{OnLog};
ghost use Rattle.tool_words.specs.Causes.{PhaseCause};
ghost use Rattle.c2po_cli.specs.Phases.{HeaderLog, LineLog};

use crate::compiled::compiled_bytes;
use crate::make::Form;
use c2po_compile::HeaderWhy;
use c2po_types::TypedSpec;
use std::alloc::Global;
use tool_io::{Attached, Host, Line, LineCut, Place};
use tool_words::Status;

/// Returns the bytes that are written for a specification under the first line of a header file,
/// after attaching the file.
pub(crate) fn under_header<H: Host>(
    alloc: Global,
    spec: &TypedSpec,
    name: &str,
    form: Form,
    host: &mut H,
) -> Result<Vec<u8>, Status>
    ensures cause { PhaseCause result (H.faults host.old) (H.faults host.new) }
    ensures log { (text : Seq ℕ) → first_refusal text ≡ None → spec_shape spec.now ≡ items_in text
        → OnLog (H.log host.old) (H.log host.new) (HeaderLog result form name.now text) }
{
    if let Attached::Failed = host.attach(Place::Header, name) {
        return Err(Status::OpenFault(Place::Header));
    }
    under_first_line(alloc, spec, form, host)
}

/// Returns the bytes that are written for a specification under the first line of an attached
/// header file.
fn under_first_line<H: Host>(
    alloc: Global,
    spec: &TypedSpec,
    form: Form,
    host: &mut H,
) -> Result<Vec<u8>, Status>
    ensures cause { PhaseCause result (H.faults host.old) (H.faults host.new) }
    ensures log { (text : Seq ℕ) → first_refusal text ≡ None → spec_shape spec.now ≡ items_in text
        → OnLog (H.log host.old) (H.log host.new) (LineLog result form text) }
{
    let mut cut = LineCut::make(alloc)?;
    match cut.next_line(host, Place::Header) {
        Line::Row => compiled_bytes(alloc, spec, Some(cut.line()), form),
        Line::End => Err(Status::BadHeader(HeaderWhy::NoHeader)),
        Line::LongLine => Err(Status::TextTooLong(Place::Header)),
        Line::ReadFault => Err(Status::ReadFault(Place::Header)),
    }
}
