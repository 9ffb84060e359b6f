//! The inputs of a run, and the bytes that it makes of them.

ghost use Rattle.std.specs.Prelude.{◌≡◌, ◌≤◌, List as Seq, None, ℕ, length, option_map};
ghost use Rattle.mltl_base.specs.declared.limits.TheConstants.{MAX_SPEC_BYTES};
ghost use Rattle.c2po_ast.specs.ItemShape.{spec_shape};
ghost use Rattle.c2po_compile.specs.Front.{first_refusal, items_in};
ghost use Rattle.tool_io.specs.Log.{OnLog};
ghost use Rattle.tool_words.specs.declared.file_kind.FileKind.TheVariants.{Program};
ghost use Rattle.tool_words.specs.Causes.{PhaseCause};
ghost use Rattle.tool_words.specs.Files.{file_limit};
ghost use Rattle.c2po_cli.specs.Asking.{file_kind as kind_of, make_of};
ghost use Rattle.c2po_cli.specs.Phases.{AfterLog, GatherLog, SpecLog, TextLog};

use crate::compiled::compiled_bytes;
use crate::header_file::under_header;
use crate::make::{Form, Make, Product};
use crate::upgrade::{shown_text, upgraded_bytes};
use c2po_compile::front;
use c2po_types::TypedSpec;
use std::alloc::Global;
use tool_io::Host;
use tool_words::{Status, read_file};

/// Returns the bytes that are written for a specification without a fault, under a header file if
/// one is named.
fn of_spec<H: Host>(
    alloc: Global,
    spec: &TypedSpec,
    header: Option<&str>,
    form: Form,
    host: &mut H,
) -> Result<Vec<u8>, Status>
    ensures cause { PhaseCause result (H.faults host.old) (H.faults host.new) }
    ensures log { (text : Seq ℕ) → first_refusal text ≡ None → spec_shape spec.now ≡ items_in text
        → OnLog (H.log host.old) (H.log host.new)
        (SpecLog result form (option_map (λ name. name.now) header.entry) text) }
{
    match header {
        None => compiled_bytes(alloc, spec, None, form),
        Some(name) => under_header(alloc, spec, name, form, host),
    }
}

/// Returns the bytes that are written for the text of a specification.
fn of_text<H: Host>(
    alloc: Global,
    text: &[u8],
    header: Option<&str>,
    form: Form,
    host: &mut H,
) -> Result<Vec<u8>, Status>
    requires within { length text.now ≤ MAX_SPEC_BYTES }
    ensures cause { PhaseCause result (H.faults host.old) (H.faults host.new) }
    ensures log { OnLog (H.log host.old) (H.log host.new)
        (TextLog result form (option_map (λ name. name.now) header.entry) text.now) }
{
    let spec = front(alloc, text)?;
    of_spec(alloc, &spec, header, form, host)
}

/// Returns the bytes that are written for the bytes of a file.
fn of_file<H: Host>(
    alloc: Global,
    asked: &Make<'_>,
    bytes: &[u8],
    host: &mut H,
) -> Result<Vec<u8>, Status>
    requires within { length bytes.now ≤ file_limit (kind_of asked.now.product) }
    ensures cause { PhaseCause result (H.faults host.old) (H.faults host.new) }
    ensures log { OnLog (H.log host.old) (H.log host.new)
        (AfterLog result (make_of asked.now) bytes.now) }
{
    match asked.product {
        Product::Compiled(form) => of_text(alloc, bytes, asked.header, form, host),
        Product::Upgrade => upgraded_bytes(alloc, bytes),
        Product::Show => shown_text(alloc, bytes),
    }
}

/// Reads the file, and the header if one is named, and makes the bytes that are written.
pub(crate) fn gather<H: Host>(
    alloc: Global,
    asked: &Make<'_>,
    host: &mut H,
) -> Result<Vec<u8>, Status>
    requires header { kind_of asked.now.product ≡ Program → asked.now.header ≡ None }
    ensures cause { PhaseCause result (H.faults host.old) (H.faults host.new) }
    ensures log { OnLog (H.log host.old) (H.log host.new) (GatherLog result (make_of asked.now)) }
{
    let bytes = read_file(alloc, asked.product.file_kind(), asked.file, host)?;
    of_file(alloc, asked, &bytes, host)
}
