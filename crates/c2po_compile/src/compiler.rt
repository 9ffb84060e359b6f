//! The compilation of a text over the columns of a header line.

ghost use Rattle.std.specs.Prelude.{◌≡◌, ◌≢◌, ◌<◌, ◌≤◌, Err, Ok, None, Some, length, IfErr, IfOk};
ghost use Rattle.std.specs.Option.{ForSome, option_copied};
ghost use Rattle.mltl_base.specs.declared.limits.TheConstants.{MAX_LINE_BYTES};
ghost use Rattle.c2po_ast.specs.ItemShape.{spec_shape};
ghost use Rattle.c2po_types.specs.Signals.{signals_of as declared};
ghost use Rattle.obs_binary.specs.Names.{NamesFit};
ghost use Rattle.c2po_compile.specs.Refusals.{header_refusal};
ghost use Rattle.c2po_compile.specs.Front.{refusal_in};
ghost use Rattle.c2po_compile.specs.Image.{AreColumnsFor};
ghost use Rattle.c2po_compile.specs.Compiled.{columns_by, compile_text};

use crate::signals::signals_of;
use crate::{CompileFault, back, front};
use c2po_types::TypedSpec;
use mltl_base::Columns;
use mltl_base::limits::MAX_SPEC_BYTES;
use obs_verify::Checked;
use std::alloc::Global;
use trace_columns::{header, in_order};

/// Compiles the text of a specification, at most 1,048,576 bytes, over the columns of a header
/// line, at most 65,535 bytes. Without a header line each signal has the column of its number.
///
/// Errors, the first of these: `Refused` with the first fault of the text; `BadHeader` if the line
/// doesn't name each signal once; `Refused` with line 0 if a limit is exceeded. `Memory` when out
/// of memory.
pub fn compile(
    alloc: Global,
    text: &[u8],
    header_line: Option<&[u8]>,
) -> Result<Checked, CompileFault>
    requires text { length text.now ≤ MAX_SPEC_BYTES }
    requires line { ForSome header_line (λ line. length line.now < MAX_LINE_BYTES) }
    ensures program { IfOk result (λ checked.
        compile_text text.now (option_copied header_line.entry) ≡ Ok checked) }
    ensures refused { IfErr result (λ fault. fault ≢ CompileFault.Memory →
        compile_text text.now (option_copied header_line.entry) ≡ Err fault) }
    ensures names { IfOk result NamesFit }
{
    let spec = front(alloc, text)?;
    let columns = columns_of(alloc, &spec, header_line)?;
    back(alloc, &spec, &columns)
}

/// Returns the columns of a specification's signals, which a header line of at most 65,535 bytes
/// names. Without a header line each signal has the column of its number.
///
/// Errors: `BadHeader` if the line doesn't name each signal once; `Memory` when out of memory.
pub fn columns_of(
    alloc: Global,
    spec: &TypedSpec,
    header_line: Option<&[u8]>,
) -> Result<Columns, CompileFault>
    requires line { ForSome header_line (λ line. length line.now < MAX_LINE_BYTES) }
    ensures columns { IfOk result (λ columns.
        columns_by (declared (spec_shape spec.now)) (option_copied header_line.entry)
        ≡ Ok columns) }
    ensures fault { IfErr result (λ fault. fault ≢ CompileFault.Memory →
        refusal_in header_refusal
        (columns_by (declared (spec_shape spec.now)) (option_copied header_line.entry))
        ≡ Some fault) }
    ensures serve { IfOk result (AreColumnsFor (length (declared (spec_shape spec.now)))) }
{
    match header_line {
        Some(line) => columns_named(alloc, spec, line),
        None => columns_in_order(alloc, spec),
    }
}

/// Returns the columns that a header line names.
fn columns_named(alloc: Global, spec: &TypedSpec, line: &[u8]) -> Result<Columns, CompileFault>
    requires { length line.now < MAX_LINE_BYTES }
    ensures columns { IfOk result
        (λ columns. columns_by (declared (spec_shape spec.now)) (Some line.now) ≡ Ok columns) }
    ensures fault { IfErr result (λ fault. fault ≢ CompileFault.Memory →
        refusal_in header_refusal (columns_by (declared (spec_shape spec.now)) (Some line.now))
        ≡ Some fault) }
    ensures serve { IfOk result (AreColumnsFor (length (declared (spec_shape spec.now)))) }
{
    let columns = header(alloc, line, signals_of(spec))?;
    Ok(columns)
}

/// Returns the columns without a header line.
fn columns_in_order(alloc: Global, spec: &TypedSpec) -> Result<Columns, CompileFault>
    ensures columns { IfOk result
        (λ columns. columns_by (declared (spec_shape spec.now)) None ≡ Ok columns) }
    ensures only { IfErr result (λ fault. fault ≡ CompileFault.Memory) }
    ensures serve { IfOk result (AreColumnsFor (length (declared (spec_shape spec.now)))) }
{
    let columns = in_order(alloc, signals_of(spec))?;
    Ok(columns)
}
