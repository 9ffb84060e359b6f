//! The program of a file that runs over a trace.

ghost use Rattle.std.specs.Prelude.{◌≡◌, ◌≢◌, ◌<◌, ◌≤◌, Err, List as Seq, ℕ, None, Ok, OnOk, Option as Maybe, Some, IfErr, IfOk, length};
ghost use Rattle.std.specs.Option.{ForSome, option_copied};
ghost use Rattle.mltl_base.specs.declared.limits.TheConstants.{MAX_LINE_BYTES, MAX_SPEC_BYTES};
ghost use Rattle.obs_binary.specs.Faults.{opened as opened_by};
ghost use Rattle.tool_words.specs.Causes.{TellsNoCall};
ghost use Rattle.tool_words.specs.Files.{file_limit};
ghost use Rattle.r2u2_cli.specs.ProgramBy.{bound_under, file_refusal, header_status, program_by, trace_status};
ghost use Rattle.r2u2_cli.specs.Phases.{OpensFile};

use c2po_compile::{CompileFault, HeaderWhy, back, columns_of, front};
use c2po_types::TypedSpec;
use obs_binary::open;
use obs_verify::Checked;
use r2u2_watch::TraceWhy;
use std::alloc::Global;
use tool_words::{FileKind, Status};
use trace_columns::{HeaderFault, bind_to_header};

/// A file that was read and isn't refused by itself.
#[derive(Drop)]
pub(crate) enum Opened {
    /// A specification without a fault.
    Spec(TypedSpec),
    /// A well-formed program.
    Program(Checked),
}

/// Opens the bytes of a specification, or of a program file.
pub(crate) fn open_file(alloc: Global, kind: FileKind, bytes: &[u8]) -> Result<Opened, Status>
    requires { length bytes.now ≤ file_limit kind }
    ensures opens { IfOk result (λ opened. OpensFile opened kind bytes.now) }
    ensures unrefused { OnOk result (file_refusal kind bytes.now ≡ None) }
    ensures refused { IfErr result (λ status. status ≢ Status.Memory →
        file_refusal kind bytes.now ≡ Some status) }
    ensures no_call { IfErr result TellsNoCall }
{
    match kind {
        FileKind::Spec => open_spec(alloc, bytes),
        FileKind::Program => open_program(alloc, bytes),
    }
}

fn open_spec(alloc: Global, text: &[u8]) -> Result<Opened, Status>
    requires { length text.now ≤ MAX_SPEC_BYTES }
    ensures opens { IfOk result (λ opened. OpensFile opened FileKind.Spec text.now) }
    ensures unrefused { OnOk result (file_refusal FileKind.Spec text.now ≡ None) }
    ensures refused { IfErr result (λ status. status ≢ Status.Memory →
        file_refusal FileKind.Spec text.now ≡ Some status) }
    ensures no_call { IfErr result TellsNoCall }
{
    let spec = front(alloc, text)?;
    Ok(Opened::Spec(spec))
}

fn open_program(alloc: Global, bytes: &[u8]) -> Result<Opened, Status>
    ensures opens { IfOk result (λ opened. OpensFile opened FileKind.Program bytes.now) }
    ensures unrefused { OnOk result (file_refusal FileKind.Program bytes.now ≡ None) }
    ensures refused { IfErr result (λ status. status ≢ Status.Memory →
        file_refusal FileKind.Program bytes.now ≡ Some status) }
    ensures no_call { IfErr result TellsNoCall }
{
    let checked = open(alloc, bytes)?;
    Ok(Opened::Program(checked))
}

/// Returns the program that runs over a trace with this header, or with none.
pub(crate) fn program_for(
    alloc: Global,
    opened: Opened,
    header: Option<&[u8]>,
) -> Result<Checked, Status>
    requires line { ForSome header (λ line. length line.now < MAX_LINE_BYTES) }
    ensures program { IfOk result (λ checked.
        (kind : FileKind) (bytes : Seq ℕ) → OpensFile opened kind bytes →
        program_by kind bytes (option_copied header.entry) ≡ Ok checked) }
    ensures refused { IfErr result (λ status. status ≢ Status.Memory →
        (kind : FileKind) (bytes : Seq ℕ) → OpensFile opened kind bytes →
        program_by kind bytes (option_copied header.entry) ≡ Err status) }
    ensures no_call { IfErr result TellsNoCall }
{
    match opened {
        Opened::Spec(spec) => compiled(alloc, &spec, header),
        Opened::Program(checked) => bound_under_header(alloc, checked, header),
    }
}

/// Makes the program of a specification, whose signals are in the columns of a header.
fn compiled(alloc: Global, spec: &TypedSpec, header: Option<&[u8]>) -> Result<Checked, Status>
    requires line { ForSome header (λ line. length line.now < MAX_LINE_BYTES) }
    ensures program { IfOk result (λ checked.
        (kind : FileKind) (bytes : Seq ℕ) → OpensFile (Opened.Spec spec.now) kind bytes →
        program_by kind bytes (option_copied header.entry) ≡ Ok checked) }
    ensures refused { IfErr result (λ status. status ≢ Status.Memory →
        (kind : FileKind) (bytes : Seq ℕ) → OpensFile (Opened.Spec spec.now) kind bytes →
        program_by kind bytes (option_copied header.entry) ≡ Err status) }
    ensures no_call { IfErr result TellsNoCall }
{
    let columns = columns_of(alloc, spec, header).map_err(status_of_trace)?;
    back(alloc, spec, &columns).map_err(status_of_trace)
}

/// Moves the stored signals of a program to the columns of a header. A program of version 1 stores
/// none.
fn bound_under_header(
    alloc: Global,
    checked: Checked,
    header: Option<&[u8]>,
) -> Result<Checked, Status>
    requires line { ForSome header (λ line. length line.now < MAX_LINE_BYTES) }
    ensures program { IfOk result (λ bound.
        bound_under (option_copied header.entry) checked ≡ Ok bound) }
    ensures refused { IfErr result (λ status. status ≢ Status.Memory →
        bound_under (option_copied header.entry) checked ≡ Err status) }
    ensures no_call { IfErr result TellsNoCall }
{
    match header {
        Some(line) if checked.program().version == 2 => {
            bind_to_header(alloc, checked, line).map_err(status_of_header)
        }
        _ => Ok(checked),
    }
}

/// Returns the status of a run whose specification isn't compiled under the header of its trace. A
/// name that the header lacks, or has twice, is a fault of the first line.
fn status_of_trace(fault: CompileFault) -> Status
    ensures status { result ≡ trace_status fault }
    ensures no_call { TellsNoCall result }
{
    match fault {
        CompileFault::BadHeader(HeaderWhy::Missing(name)) => {
            Status::BadTrace(1, TraceWhy::Missing(name))
        }
        CompileFault::BadHeader(HeaderWhy::Twice(name)) => {
            Status::BadTrace(1, TraceWhy::Twice(name))
        }
        fault => Status::from(fault),
    }
}

fn status_of_header(fault: HeaderFault) -> Status
    ensures status { result ≡ header_status fault }
    ensures no_call { TellsNoCall result }
{
    status_of_trace(CompileFault::from(fault))
}
