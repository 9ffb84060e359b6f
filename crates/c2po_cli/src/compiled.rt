//! The bytes that are written for a specification.

ghost use Rattle.std.specs.Prelude.{◌≡◌, ◌≢◌, ◌<◌, Err, IfErr, IfOk, List as Seq, None, Ok, OnOk, false, ℕ, length};
ghost use Rattle.std.specs.Option.{ForSome, option_copied};
ghost use Rattle.mltl_base.specs.declared.limits.TheConstants.{MAX_LINE_BYTES};
ghost use Rattle.c2po_ast.specs.ItemShape.{spec_shape};
ghost use Rattle.obs_binary.specs.Layout.{IsEncodable};
ghost use Rattle.obs_binary.specs.Names.{NamesFit};
ghost use Rattle.c2po_types.specs.Signals.{signals_of};
ghost use Rattle.c2po_types.specs.Outputs.{outputs_of};
ghost use Rattle.c2po_compile.specs.Front.{first_refusal, items_in};
ghost use Rattle.c2po_compile.specs.Image.{AreColumnsFor};
ghost use Rattle.c2po_compile.specs.Compiled.{limit_over};
ghost use Rattle.c2po_compile.specs.Refusals.{IsFirstRefusal};
ghost use Rattle.c2po_cli.specs.Phases.{IsRefusal, RefusesAlone};
ghost use Rattle.c2po_cli.specs.Images.{WritesImage};
ghost use Rattle.c2po_cli.specs.Made.{compile_as, text_bytes, written_as};

use crate::make::Form;
use c2po_compile::{CompileFault, back, back_simple, columns_of};
use c2po_types::TypedSpec;
use mltl_base::Columns;
use obs_binary::image;
use obs_show::instruction_table;
use obs_verify::Checked;
use std::alloc::Global;
use tool_words::Status;

/// Returns the table of a program, or its bytes.
pub(crate) fn written(alloc: Global, table: bool, checked: &Checked) -> Result<Vec<u8>, Status>
    requires names { NamesFit checked.now }
    ensures bytes { IfOk result (λ bytes. bytes.items ≡ written_as table checked.now) }
    ensures fits { OnOk result (table ≡ false → IsEncodable checked.now) }
    ensures memory { IfErr result (λ status. status ≡ Status.Memory) }
{
    let made = if table {
        instruction_table(alloc, checked)
    } else {
        image(alloc, checked)
    };
    Ok(made?)
}

/// Makes the program of a specification over columns, plain or in simplified form.
fn program_of(
    alloc: Global,
    spec: &TypedSpec,
    columns: &Columns,
    simplify: bool,
) -> Result<Checked, CompileFault>
    requires columns { AreColumnsFor (length (signals_of (spec_shape spec.now))) columns.now }
    ensures image { IfOk result (λ checked. checked
        ≡ compile_as simplify columns.now
        (signals_of (spec_shape spec.now)) (outputs_of (spec_shape spec.now))) }
    ensures within { OnOk result (limit_over columns.now (spec_shape spec.now) ≡ None) }
    ensures refused { IfErr result
        (IsFirstRefusal (limit_over columns.now (spec_shape spec.now))) }
    ensures names { IfOk result NamesFit }
{
    if simplify {
        back_simple(alloc, spec, columns)
    } else {
        back(alloc, spec, columns)
    }
}

/// Returns the bytes that are written for a specification whose signals are in the columns of a
/// header line, or in order of declaration.
#[tactic(auto, using(crate::proofs::MakingLaws::compile_refuses))]
pub(crate) fn compiled_bytes(
    alloc: Global,
    spec: &TypedSpec,
    header: Option<&[u8]>,
    form: Form,
) -> Result<Vec<u8>, Status>
    requires line { ForSome header (λ line. length line.now < MAX_LINE_BYTES) }
    ensures made { IfOk result (λ bytes.
        (text : Seq ℕ) → first_refusal text ≡ None → spec_shape spec.now ≡ items_in text →
        text_bytes form text (option_copied header.entry) ≡ Ok bytes.items) }
    ensures image { IfOk result (λ bytes.
        (text : Seq ℕ) → first_refusal text ≡ None → spec_shape spec.now ≡ items_in text →
        WritesImage form text (option_copied header.entry) bytes.items) }
    ensures refused { IfErr result (λ status. status ≢ Status.Memory →
        (text : Seq ℕ) → first_refusal text ≡ None → spec_shape spec.now ≡ items_in text →
        text_bytes form text (option_copied header.entry) ≡ Err status) }
    ensures refuses { IfErr result IsRefusal }
    ensures alone { header.entry ≡ None → IfErr result RefusesAlone }
{
    let columns = columns_of(alloc, spec, header)?;
    let checked = program_of(alloc, spec, &columns, form.simplify)?;
    written(alloc, form.table, &checked)
}
