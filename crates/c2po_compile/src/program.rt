//! The program of a checked specification.

ghost use Rattle.std.specs.Prelude.{◌≡◌, None, length, IfErr, IfOk, OnOk};
ghost use Rattle.c2po_ast.specs.ItemShape.{spec_shape};
ghost use Rattle.c2po_types.specs.Signals.{signals_of as declared};
ghost use Rattle.c2po_compile.specs.BuildLimits.{IsReason, IsWithinLimits};
ghost use Rattle.obs_binary.specs.Names.{NamesFit};
ghost use Rattle.c2po_ast.specs.Outputs.{asked};
ghost use Rattle.c2po_types.specs.Outputs.{outputs_of};
ghost use Rattle.c2po_compile.specs.Refusals.{IsFirstRefusal};
ghost use Rattle.c2po_compile.specs.Compiled.{limit_over};
ghost use Rattle.c2po_compile.specs.Image.{AreColumnsFor, image, over_columns};
ghost use Rattle.c2po_compile.specs.Unfolded.{IsUnfolded};

use crate::names::are_countable;
use crate::signals::signals_of;
use crate::{BuildFault, CompileFault, build};
use c2po_ast::Expanded;
use c2po_types::TypedSpec;
use mltl_base::Columns;
use obs_verify::Checked;
use set_expand::expand;
use std::alloc::Global;

/// Returns the image of a specification over the columns of its signals, one column for each.
///
/// Errors: `Refused` with line 0 and the first limit that is exceeded: instructions, then delays,
/// then slots; `Memory` when out of memory, or at 2^32 bytes of names, which no text reaches.
/// `BadHeader` never occurs.
pub fn back(alloc: Global, spec: &TypedSpec, columns: &Columns) -> Result<Checked, CompileFault>
    requires columns { AreColumnsFor (length (declared (spec_shape spec.now))) columns.now }
    ensures image { IfOk result (λ checked. checked
        ≡ image columns.now (declared (spec_shape spec.now)) (outputs_of (spec_shape spec.now))) }
    ensures within { OnOk result (limit_over columns.now (spec_shape spec.now) ≡ None) }
    ensures refused { IfErr result
        (IsFirstRefusal (limit_over columns.now (spec_shape spec.now))) }
    ensures names { IfOk result NamesFit }
{
    let expanded = expand(alloc, spec)?;
    back_of(alloc, &expanded, spec, columns)
}

/// Returns the image of an unfolded specification. Errors: as in [`back`].
pub(crate) fn back_of(
    alloc: Global,
    expanded: &Expanded,
    spec: &TypedSpec,
    columns: &Columns,
) -> Result<Checked, CompileFault>
    requires columns { AreColumnsFor (length (declared (spec_shape spec.now))) columns.now }
    requires unfolded { IsUnfolded (declared (spec_shape spec.now)) expanded.now }
    requires outputs { asked expanded.now ≡ outputs_of (spec_shape spec.now) }
    ensures image { IfOk result (λ checked. checked
        ≡ image columns.now (declared (spec_shape spec.now)) (outputs_of (spec_shape spec.now))) }
    ensures within { OnOk result (limit_over columns.now (spec_shape spec.now) ≡ None) }
    ensures refused { IfErr result
        (IsFirstRefusal (limit_over columns.now (spec_shape spec.now))) }
    ensures names { IfOk result NamesFit }
{
    let checked = built(alloc, expanded, spec, columns)?;
    Ok(checked)
}

/// Makes the image of outputs over the signals of a specification. Fails as if out of memory at
/// 2^32 bytes of names.
pub(crate) fn built(
    alloc: Global,
    expanded: &Expanded,
    spec: &TypedSpec,
    columns: &Columns,
) -> Result<Checked, BuildFault>
    requires columns { AreColumnsFor (length (declared (spec_shape spec.now))) columns.now }
    requires unfolded { IsUnfolded (declared (spec_shape spec.now)) expanded.now }
    ensures image { IfOk result (λ checked. checked
        ≡ image columns.now (declared (spec_shape spec.now)) (asked expanded.now)) }
    ensures within { OnOk result (IsWithinLimits (over_columns columns.now (asked expanded.now))) }
    ensures refused { IfErr result (IsReason (over_columns columns.now (asked expanded.now))) }
    ensures names { IfOk result NamesFit }
{
    let checked = build(alloc, expanded, signals_of(spec), columns)?;
    if !are_countable(checked.program()) {
        return Err(BuildFault::Memory);
    }
    Ok(checked)
}
