//! The program of a checked specification in simplified form.

ghost use Rattle.std.specs.Prelude.{◌≡◌, ◌<◌, ◌^◌, None, length, if◌then◌else◌, nat_le, IfErr, IfOk, OnOk};
ghost use Rattle.c2po_ast.specs.ItemShape.{spec_shape};
ghost use Rattle.c2po_types.specs.Signals.{signals_of as declared};
ghost use Rattle.obs_binary.specs.Names.{NamesFit};
ghost use Rattle.c2po_types.specs.Outputs.{outputs_of};
ghost use Rattle.c2po_compile.specs.Refusals.{IsFirstRefusal};
ghost use Rattle.c2po_compile.specs.Compiled.{limit_over};
ghost use Rattle.c2po_compile.specs.Image.{AreColumnsFor};
ghost use Rattle.c2po_compile.specs.Simplified.{simplify_over, slots_in};

use crate::program::{back_of, built};
use crate::{BuildFault, CompileFault};
use c2po_types::TypedSpec;
use delay_sizes::slot_count;
use mltl_base::Columns;
use mltl_simplify::simplify;
use obs_verify::Checked;
use set_expand::expand;
use std::alloc::Global;

/// Returns the simplified program if it has no more slots and boxes than the plain program, else
/// the plain program.
fn smaller(simple: Checked, plain: Checked) -> Checked
    requires simple { slots_in simple < 2 ^ 64 }
    requires plain { slots_in plain < 2 ^ 64 }
    ensures { result ≡ (if nat_le (slots_in simple) (slots_in plain) then simple else plain) }
{
    let fits = slot_count(&simple.program().sizes) <= slot_count(&plain.program().sizes);
    if fits {
        drop(plain);
        simple
    } else {
        drop(simple);
        plain
    }
}

/// Returns the image of a specification in simplified form, over the columns of its signals. If
/// that form exceeds a limit or needs more slots and boxes, it is the image that
/// [`back`](crate::back) makes.
///
/// Errors: as in `back`.
pub fn back_simple(
    alloc: Global,
    spec: &TypedSpec,
    columns: &Columns,
) -> Result<Checked, CompileFault>
    requires columns { AreColumnsFor (length (declared (spec_shape spec.now))) columns.now }
    ensures image { IfOk result (λ checked. checked
        ≡ simplify_over columns.now
        (declared (spec_shape spec.now)) (outputs_of (spec_shape spec.now))) }
    ensures within { OnOk result (limit_over columns.now (spec_shape spec.now) ≡ None) }
    ensures refused { IfErr result
        (IsFirstRefusal (limit_over columns.now (spec_shape spec.now))) }
    ensures names { IfOk result NamesFit }
{
    let unfolded = expand(alloc, spec)?;
    let plain = back_of(alloc, &unfolded, spec, columns)?;
    let simple = simplify(alloc, &unfolded)?;
    drop(unfolded);
    let made = built(alloc, &simple, spec, columns);
    drop(simple);
    match made {
        Ok(simple) => Ok(smaller(simple, plain)),
        Err(fault) => match fault {
            BuildFault::Memory => Err(CompileFault::Memory),
            // The simplified form exceeds a limit.
            _ => Ok(plain),
        },
    }
}
