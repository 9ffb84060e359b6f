//! The outputs of a whole specification as nodes.

ghost use Rattle.std.specs.Prelude.{◌≡◌, ℕ, [], List as Seq, All, None, length, map, IfOk};
ghost use Rattle.mltl_base.specs.declared.operators.CountOp.{CountOp as Op};
ghost use Rattle.mltl_base.specs.Atoms.{Row};
ghost use Rattle.mltl_base.specs.Formula.{Formula};
ghost use Rattle.mltl_base.specs.Meaning.{count, sat};
ghost use Rattle.c2po_ast.specs.ItemShape.{item_shape, spec_shape};
ghost use Rattle.c2po_types.specs.FirstFault.{first_fault};
ghost use Rattle.c2po_types.specs.Signals.{signals_of};
ghost use Rattle.c2po_types.specs.Counting.{compares, counting};
ghost use Rattle.c2po_ast.specs.Faults.{HasRanges};
ghost use Rattle.c2po_ast.specs.Outputs.{IsSound, asked};
ghost use Rattle.c2po_types.specs.Values.{counted_formula};
ghost use Rattle.mltl_base.specs.Kinds.{ReadsSignals, kinds_of};
ghost use Rattle.set_expand.specs.Counts.{CountsBodies};
ghost use Rattle.set_expand.specs.Outputs.{HasPlainName, outputs_of};
ghost use Rattle.set_expand.specs.Unfolded.{Leaves};

use crate::items::Unfolded;
use crate::plan::{deep_items, is_set};
use c2po_ast::{Expanded, Item};
use c2po_types::TypedSpec;
use std::alloc::{AllocError, Global};

/// Returns the names and the outputs after all items.
fn unfold_all<'a>(alloc: Global, items: &'a [Item]) -> Result<Unfolded<'a>, AllocError>
    requires { first_fault (map item_shape items.now) ≡ None }
    ensures { IfOk result (λ u. Leaves u [] (map item_shape items.now)) }
{
    let deep = deep_items(alloc, items)?;
    let mut unfolded = Unfolded::new(alloc);
    for i in 0..items.len() {
        let item = &items[i];
        unfolded = unfolded.after(alloc, item, is_set(&deep, i))?;
    }
    Ok(unfolded)
}

/// Returns the outputs of a specification as nodes, operands before the nodes that use them. Only
/// expressions that an output uses are unfolded. Signals are numbered in the order of declaration.
/// The name of an output without a label is the decimal text of its number, counted from 0.
///
/// Errors: out of memory.
pub fn expand(alloc: Global, spec: &TypedSpec) -> Result<Expanded, AllocError>
    // Each output unfolds to its plain formula.
    ensures unfolds { IfOk result (λ expanded. asked expanded ≡ outputs_of (spec_shape spec.now)) }
    ensures sound { IfOk result
        (λ expanded. IsSound expanded (length (signals_of (spec_shape spec.now)))) }

    // The check of the specification has shown this of its outputs.
    ensures ranged { IfOk result (λ expanded. All HasRanges (asked expanded)) }
    ensures kinds { IfOk result (λ expanded.
        All (ReadsSignals (kinds_of (signals_of (spec_shape spec.now)))) (asked expanded)) }
    ensures named { IfOk result (λ expanded. All HasPlainName (asked expanded)) }

    // An unfolded counting quantifier counts its bodies. Equal bodies count separately.
    ensures counted { IfOk result (λ expanded. All CountsBodies (asked expanded)) }
    ensures counting { (op : Op) (m : ℕ) (bodies : Seq Formula) (rows : Seq Row) (t : ℕ)
        → sat rows (counted_formula bodies (counting op (length bodies) m)) t
        ≡ compares op m (count rows bodies t) }
{
    let unfolded = unfold_all(alloc, spec.tree().items.as_slice())?;
    let Unfolded { nodes, outs, .. } = unfolded;
    if outs.len() > u32::MAX as usize {
        return Err(AllocError);
    }
    Ok(Expanded {
        nodes: nodes.into_list(),
        outs,
    })
}
