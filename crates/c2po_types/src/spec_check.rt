//! The check of a whole specification.

ghost use Rattle.std.specs.Prelude.{◌≡◌, ◌≢◌, None, Some, map, IfOk, IfErr, OnOk};
ghost use Rattle.c2po_ast.specs.Names.{ArePlainItems};
ghost use Rattle.c2po_ast.specs.ItemShape.{item_shape, spec_shape};
ghost use Rattle.c2po_types.specs.FirstFault.{first_fault};
ghost use Rattle.c2po_types.specs.Stepwise.{checked};
ghost use Rattle.c2po_types.specs.Reaching.{Comes};

use crate::progress::Progress;
use crate::{TypeFault, TypedSpec};
use c2po_ast::{Item, SpecTree, copy_tree};
use std::alloc::Global;

/// Returns the state of the check after all items.
fn run(alloc: Global, items: &[Item]) -> Result<Progress, TypeFault>
    ensures { Comes result (checked (map item_shape items.now)) }
{
    let mut progress = Progress::new(alloc);
    for item in items {
        progress.step(alloc, item)?;
    }
    Ok(progress)
}

/// Returns the specification of a tree, if it has no fault.
///
/// Items are taken in the order of the text. In an item names and kinds come first, operands before
/// operators and from left to right; then the weight of the unfolded values, divisors and ranges,
/// and tenses.
///
/// Errors: the first fault with its line; `Memory` when out of memory.
#[tactic(auto, using(crate::proofs::Outcome::no_fault, crate::proofs::Outcome::a_fault))]
pub fn check(alloc: Global, tree: &SpecTree) -> Result<TypedSpec, TypeFault>
    requires plain { ArePlainItems (spec_shape tree.now) }
    ensures unchanged { IfOk result (λ spec. spec_shape spec ≡ spec_shape tree.now) }
    ensures faultless { OnOk result (first_fault (spec_shape tree.now) ≡ None) }
    ensures first { IfErr result
        (λ fault. fault ≢ TypeFault.Memory → first_fault (spec_shape tree.now) ≡ Some fault) }
{
    let progress = run(alloc, tree.items.as_slice())?;
    let copy = copy_tree(alloc, tree)?;
    Ok(TypedSpec::of(copy, progress.declared.signals))
}

/// Returns the specification of a tree that it takes over, if the tree has no fault. The tree isn't
/// copied, so this takes half the memory of [`check`].
///
/// Errors: as in [`check`].
#[tactic(auto, using(crate::proofs::Outcome::no_fault, crate::proofs::Outcome::a_fault))]
pub fn check_owned(alloc: Global, tree: SpecTree) -> Result<TypedSpec, TypeFault>
    requires plain { ArePlainItems (spec_shape tree) }
    ensures unchanged { IfOk result (λ spec. spec ≡ tree) }
    ensures faultless { OnOk result (first_fault (spec_shape tree) ≡ None) }
    ensures first { IfErr result
        (λ fault. fault ≢ TypeFault.Memory → first_fault (spec_shape tree) ≡ Some fault) }
{
    let progress = run(alloc, tree.items.as_slice())?;
    Ok(TypedSpec::of(tree, progress.declared.signals))
}
