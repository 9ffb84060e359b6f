//! The signals of a checked specification.

ghost use Rattle.std.specs.Prelude.{◌≡◌, ◌≤◌, length};
ghost use Rattle.c2po_ast.specs.ItemShape.{spec_shape};
ghost use Rattle.c2po_ast.specs.Names.{ArePlainItems};
ghost use Rattle.c2po_types.specs.Signals.{signals_of as declared};
ghost use Rattle.mltl_base.specs.Kinds.{HaveOwnNames};

use c2po_types::TypedSpec;
use mltl_base::limits::MAX_SIGNALS;
use mltl_base::{List, Signal};

/// Returns the signals, which have distinct names, in the order of declaration. All names consist
/// of letters, digits and `_`.
pub fn signals_of(spec: &TypedSpec) -> &List<Signal>
    ensures signals { result.now ≡ declared (spec_shape spec.now) }
    ensures named { HaveOwnNames result.now }
    ensures few { length result.now ≤ MAX_SIGNALS }
    ensures plain { ArePlainItems (spec_shape spec.now) }
{
    spec.signals()
}
