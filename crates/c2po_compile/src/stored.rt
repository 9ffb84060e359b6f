//! The signals that a program stores.

ghost use Rattle.std.specs.Prelude.{◌≡◌, length, IfOk};
ghost use Rattle.c2po_compile.specs.Images.{stored_signals};

use mltl_base::{List, Signal, StoredSignal};
use std::alloc::{AllocError, Global};

/// Returns each signal with its column, in the order of declaration.
pub fn store_signals(
    alloc: Global,
    signals: &[Signal],
    columns: &[u32],
) -> Result<List<StoredSignal>, AllocError>
    requires { length columns.now ≡ length signals.now }
    ensures { IfOk result (λ list. list ≡ stored_signals signals.now columns.now) }
{
    let mut list = List::new(alloc);
    for (k, signal) in signals.iter().enumerate() {
        list.push(StoredSignal {
            name: signal.name.copy(),
            truth: signal.truth,
            column: columns[k],
        })?;
    }
    Ok(list)
}
