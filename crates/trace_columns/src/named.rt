//! Signals by their names.

ghost use Rattle.std.specs.Prelude.{◌≡◌, ℕ, List};

use mltl_base::{Name, Signal, StoredSignal};

/// A signal that a header may name.
pub(crate) trait Named {
    ghost name_of: { Self → List ℕ };

    /// Returns the name.
    fn name(&self) -> &Name
        ensures { result.now ≡ name_of self.now };
}

impl Named for Signal {
    ghost name_of = { λ signal. signal.name };

    fn name(&self) -> &Name {
        &self.name
    }
}

impl Named for StoredSignal {
    ghost name_of = { λ signal. signal.name };

    fn name(&self) -> &Name {
        &self.name
    }
}
