//! Members of a program with a line in its text: signals, instructions and outputs.

ghost use Rattle.std.specs.Prelude.{◌≡◌, ◌++◌, ◌<◌, ℕ, List, OnOk, length};
ghost use Rattle.mltl_base.specs.declared.program.Program.{Program as Observer};
ghost use Rattle.obs_show.specs.Showing.{NamesAll};

use crate::instruction_names::Naming;
use obs_verify::Checked;
use std::alloc::AllocError;

/// A member of a program. An instruction has a line only if it is an operation.
pub(crate) trait Shown {
    ghost members: { Observer → List Self };

    ghost bytes: { Observer → ℕ → Self → List ℕ };

    /// Adds the line of the member with this number.
    fn add_line(
        &self,
        text: &mut Vec<u8>,
        checked: &Checked,
        naming: &Naming,
        k: usize,
    ) -> Result<(), AllocError>
        requires names { NamesAll checked.now naming.now }
        requires there { k < length (members checked.now) }
        ensures { OnOk result (text.new.items ≡ text.old.items ++ bytes checked.now k self.now) };
}
