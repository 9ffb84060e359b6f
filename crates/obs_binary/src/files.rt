//! Opens checked programs from bytes, and writes them.

ghost use Rattle.std.specs.Prelude.{◌≡◌, IfOk, OnOk};
ghost use Rattle.obs_binary.specs.Layout.{IsEncodable, spelling};
ghost use Rattle.obs_verify.specs.WellFormed.{IsWellFormed};
ghost use Rattle.obs_binary.specs.Faults.{ReturnsOpened, opened};
ghost use Rattle.obs_binary.specs.Names.{NamesFit};

use crate::{FileFault, read_program, write_program};
use obs_verify::{Checked, verify};
use std::alloc::{AllocError, Global};

/// Returns the checked program that these bytes spell.
///
/// Errors: the first fault of the bytes, in the order of `read_program`, else the first fault of
/// the program, in the order of `verify`; `Memory` when out of memory.
pub fn open(alloc: Global, bytes: &[u8]) -> Result<Checked, FileFault>
    // The result is the program or the first fault of the definitions.
    ensures answer { ReturnsOpened result (opened bytes.now) }
    // The bytes are the spelling of the program.
    ensures spelled { IfOk result (λ checked. bytes.now ≡ spelling checked) }
    ensures fits { IfOk result (λ checked. IsEncodable checked) }
    ensures well_formed { IfOk result (λ checked. IsWellFormed checked) }
    ensures names { IfOk result (λ checked. NamesFit checked) }
{
    let program = read_program(alloc, bytes)?;
    let checked = verify(alloc, program)?;
    Ok(checked)
}

/// Returns the bytes of a checked program, in the layout of its version.
pub fn image(alloc: Global, checked: &Checked) -> Result<Vec<u8>, AllocError>
    requires names { NamesFit checked.now }
    ensures written { IfOk result (λ bytes. bytes.items ≡ spelling checked.now) }
    // So opening the bytes gives this program.
    ensures fits { OnOk result (IsEncodable checked.now) }
{
    write_program(alloc, checked.program())
}
