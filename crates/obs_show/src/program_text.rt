//! A program as text, within the limits of a specification.

ghost use Rattle.std.specs.Prelude.{◌≡◌, ◌≢◌, IfErr, IfOk, None, OnOk, Some};
ghost use Rattle.obs_show.specs.Limits.{show_fault};
ghost use Rattle.obs_show.specs.Text.{text as text_of};

use crate::fault::ShowFault;
use crate::text::write;
use crate::weights::weight;
use mltl_base::limits::MAX_WEIGHT;
use obs_verify::Checked;
use std::alloc::Global;

/// Returns a program as the text of a specification: a line for each signal, for each operation of
/// each part, which gets a defined name, and for each output.
///
/// # Errors
///
/// The text has more than 1,048,576 bytes, else the outputs weigh more than 65,536, or out of
/// memory.
pub fn show(alloc: Global, checked: &Checked) -> Result<Vec<u8>, ShowFault>
    requires version { checked.now.version ≡ 2 }
    ensures text { IfOk result (λ bytes. bytes.items ≡ text_of checked.now) }
    ensures fits { OnOk result (show_fault checked.now ≡ None) }
    ensures fault { IfErr result (λ fault. fault ≢ ShowFault.Memory
        → show_fault checked.now ≡ Some fault) }
{
    let bytes = write(alloc, checked)?;
    if weight(alloc, checked)? > MAX_WEIGHT {
        return Err(ShowFault::Wide);
    }
    Ok(bytes)
}
