//! The text of a program, part by part.

ghost use Rattle.std.specs.Prelude.{◌≡◌, ◌≢◌, ◌≤◌, ◌<◌, IfOk, IfErr, OnOk, length};
ghost use Rattle.obs_show.specs.declared.fault.ShowFault.TheVariants.{Memory, TooLong};
ghost use Rattle.obs_show.specs.Showing.{NamesAll};
ghost use Rattle.obs_show.specs.Text.{text as text_of};
ghost use Rattle.obs_show.specs.Writing.{Adds, written};

use crate::fault::ShowFault;
use crate::instruction_names::Naming;
use crate::shown::Shown;
use mltl_base::limits::MAX_SHOWN_BYTES;
use obs_verify::Checked;
use std::alloc::Global;

/// Returns the text of a program, if it isn't too long.
pub(crate) fn write(alloc: Global, checked: &Checked) -> Result<Vec<u8>, ShowFault>
    ensures text { IfOk result (λ bytes. bytes.items ≡ text_of checked.now) }
    ensures short { OnOk result (length (text_of checked.now) ≤ MAX_SHOWN_BYTES) }
    ensures fault { IfErr result (λ fault. fault ≢ Memory
        → (fault ≡ TooLong) × (MAX_SHOWN_BYTES < length (text_of checked.now))) }
{
    let program = checked.program();
    let naming = Naming::of(alloc, program)?;
    let mut text = Vec::new(alloc);
    add_all(&mut text, checked, &naming, program.signals.as_slice())?;
    add_all(&mut text, checked, &naming, program.bz.as_slice())?;
    add_all(&mut text, checked, &naming, program.ft.as_slice())?;
    add_all(&mut text, checked, &naming, program.pt.as_slice())?;
    add_all(&mut text, checked, &naming, program.outs.as_slice())?;
    Ok(text)
}

/// Adds the lines of all members of one kind, unless the text becomes too long.
fn add_all<T: Shown>(
    text: &mut Vec<u8>,
    checked: &Checked,
    naming: &Naming,
    members: &[T],
) -> Result<(), ShowFault>
    requires names { NamesAll checked.now naming.now }
    requires all { members.now ≡ T.members checked.now }
    requires short { length text.old.items ≤ MAX_SHOWN_BYTES }
    ensures { Adds text.old.items result text.new.items
        (written (T.bytes checked.now) 0 (T.members checked.now)) }
{
    for (k, member) in members.iter().enumerate() {
        member.add_line(text, checked, naming, k)?;
        if text.len() > MAX_SHOWN_BYTES {
            return Err(ShowFault::TooLong);
        }
    }
    Ok(())
}
