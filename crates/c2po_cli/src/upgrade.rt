//! The output for a program file: its program in version 2, as bytes or as text.

ghost use Rattle.std.specs.Prelude.{◌≡◌, ◌≢◌, Err, IfErr, IfOk, None, Ok, OnOk};
ghost use Rattle.obs_binary.specs.Faults.{opened};
ghost use Rattle.obs_binary.specs.Names.{NamesFit};
ghost use Rattle.obs_verify.specs.Upgrade.{clash_of, up};
ghost use Rattle.c2po_cli.specs.Made.{Making, made_bytes, opened_as, raised_as, show_status, text_within};
ghost use Rattle.c2po_cli.specs.Phases.{RefusesAlone};
ghost use Rattle.c2po_cli.specs.Upgrading.{IsRaisedFrom, IsUpgraded};

use crate::compiled::written;
use c2po_compile::Refusal;
use mltl_base::Part;
use obs_binary::{ProgramFault, open, upgraded_names_fit};
use obs_show::{ShowFault, show};
use obs_verify::{Checked, UpgradeFault, upgrade};
use std::alloc::Global;
use tool_io::Place;
use tool_words::Status;

/// Raises a program to version 2.
fn raised(alloc: Global, checked: Checked) -> Result<Checked, Status>
    requires names { NamesFit checked }
    ensures made { IfOk result (λ raised. (gives : Making)
        → raised_as gives checked (clash_of checked) ≡ gives raised) }
    ensures up { IfOk result (λ raised. raised ≡ up checked) }
    ensures one_way { OnOk result (clash_of checked ≡ None) }
    ensures version { IfOk result (λ raised. raised.version ≡ 2) }
    ensures names { IfOk result NamesFit }
    ensures refused { IfErr result (λ status. status ≢ Status.Memory →
        (gives : Making) → raised_as gives checked (clash_of checked) ≡ Err status) }
    ensures refuses { IfErr result RefusesAlone }
{
    upgraded_names_fit();
    let _program = checked.program();
    match upgrade(alloc, checked) {
        Ok(checked) => Ok(checked),
        Err(UpgradeFault::Both(i)) => {
            Err(Status::BadProgram(ProgramFault::Operand(Part::Bz, i)))
        }
        Err(UpgradeFault::Memory) => Err(Status::Memory),
    }
}

/// Opens the program of a file, and raises it to version 2.
#[tactic(auto, using(crate::proofs::UpgradedFiles::raised_from))]
fn program_in(alloc: Global, bytes: &[u8]) -> Result<Checked, Status>
    ensures made { IfOk result (λ checked. (gives : Making)
        → opened_as gives (opened bytes.now) ≡ gives checked) }
    ensures raised { IfOk result (IsRaisedFrom bytes.now) }
    ensures version { IfOk result (λ checked. checked.version ≡ 2) }
    ensures names { IfOk result NamesFit }
    ensures refused { IfErr result (λ status. status ≢ Status.Memory →
        (gives : Making) → opened_as gives (opened bytes.now) ≡ Err status) }
    ensures refuses { IfErr result RefusesAlone }
{
    let checked = open(alloc, bytes)?;
    raised(alloc, checked)
}

/// Returns the bytes of the program of a file, in version 2.
pub(crate) fn upgraded_bytes(alloc: Global, bytes: &[u8]) -> Result<Vec<u8>, Status>
    ensures made { IfOk result (λ made. opened_as made_bytes (opened bytes.now) ≡ Ok made.items) }
    ensures upgraded { IfOk result (λ made. IsUpgraded bytes.now made.items) }
    ensures refused { IfErr result (λ status. status ≢ Status.Memory
        → opened_as made_bytes (opened bytes.now) ≡ Err status) }
    ensures refuses { IfErr result RefusesAlone }
{
    let checked = program_in(alloc, bytes)?;
    written(alloc, false, &checked)
}

/// Returns the text of the program of a file, in version 2.
pub(crate) fn shown_text(alloc: Global, bytes: &[u8]) -> Result<Vec<u8>, Status>
    ensures made { IfOk result (λ made. opened_as text_within (opened bytes.now) ≡ Ok made.items) }
    ensures refused { IfErr result (λ status. status ≢ Status.Memory
        → opened_as text_within (opened bytes.now) ≡ Err status) }
    ensures refuses { IfErr result RefusesAlone }
{
    let checked = program_in(alloc, bytes)?;
    text_of(alloc, &checked)
}

/// Returns the text of a program.
fn text_of(alloc: Global, checked: &Checked) -> Result<Vec<u8>, Status>
    requires version { checked.now.version ≡ 2 }
    ensures made { IfOk result (λ made. text_within checked.now ≡ Ok made.items) }
    ensures refused { IfErr result (λ status. status ≢ Status.Memory
        → text_within checked.now ≡ Err status) }
    ensures refuses { IfErr result RefusesAlone }
{
    show(alloc, checked).map_err(status_of_show)
}

fn status_of_show(fault: ShowFault) -> Status
    ensures status { result ≡ show_status fault }
    ensures refuses { RefusesAlone result }
{
    match fault {
        ShowFault::TooLong => Status::TextTooLong(Place::Out),
        ShowFault::Wide => Status::Refused(0, Refusal::Wide),
        ShowFault::Memory => Status::Memory,
    }
}
