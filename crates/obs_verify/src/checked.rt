//! Programs that passed the verifier.

ghost use Rattle.std.specs.Prelude.{◌≡◌, ◌≤◌, ◌<◌, [], None, All, IfOk, IfErr, OnOk, length, slice_index_or};
ghost use Rattle.mltl_base.specs.Queues.{best_delays, worst_delays};
ghost use Rattle.obs_verify.specs.Bound.{AreDifferent, bound};
ghost use Rattle.obs_verify.specs.Layout.{HasLayout};
ghost use Rattle.obs_verify.specs.SignalNumbers.{signals_read};
ghost use Rattle.obs_verify.specs.Upgrade.{NamesClash, clash_of, first_clash, raised, reads, signals_below, up};
ghost use Rattle.obs_verify.specs.WellFormed.{IsAnswer, IsWellFormed, first_fault};

use crate::columns::{move_reads, move_signals};
use crate::fault::{UpgradeFault, VerifyFault};
use crate::reads::read_signals;
use crate::rules::check_rules;
use crate::signal_numbers::signal_numbers_of;
use delay_sizes::Delays;
use mltl_base::limits::{MAX_DELAY, MAX_SIGNALS};
use mltl_base::{Columns, List, Program, StoredSignal};
use std::alloc::{AllocError, Global};
use std::marker::Model;

/// A well-formed program with its delays and, for each instruction of the Booleanizer, the number
/// of the stored signal that it reads. Contracts see the program.
#[derive(Drop)]
pub struct Checked {
    program: Program,
    delays: Delays,
    signal_numbers: List<Option<u32>>,
}

impl Model for Checked {
    ghost use Rattle.std.specs.Prelude.{◌≡◌, ◌≤◌, All};
    ghost use Rattle.mltl_base.specs.declared.program.Program.{Program as Instructions};
    ghost use Rattle.mltl_base.specs.Queues.{best_delays, worst_delays};
    ghost use Rattle.obs_verify.specs.Kept.{IsKept};

    ghost Value = { Instructions };

    ghost view = { λ checked. checked.program };

    ghost invariant = { λ checked. IsKept checked.program checked.delays.best checked.delays.worst checked.signal_numbers };
}

impl Checked {
    /// Makes a checked program of a well-formed one and the delays of its future-time instructions.
    /// No rule is checked again.
    pub fn of(alloc: Global, program: Program, delays: Delays) -> Result<Checked, AllocError>
        requires layout { HasLayout program }
        requires well_formed { IsWellFormed program }
        requires best { delays.best ≡ best_delays program.ft }
        requires worst { delays.worst ≡ worst_delays program.ft }
        requires in_time { All (λ rows. rows ≤ MAX_DELAY) delays.worst }
        ensures { IfOk result (λ checked. checked ≡ program) }
    {
        let signal_numbers = signal_numbers_of(alloc, &program)?;
        Ok(Checked {
            program,
            delays,
            signal_numbers,
        })
    }

    /// Returns the program.
    pub fn program(&self) -> &Program
        ensures program { result.now ≡ self.now }
        ensures well_formed { IsWellFormed self.now }
        ensures layout { HasLayout self.now }
    {
        &self.program
    }

    /// Returns the delays of its future-time instructions.
    pub fn delays(&self) -> &Delays
        ensures best { result.now.best ≡ best_delays self.now.ft }
        ensures worst { result.now.worst ≡ worst_delays self.now.ft }
        ensures in_time { All (λ rows. rows ≤ MAX_DELAY) result.now.worst }
    {
        &self.delays
    }

    /// Returns the number of the stored signal that instruction `i` of the Booleanizer reads, if
    /// any.
    pub fn signal_number(&self, i: usize) -> Option<u32>
        ensures { result ≡ slice_index_or (signals_read self.now) i None }
    {
        match self.signal_numbers.as_slice().get(i) {
            Some(number) => *number,
            None => None,
        }
    }
}

/// Checks a program. Returns the checked program, or drops it and returns its first fault.
pub fn verify(alloc: Global, program: Program) -> Result<Checked, VerifyFault>
    requires { HasLayout program }
    ensures answer { IsAnswer result (first_fault program) }
    ensures kept { IfOk result (λ checked. checked ≡ program) }
{
    let delays = check_rules(alloc, &program)?;
    Ok(Checked::of(alloc, program, delays)?)
}

/// Moves signal k to column k of the list, in its entry and in the instructions that read it, in
/// one pass over both. Does not allocate.
pub fn rebind(checked: Checked, columns: &Columns) -> Checked
    requires version { checked.version ≡ 2 }
    requires one_each { length columns.now.of_signal ≡ length checked.signals }
    requires below { All (λ column. column < columns.now.width) columns.now.of_signal }
    requires different { AreDifferent columns.now.of_signal }
    requires narrow { columns.now.width ≤ MAX_SIGNALS }
    ensures { result ≡ bound checked columns.now.width columns.now.of_signal }
{
    let Checked {
        mut program,
        delays,
        signal_numbers,
    } = checked;
    let places = columns.of_signal.as_slice();
    move_reads(&mut program, signal_numbers.as_slice(), places);
    move_signals(&mut program.signals, places);
    program.width = columns.width;
    Checked {
        program,
        delays,
        signal_numbers,
    }
}

/// Returns the program in version 2: a program of version 1 gets a stored signal for each column
/// that an instruction reads. If a column is read as both kinds, fails and drops the program.
pub fn upgrade(alloc: Global, checked: Checked) -> Result<Checked, UpgradeFault>
    ensures up { IfOk result (λ upgraded. upgraded ≡ up checked) }
    ensures one_way { OnOk result (clash_of checked ≡ None) }
    ensures both { IfErr result (λ fault. NamesClash fault (clash_of checked)) }
{
    if checked.program().version == 2 {
        return Ok(checked);
    }
    let program = checked.program();
    let signals = read_signals(alloc, program.bz.as_slice(), program.width)?;
    let upgraded = with_signals(alloc, checked, signals)?;
    Ok(upgraded)
}

/// Returns the program in version 2, with these signals.
fn with_signals(
    alloc: Global,
    checked: Checked,
    signals: List<StoredSignal>,
) -> Result<Checked, AllocError>
    requires signals { signals ≡ signals_below checked.width (reads checked.bz) }
    requires one_way { first_clash [] checked.bz ≡ None }
    ensures { IfOk result (λ upgraded. upgraded ≡ raised checked) }
{
    let Checked {
        mut program,
        delays,
        ..
    } = checked;
    program.version = 2;
    program.signals = signals;
    let signal_numbers = signal_numbers_of(alloc, &program)?;
    Ok(Checked {
        program,
        delays,
        signal_numbers,
    })
}
