//! Stored signals: each has a column of a row, and no two share a column or a name.

ghost use Rattle.std.specs.Prelude.{◌≡◌, ◌==◌, ◌≤◌, ◌<◌, nat_lt, ◌&&◌, vec_len, ◌^◌, ◌++◌, ◌∷◌, [], ◌||◌, ℕ, List, length, not, true, IfOk, OnOk};
ghost use Rattle.std.specs.Bool.{OnTrue};
ghost use Rattle.std.specs.List.{list_any};
ghost use Rattle.std.specs.Str.{bytes_eq};
ghost use Rattle.mltl_base.specs.declared.program.StoredSignal.{StoredSignal as Stored};
ghost use Rattle.obs_verify.specs.declared.fault.VerifyFault.TheVariants.{Signal};
ghost use Rattle.obs_verify.specs.Kinds.{AreKinds, AreNames, has_name};
ghost use Rattle.obs_verify.specs.WellFormed.{IsAnswer, first_in, is_new_signal, signal_fault, unless};

use crate::fault::VerifyFault;
use mltl_base::{Name, Program, StoredSignal};
use std::alloc::{AllocError, Global};
use std::collections::BTreeSet;

/// The kinds of the stored signals in a column.
#[derive(Clone, Copy)]
pub struct Kinds {
    pub whole: bool,
    pub truth: bool,
}

/// Adds a name to a set. Returns true if it is new.
fn insert_name(
    alloc: Global,
    names: &mut BTreeSet<Vec<u8>>,
    name: &Name,
) -> Result<bool, AllocError>
    ensures new { IfOk result (λ new. new ≡ not (has_name names.old name.now)) }
    ensures grown { IfOk result (λ new. new ≡ true
        → (bytes : List ℕ) → has_name names.new bytes
        ≡ (bytes_eq bytes name.now || has_name names.old bytes)) }
{
    let key = Vec::from_slice(alloc, name.bytes())?;
    let is_new = names.insert(key)?;
    Ok(is_new)
}

/// Checks that stored signals have columns of a row, and that no column or name is used twice.
/// Returns the kinds of each column.
pub fn check_signals(alloc: Global, program: &Program) -> Result<Vec<Kinds>, VerifyFault>
    requires few { length program.now.signals < 2 ^ 32 }
    ensures answer { IsAnswer result (first_in (signal_fault program.now) 0 program.now.signals) }
    ensures long { IfOk result (λ kinds. vec_len kinds ≡ program.now.width) }
    ensures kinds { IfOk result (λ kinds. AreKinds program.now.signals kinds.items) }
{
    let none = Kinds {
        whole: false,
        truth: false,
    };
    let mut kinds = vec![in alloc; none; program.width as usize]?;
    note_signals(alloc, program, &mut kinds)?;
    Ok(kinds)
}

fn note_signals(alloc: Global, program: &Program, kinds: &mut [Kinds]) -> Result<(), VerifyFault>
    requires few { length program.now.signals < 2 ^ 32 }
    requires same { length kinds.old ≡ program.now.width }
    requires none { AreKinds [] kinds.old }
    ensures answer { IsAnswer result (first_in (signal_fault program.now) 0 program.now.signals) }
    ensures kinds { OnOk result (AreKinds program.now.signals kinds.new) }
{
    let mut names = BTreeSet::new(alloc);
    for (k, signal) in program.signals.as_slice().iter().enumerate() {
        check_signal(alloc, kinds, &mut names, k as u32, signal)?;
        note_kind(kinds, signal.column, signal.truth);
    }
    Ok(())
}

/// Checks that a signal is new among the signals before, and adds its name to their names.
fn check_signal(
    alloc: Global,
    kinds: &[Kinds],
    names: &mut BTreeSet<Vec<u8>>,
    k: u32,
    signal: &StoredSignal,
) -> Result<(), VerifyFault>
    ensures answer { (earlier : List Stored) → AreKinds earlier kinds.now
        → AreNames earlier names.old
        → IsAnswer result
        (unless (is_new_signal (length kinds.now) earlier signal.now) (Signal k)) }
    ensures names { OnOk result ((earlier : List Stored) → AreNames earlier names.old
        → AreNames (earlier ++ signal.now ∷ []) names.new) }
    ensures column { OnOk result (signal.now.column < length kinds.now) }
{
    if !is_free(kinds, signal) {
        return Err(VerifyFault::Signal(k));
    }
    if !insert_name(alloc, names, &signal.name)? {
        return Err(VerifyFault::Signal(k));
    }
    Ok(())
}

/// Returns true if the column of a signal is in a row and no earlier signal has it.
fn is_free(kinds: &[Kinds], signal: &StoredSignal) -> bool
    ensures free { (earlier : List Stored) → AreKinds earlier kinds.now
        → result ≡ (nat_lt signal.now.column (length kinds.now)
        && not (list_any (λ before. before.column == signal.now.column) earlier)) }
    ensures column { OnTrue result (signal.now.column < length kinds.now) }
{
    if signal.column as usize >= kinds.len() {
        return false;
    }
    is_empty(kinds[signal.column as usize])
}

/// Returns true if the column has no signal.
pub fn is_empty(kinds: Kinds) -> bool
    ensures { result ≡ (not kinds.whole && not kinds.truth) }
{
    !kinds.whole && !kinds.truth
}

/// Notes a signal of this kind in a column.
pub fn note_kind(kinds: &mut [Kinds], column: u32, truth: bool)
    requires { column < length kinds.old }
    ensures { (earlier : List Stored) (signal : Stored) → AreKinds earlier kinds.old
        → signal.column ≡ column → signal.truth ≡ truth
        → AreKinds (earlier ++ signal ∷ []) kinds.new }
{
    let here = kinds[column as usize];
    kinds[column as usize] = Kinds {
        whole: here.whole || !truth,
        truth: here.truth || truth,
    };
}
