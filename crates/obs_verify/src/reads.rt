//! Stored signals for programs of version 1, one for each column that an instruction reads.

ghost use Rattle.std.specs.Prelude.{◌≡◌, ◌<◌, ◌≤◌, ◌^◌, ◌++◌, ◌∷◌, [], None, List as Items, length, not, All, IfOk, IfErr, OnOk, IsTrue};
ghost use Rattle.mltl_base.specs.declared.operators.BzOp.{BzOp as Op};
ghost use Rattle.mltl_base.specs.declared.program.StoredSignal.{StoredSignal as Stored};
ghost use Rattle.obs_verify.specs.Kinds.{AreKinds};
ghost use Rattle.obs_verify.specs.Reading.{ReadsWithin};
ghost use Rattle.obs_verify.specs.Upgrade.{NamesClash, clashes, first_clash, reads, signal_in as signal_there, signals_below};
ghost use Rattle.obs_verify.specs.WellFormed.{has_kind};

use crate::fault::UpgradeFault;
use crate::signals::{Kinds, is_empty, note_kind};
use mltl_base::{BzOp, List, Name, StoredSignal};
use std::alloc::{AllocError, Global};

/// Returns the signals that the instructions of a program read, by rising column, or the first
/// instruction that reads a column as another kind than an earlier instruction does.
pub fn read_signals(
    alloc: Global,
    ops: &[BzOp],
    width: u32,
) -> Result<List<StoredSignal>, UpgradeFault>
    requires few { length ops.now < 2 ^ 32 }
    requires within { All (ReadsWithin width) ops.now }
    ensures one_way { OnOk result (first_clash [] ops.now ≡ None) }
    ensures signals { IfOk result (λ signals. signals ≡ signals_below width (reads ops.now)) }
    ensures both { IfErr result (λ fault. NamesClash fault (first_clash [] ops.now)) }
{
    let none = Kinds {
        whole: false,
        truth: false,
    };
    let mut kinds = vec![in alloc; none; width as usize]?;
    note_reads(ops, &mut kinds)?;
    let signals = signals_of(alloc, &kinds)?;
    Ok(signals)
}

/// Notes the kind in which instructions read each column, up to the first that differs.
fn note_reads(ops: &[BzOp], kinds: &mut [Kinds]) -> Result<(), UpgradeFault>
    requires few { length ops.now < 2 ^ 32 }
    requires within { All (ReadsWithin (length kinds.old)) ops.now }
    requires none { AreKinds [] kinds.old }
    ensures one_way { OnOk result (first_clash [] ops.now ≡ None) }
    ensures kinds { OnOk result (AreKinds (reads ops.now) kinds.new) }
    ensures both { IfErr result (λ fault. NamesClash fault (first_clash [] ops.now)) }
{
    for (i, op) in ops.iter().enumerate() {
        if !note_read(kinds, op) {
            return Err(UpgradeFault::Both(i as u32));
        }
    }
    Ok(())
}

/// Notes the column that an instruction reads, if any. Returns false if an earlier instruction
/// reads it as the other kind.
fn note_read(kinds: &mut [Kinds], op: &BzOp) -> bool
    requires { ReadsWithin (length kinds.old) op.now }
    ensures fits { (earlier : Items Op) → AreKinds (reads earlier) kinds.old
        → result ≡ not (clashes earlier op.now) }
    ensures noted { (earlier : Items Op) → AreKinds (reads earlier) kinds.old → IsTrue result
        → AreKinds (reads (earlier ++ op.now ∷ [])) kinds.new }
{
    match *op {
        BzOp::Column(c) => note_column(kinds, c, false),
        BzOp::IsTrue(c) => note_column(kinds, c, true),
        _ => true,
    }
}

fn note_column(kinds: &mut [Kinds], c: u32, truth: bool) -> bool
    requires { c < length kinds.old }
    ensures fits { (earlier : Items Stored) → AreKinds earlier kinds.old
        → result ≡ not (has_kind earlier c (not truth)) }
    ensures noted { (earlier : Items Stored) → AreKinds earlier kinds.old → IsTrue result
        → AreKinds (earlier ++ signal_there c truth ∷ []) kinds.new }
{
    let here = kinds[c as usize];
    if (if truth { here.whole } else { here.truth }) {
        return false;
    }
    note_kind(kinds, c, truth);
    true
}

/// Returns the signals of these kinds, one for each column that has a kind.
fn signals_of(alloc: Global, kinds: &[Kinds]) -> Result<List<StoredSignal>, AllocError>
    requires few { length kinds.now < 2 ^ 32 }
    ensures { IfOk result (λ signals. (earlier : Items Stored) → AreKinds earlier kinds.now
        → signals ≡ signals_below (length kinds.now) earlier) }
{
    let mut signals = List::new(alloc);
    for (c, here) in kinds.iter().enumerate() {
        if !is_empty(*here) {
            signals.push(signal_in(alloc, c as u32, here.truth)?)?;
        }
    }
    Ok(signals)
}

/// Returns the signal of a column.
fn signal_in(alloc: Global, column: u32, truth: bool) -> Result<StoredSignal, AllocError>
    ensures { IfOk result (λ signal. signal ≡ signal_there column truth) }
{
    let text = format!(in alloc; "c{column}")?;
    match Name::of(text.as_bytes()) {
        Some(name) => Ok(StoredSignal {
            name,
            truth,
            column,
        }),
        None => unreachable!(),
    }
}
