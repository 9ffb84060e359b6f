//! The stored signals that the instructions of a program read.

ghost use Rattle.std.specs.Prelude.{◌≡◌, ◌<◌, ◌^◌, ℕ, None, All, List as Items, IfOk, length, slice_index_or, vec_len};
ghost use Rattle.mltl_base.specs.declared.program.StoredSignal.{StoredSignal as Stored};
ghost use Rattle.obs_verify.specs.SignalNumbers.{signal_in, signal_read, signals_read};
ghost use Rattle.obs_verify.specs.Reading.{ReadsWithin};

use mltl_base::{BzOp, List, Program, StoredSignal};
use std::alloc::{AllocError, Global};

/// Returns, for each instruction of the Booleanizer, the number of the stored signal that it reads,
/// if any.
pub fn signal_numbers_of(alloc: Global, program: &Program) -> Result<List<Option<u32>>, AllocError>
    requires few { length program.now.signals < 2 ^ 32 }
    requires signals { All (λ signal. signal.column < program.now.width) program.now.signals }
    requires reads { All (ReadsWithin program.now.width) program.now.bz }
    ensures { IfOk result (λ signal_numbers. signal_numbers ≡ signals_read program.now) }
{
    let numbers = numbers_by_column(alloc, program.signals.as_slice(), program.width)?;
    let mut signal_numbers = List::new(alloc);
    for op in program.bz.as_slice() {
        signal_numbers.push(signal_number(&numbers, op))?;
    }
    Ok(signal_numbers)
}

/// Returns, for each column of a row, the number of the first signal there, if any.
fn numbers_by_column(
    alloc: Global,
    signals: &[StoredSignal],
    width: u32,
) -> Result<Vec<Option<u32>>, AllocError>
    requires few { length signals.now < 2 ^ 32 }
    requires within { All (λ signal. signal.column < width) signals.now }
    ensures long { IfOk result (λ numbers. vec_len numbers ≡ width) }
    ensures told { IfOk result (λ numbers. (c : ℕ) → c < width
        → slice_index_or numbers.items c None ≡ signal_in signals.now c) }
{
    let mut numbers = vec![in alloc; None; width as usize]?;
    for (k, signal) in signals.iter().enumerate() {
        let c = signal.column as usize;
        if numbers[c].is_none() {
            numbers[c] = Some(k as u32);
        }
    }
    Ok(numbers)
}

/// Returns the number of the signal that an instruction reads, given the number of the signal in
/// each column.
fn signal_number(numbers: &[Option<u32>], op: &BzOp) -> Option<u32>
    requires { ReadsWithin (length numbers.now) op.now }
    ensures { (signals : Items Stored)
        → ((c : ℕ) → c < length numbers.now
        → slice_index_or numbers.now c None ≡ signal_in signals c)
        → result ≡ signal_read signals op.now }
{
    match *op {
        BzOp::Column(c) | BzOp::IsTrue(c) => numbers[c as usize],
        _ => None,
    }
}
