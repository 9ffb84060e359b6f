//! Defined names: d0, d1, d2 and so on, except names of signals.

ghost use Rattle.std.specs.Prelude.{◌≡◌, ◌<◌, ◌^◌, ◌++◌, ℕ, List, IfOk, OnOk, decimal, length};
ghost use Rattle.obs_verify.specs.Kinds.{has_name};
ghost use Rattle.obs_show.specs.Naming.{free_numbers as free, is_signal_name, numbered_name};

use itoa::{Buffer, Integer};
use mltl_base::StoredSignal;
use std::alloc::{AllocError, Global};
use std::collections::BTreeSet;

/// Adds the digits of a number.
pub(crate) fn add_number<I: Integer>(text: &mut Vec<u8>, n: I) -> Result<(), AllocError>
    ensures { OnOk result (text.new.items ≡ text.old.items ++ I.text n) }
{
    let mut buffer = Buffer::new();
    text.extend_from_slice(buffer.format(n).as_bytes())
}

/// Adds the defined name with a number.
pub(crate) fn add_name(text: &mut Vec<u8>, n: usize) -> Result<(), AllocError>
    ensures { OnOk result (text.new.items ≡ text.old.items ++ numbered_name n) }
{
    text.extend_from_slice(b"d")?;
    add_number(text, n)
}

/// Returns the names of signals.
fn signal_names(alloc: Global, signals: &[StoredSignal]) -> Result<BTreeSet<Vec<u8>>, AllocError>
    ensures { IfOk result (λ names. (name : List ℕ)
        → has_name names name ≡ is_signal_name signals.now name) }
{
    let mut names = BTreeSet::new(alloc);
    for signal in signals {
        let name = Vec::from_slice(alloc, signal.name.bytes())?;
        names.insert(name)?;
    }
    Ok(names)
}

/// Returns the numbers n for which dn isn't the name of a signal, as many as are needed.
pub(crate) fn free_numbers(
    alloc: Global,
    signals: &[StoredSignal],
    needed: usize,
) -> Result<Vec<usize>, AllocError>
    requires few_signals { length signals.now < 2 ^ 32 }
    requires few_needed { needed < 2 ^ 34 }
    ensures { IfOk result (λ numbers. numbers.items ≡ free signals.now needed) }
{
    let names = signal_names(alloc, signals)?;
    let mut numbers = Vec::new(alloc);
    let mut name = Vec::new(alloc);
    for n in 0..needed + signals.len() {
        name.clear();
        add_name(&mut name, n)?;
        if !names.contains(&name) {
            numbers.push(n)?;
        }
    }
    Ok(numbers)
}
