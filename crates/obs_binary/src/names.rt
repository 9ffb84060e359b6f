//! Names of outputs and signals, which follow all entries.

ghost use Rattle.std.specs.Prelude.{◌≡◌, ◌<◌, ◌^◌, ℕ, List as Items, length, MatchOption, false, true, take, drop};
ghost use Rattle.std.specs.List.{list_all};
ghost use Rattle.mltl_base.specs.Letters.{is_in_word};
ghost use Rattle.obs_binary.specs.Reading.{GivesReading, is_name_in_front, named};
ghost use Rattle.obs_binary.specs.declared.fault.ReadFault.{ReadFault};

use crate::fault::ReadFault;
use mltl_base::name::is_in_word;
use mltl_base::{List, Name};
use std::alloc::Global;

/// The fields of an entry, without its name.
pub(crate) trait Head: Sized {
    /// The output or the signal with its name.
    type Whole: Drop;

    // The length of the name.
    ghost name_len: { Self → ℕ };

    // The head with its name.
    ghost with_name: { Self → Items ℕ → Self.Whole };

    // The fault of the name of head `k`, counted from 0.
    ghost fault: { ℕ → ReadFault };

    /// Returns the length of the name.
    fn name_len(&self) -> usize
        ensures { result ≡ name_len self.now };

    /// Returns the output or the signal with its name.
    fn with_name(&self, name: Name) -> Self::Whole
        ensures { result ≡ with_name self.now name };

    /// Returns the fault of the name of head `k`.
    fn fault(k: u32) -> ReadFault
        ensures { result ≡ fault k };
}

fn all_letters(bytes: &[u8]) -> bool
    ensures { result ≡ list_all is_in_word bytes.now }
{
    bytes.iter().all(|byte| is_in_word(*byte))
}

/// Returns the name of `len` bytes at the start, and the bytes after it, or `None` if there is no
/// name of that length.
fn name_in_front(len: usize, bytes: &[u8]) -> Option<(Name, &[u8])>
    ensures { MatchOption result (is_name_in_front len bytes.now ≡ false)
        (λ found. (is_name_in_front len bytes.now ≡ true)
        × (found.0 ≡ take len bytes.now) × (found.1.now ≡ drop len bytes.now)) }
{
    if bytes.len() < len {
        return None;
    }
    let (front, after) = bytes.split_at(len);
    if !all_letters(front) {
        return None;
    }
    let name = Name::of(front)?;
    Some((name, after))
}

/// Adds names to the heads. The names must take all bytes.
pub(crate) fn named<H: Head>(
    alloc: Global,
    heads: &[H],
    names: &[u8],
) -> Result<List<H::Whole>, ReadFault>
    requires { length heads.now < 2 ^ 32 }
    ensures { GivesReading (λ wholes. wholes) result
        (named H.name_len H.with_name H.fault 0 heads.now names.now) }
{
    let mut wholes = List::room_for(alloc, heads.len())?;
    let mut rest = names;
    for (k, head) in heads.iter().enumerate() {
        let Some((name, after)) = name_in_front(head.name_len(), rest) else {
            return Err(H::fault(k as u32));
        };
        wholes.push_reserved(head.with_name(name));
        rest = after;
    }
    if !rest.is_empty() {
        return Err(H::fault(heads.len() as u32));
    }
    Ok(List::of(wholes))
}
