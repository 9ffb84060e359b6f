//! Entries of a program file: instructions, outputs and signals, each with a fixed number of bytes.

ghost use Rattle.std.specs.Prelude.{◌≡◌, ◌≤◌, ◌<◌, ◌+◌, ◌*◌, ◌^◌, ℕ, List as Items, Option, length, IfOk};
ghost use Rattle.obs_binary.specs.Layout.{entry, constant};
ghost use Rattle.obs_binary.specs.Reading.{GivesReading, first_other, entry_at, each_at};

use crate::fault::ReadFault;
use byteorder::{ByteOrder, LittleEndian};
use mltl_base::List;
use std::alloc::Global;

/// A value that an entry of a program file holds.
pub(crate) trait Entry: Sized + Drop {
    // The number of bytes of an entry.
    ghost LEN: { ℕ };

    // The bytes of the entry that holds a value.
    ghost spelled: { Self → Items ℕ };

    // The value that the opcode and the fields of an entry give, whatever its other bytes are.
    ghost content: { Items ℕ → Option Self };

    /// The number of bytes of an entry.
    const LEN: usize;

    /// Returns the value that the opcode and the fields give, or `None` if no such opcode exists in
    /// the part.
    fn content(bytes: &[u8]) -> Option<Self>
        requires { length bytes.now ≡ LEN }
        ensures { result ≡ content bytes.now };

    /// Returns the offset of the first byte of the entry that isn't as it must be. The entry starts
    /// at `offset`.
    fn first_other(&self, offset: u64, bytes: &[u8]) -> Option<u64>
        requires len { length bytes.now ≡ LEN }
        requires offset { offset + length bytes.now < 2 ^ 64 }
        ensures { result ≡ first_other offset (spelled self.now) bytes.now };
}

/// Returns the bytes of an entry with five numbers.
#[tactic(auto, unfolding(crate::specs::Layout::u32_bytes))]
pub(crate) fn entry_bytes(opcode: u8, second: u8, numbers: &[u32; 5]) -> [u8; 24]
    ensures { result ≡ entry opcode second numbers.now }
{
    let mut bytes = [0; 24];
    bytes[0] = opcode;
    bytes[1] = second;
    LittleEndian::write_u32_into(numbers, &mut bytes[4..]);
    bytes
}

/// Returns the bytes of a constant.
#[tactic(auto, unfolding(crate::specs::Layout::u32_bytes, crate::specs::Layout::i64_bytes))]
pub(crate) fn constant_bytes(value: i64) -> [u8; 24]
    ensures { result ≡ constant value }
{
    let mut bytes = [0; 24];
    bytes[0] = 0x03;
    LittleEndian::write_i64(&mut bytes[8..], value);
    bytes
}

/// Returns the offset of the first byte that isn't as in `musts`. The bytes start at `offset`.
pub(crate) fn first_other(offset: u64, musts: &[u8], bytes: &[u8]) -> Option<u64>
    requires len { length musts.now ≡ length bytes.now }
    requires offset { offset + length bytes.now < 2 ^ 64 }
    ensures { result ≡ first_other offset musts.now bytes.now }
{
    for (i, must) in musts.iter().enumerate() {
        if bytes[i] != *must {
            return Some(offset + i as u64);
        }
    }
    None
}

/// Reads the entry at the start of the rest of a file of `size` bytes, and returns the bytes after
/// it.
#[tactic(auto, unfolding(crate::specs::Reading::entry_at))]
fn read_entry<X: Entry>(size: usize, rest: &[u8]) -> Result<(X, &[u8]), ReadFault>
    requires enough { X.LEN ≤ length rest.now }
    requires within { length rest.now ≤ size }
    ensures read { GivesReading (λ x. (x.0, x.1.now)) result
        (entry_at X.LEN X.spelled X.content size rest.now) }
    ensures left { IfOk result (λ x. length x.1.now + X.LEN ≡ length rest.now) }
{
    let offset = (size - rest.len()) as u64;
    let (front, after) = rest.split_at(X::LEN);
    let Some(held) = X::content(front) else {
        return Err(ReadFault::Opcode(offset));
    };
    match held.first_other(offset, front) {
        Some(at) => Err(ReadFault::Reserved(at)),
        None => Ok((held, after)),
    }
}

/// Reads `count` entries at the start of the rest of a file of `size` bytes, and returns the bytes
/// after them.
pub(crate) fn entries<X: Entry>(
    alloc: Global,
    count: u32,
    size: usize,
    bytes: &[u8],
) -> Result<(List<X>, &[u8]), ReadFault>
    requires enough { X.LEN * count ≤ length bytes.now }
    requires within { length bytes.now ≤ size }
    ensures read { GivesReading (λ x. (x.0, x.1.now)) result
        (each_at (entry_at X.LEN X.spelled X.content size) count bytes.now) }
    ensures count { IfOk result (λ x. length x.0 ≡ count) }
    ensures left { IfOk result (λ x. length x.1.now + X.LEN * count ≡ length bytes.now) }
{
    let mut found = List::room_for(alloc, count as usize)?;
    let mut rest = bytes;
    for _ in 0..count {
        let (entry, after) = read_entry(size, rest)?;
        found.push_reserved(entry);
        rest = after;
    }
    Ok((List::of(found), rest))
}
