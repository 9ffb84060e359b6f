//! Little-endian numbers of a program file.

ghost use Rattle.std.specs.Prelude.{◌≡◌, ◌≤◌, ◌+◌, length};
ghost use Rattle.obs_binary.specs.Reading.{u32_from, signed_at, short_at};

use byteorder::{ByteOrder, LittleEndian};

/// Returns the unsigned number of 32 bits at an offset.
pub fn u32_at(bytes: &[u8], at: usize) -> u32
    requires { at + 4 ≤ length bytes.now }
    ensures { result ≡ u32_from bytes.now at }
{
    LittleEndian::read_u32(&bytes[at..])
}

/// Returns the signed number of 64 bits at an offset.
pub fn i64_at(bytes: &[u8], at: usize) -> i64
    requires { at + 8 ≤ length bytes.now }
    ensures { result ≡ signed_at bytes.now at }
{
    LittleEndian::read_i64(&bytes[at..])
}

/// Returns the unsigned number of 16 bits at an offset.
pub(crate) fn u16_at(bytes: &[u8], at: usize) -> u16
    requires { at + 2 ≤ length bytes.now }
    ensures { result ≡ short_at bytes.now at }
{
    LittleEndian::read_u16(&bytes[at..])
}
