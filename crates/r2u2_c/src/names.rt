//! Names in a buffer of C.

ghost use Rattle.std.specs.Prelude.{◌≡◌, ◌↔◌, ◌<◌, ◌≤◌, length};
ghost use Rattle.r2u2_c.specs.Queries.{WritesName, ended};

use crate::fault::fill_front;
use mltl_base::Name;

/// Writes a name to the start of a buffer, and a zero byte after it if there is room for one.
/// Returns the length of the name, or 0 if the buffer is shorter.
pub(crate) fn write_name(name: &Name, buffer: &mut [u8]) -> u32
    ensures named { 0 < result → WritesName name.now result buffer.old buffer.new }
    ensures untold { result ≡ 0 → buffer.new ≡ buffer.old }
    ensures fits { (0 < result) ↔ (length name.now ≤ length buffer.old) }
{
    let bytes = name.bytes();
    if bytes.len() > buffer.len() {
        return 0;
    }
    fill_front(buffer, bytes);
    end_with_zero(&mut buffer[bytes.len()..]);
    bytes.len() as u32
}

/// Writes a zero byte to the front, if there is room.
fn end_with_zero(rest: &mut [u8])
    ensures { rest.new ≡ ended rest.old }
{
    if !rest.is_empty() {
        rest[0] = 0;
    }
}
