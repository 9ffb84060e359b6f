//! Texts in fixed buffers.

ghost use Rattle.std.specs.Prelude.{◌≡◌, ◌+◌, ◌≤◌, ◌++◌, decimal, length};
ghost use Rattle.arrayvec.specs.ArrayVec.{array_vec_len};

use arrayvec::ArrayVec;
use itoa::Buffer;

/// Appends a piece to a text that has room for it.
pub fn add<const CAP: usize>(text: &mut ArrayVec<u8, CAP>, piece: &[u8])
    requires { array_vec_len text.old + length piece.now ≤ CAP }
    ensures items { text.new.items ≡ text.old.items ++ piece.now }
    ensures len { array_vec_len text.new ≡ array_vec_len text.old + length piece.now }
{
    text.try_extend_from_slice(piece).unwrap();
}

/// Appends a number to a text that has room for it.
pub fn add_number<const CAP: usize>(text: &mut ArrayVec<u8, CAP>, n: u64)
    requires { array_vec_len text.old + 20 ≤ CAP }
    ensures items { text.new.items ≡ text.old.items ++ decimal n }
    ensures len { array_vec_len text.new ≤ array_vec_len text.old + 20 }
{
    let mut buffer = Buffer::new();
    add(text, buffer.format(n).as_bytes());
}
