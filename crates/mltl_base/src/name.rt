//! Names of signals and outputs.

ghost use Rattle.std.specs.Prelude.{◌≡◌, ◌↔◌, ◌≤◌, ℕ, length, IsSome, IfSome};
ghost use Rattle.mltl_base.specs.Letters.{is_in_word};

use std::marker::Model;

/// The most bytes of a name.
const MOST: usize = 64;

/// A name of 1 to 64 bytes, which contracts see as the list of its bytes. It takes 65 bytes at any
/// address: trees and tokens hold many, and a word for the length would make them an eighth larger.
#[derive(Drop)]
pub struct Name {
    letters: [u8; MOST],
    count: u8,
}

impl Model for Name {
    ghost use Rattle.std.specs.Prelude.{List, ℕ, ◌≡◌, ◌≤◌, length, take};

    ghost Value = { List ℕ };

    ghost view = { λ name. take name.count name.letters };

    ghost invariant = { λ name. (length name.letters ≡ 64) × ((1 ≤ name.count) × (name.count ≤ 64)) };
}

impl Name {
    /// Returns the name with these bytes, or `None` unless there are 1 to 64.
    pub fn of(bytes: &[u8]) -> Option<Name>
        ensures fits { IsSome result ↔ ((1 ≤ length bytes.now) × (length bytes.now ≤ 64)) }
        ensures named { IfSome result (λ name. name ≡ bytes.now) }
    {
        let len = bytes.len();
        if len == 0 || len > MOST {
            return None;
        }
        let mut letters = [0; MOST];
        letters[..len].copy_from_slice(bytes);
        Some(Name {
            letters,
            count: len as u8,
        })
    }

    /// Returns the bytes of the name.
    pub fn bytes(&self) -> &[u8]
        ensures bytes { result.now ≡ self.now }
        ensures some { 1 ≤ length self.now }
        ensures limit { length self.now ≤ 64 }
    {
        &self.letters[..usize::from(self.count)]
    }

    /// Returns a second name with the same bytes.
    pub fn copy(&self) -> Name
        ensures { result ≡ self.now }
    {
        Name {
            letters: self.letters,
            count: self.count,
        }
    }
}

/// Returns true if a word of the language may have the byte: an ASCII letter, a digit or `_`.
pub fn is_in_word(byte: u8) -> bool
    ensures { result ≡ is_in_word byte }
{
    byte.is_ascii_alphanumeric() || byte == b'_'
}
