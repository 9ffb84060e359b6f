//! The piece at the front of a text.

ghost use Rattle.std.specs.Prelude.{◌≡◌, ◌<◌, ◌≤◌, ℕ, length, take};
ghost use Rattle.mltl_base.specs.Letters.{is_in_word};
ghost use Rattle.c2po_lexer.specs.Cut.{is_white, begins_word, is_in_line, front_of, size_of, HasDigitsAlone};
ghost use Rattle.std.specs.List.{prefix_len};
ghost use Rattle.std.specs.Char.{is_ascii_digit};

use crate::token::Sign;
use mltl_base::name::is_in_word;

/// The sort of the piece at the front of a text: a blank, a comment, a word or a number with its
/// size in bytes, a sign, or a byte that begins none of these.
#[derive(Clone, Copy)]
pub enum Front {
    Blank,
    Comment(usize),
    Word(usize),
    Digits(usize),
    Sign(Sign),
    Stray,
}

/// Returns `true` if a byte is a space, a tab, a carriage return or a newline.
fn is_blank(byte: u8) -> bool
    ensures { result ≡ is_white byte }
{
    matches!(byte, b' ' | b'\t' | b'\r' | b'\n')
}

/// Returns `true` if a word may begin with this byte.
fn begins_word(byte: u8) -> bool
    ensures { result ≡ begins_word byte }
{
    byte.is_ascii_alphabetic() || byte == b'_'
}

/// Returns the number of bytes before the next newline.
fn line_size(text: &[u8]) -> usize
    ensures longest { result ≡ prefix_len is_in_line text.now }
    ensures inside { result ≤ length text.now }
{
    text.iter().take_while(|byte| **byte != b'\n').count()
}

/// Returns the number of bytes at the front that can belong to a word.
fn word_size(text: &[u8]) -> usize
    ensures longest { result ≡ prefix_len is_in_word text.now }
    ensures inside { result ≤ length text.now }
{
    text.iter().take_while(|byte| is_in_word(**byte)).count()
}

/// Returns the number of digits at the front.
fn digits_size(text: &[u8]) -> usize
    ensures longest { result ≡ prefix_len is_ascii_digit text.now }
    ensures inside { result ≤ length text.now }
{
    text.iter().take_while(|byte| byte.is_ascii_digit()).count()
}

impl Front {
    /// Returns the longest piece at the front of a text.
    #[tactic(auto, using(crate::proofs::Fronts::size_of_sign), unfolding(crate::specs::Cut::front_of))]
    pub fn of(text: &[u8]) -> Front
        requires { 0 < length text.now }
        ensures longest { result ≡ front_of text.now }
        ensures some { 1 ≤ size_of result }
        ensures inside { size_of result ≤ length text.now }
        ensures digits { HasDigitsAlone result (take (size_of result) text.now) }
    {
        let first = text[0];
        if is_blank(first) {
            Front::Blank
        } else if text.starts_with(b"--") {
            Front::Comment(line_size(text))
        } else if begins_word(first) {
            Front::Word(word_size(text))
        } else if first.is_ascii_digit() {
            Front::Digits(digits_size(text))
        } else {
            match Sign::at_front(text) {
                Some(sign) => Front::Sign(sign),
                None => Front::Stray,
            }
        }
    }

    /// Returns the size of the piece in bytes.
    pub fn size(self) -> usize
        ensures { result ≡ size_of self }
    {
        match self {
            Front::Blank | Front::Stray => 1,
            Front::Comment(size) | Front::Word(size) | Front::Digits(size) => size,
            Front::Sign(sign) => sign.text().len(),
        }
    }
}
