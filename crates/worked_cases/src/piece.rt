//! Bytes in a line of a script.

use anyhow::Result;
use std::alloc::{AllocError, Global};

/// Bytes of a file, or of the output of a run.
#[derive(Clone, Copy)]
pub enum Piece<'a> {
    /// A text and a newline.
    Line(&'a str),
    /// A text alone.
    Text(&'a str),
    /// Pairs of hexadecimal digits, with blanks where they help the reader.
    Hex(&'a str),
    /// The bytes of the file of this name.
    Copy(&'a str),
}

impl<'a> Piece<'a> {
    /// Returns the bytes of a line of a file with this first word, or `None` if it is another word.
    pub fn of(head: &str, rest: &'a str) -> Option<Piece<'a>> {
        match head {
            "|" => Some(Piece::Line(rest)),
            "" => None,
            _ => Piece::of_kind(head, rest),
        }
    }

    /// Returns the bytes of a line of an expected output, whose mark and kind of bytes are one
    /// word.
    pub fn of_kind(kind: &str, rest: &'a str) -> Option<Piece<'a>> {
        match kind {
            "" => Some(Piece::Line(rest)),
            "+" => Some(Piece::Text(rest)),
            "hex" => Some(Piece::Hex(rest)),
            "copy" => Some(Piece::Copy(rest)),
            _ => None,
        }
    }

    /// Returns true if the text contains the number of its repetition.
    pub fn has_numbers(&self) -> bool {
        match self {
            Piece::Line(text) | Piece::Text(text) => text.contains('$'),
            Piece::Hex(_) | Piece::Copy(_) => false,
        }
    }
}

/// Returns the bytes of pairs of hexadecimal digits, which blanks may separate.
pub fn hex_bytes(alloc: Global, digits: &str) -> Result<Vec<u8>> {
    let mut bytes = Vec::new(alloc);
    for word in digits.split_whitespace() {
        let part = hex::decode(alloc, word)?;
        bytes.extend_from_slice(&part)?;
    }
    Ok(bytes)
}

/// Returns a text with `$n` replaced by a number and `$m` by the next one.
pub fn numbered(alloc: Global, text: &[u8], number: u32) -> Result<Vec<u8>, AllocError> {
    let next = number.saturating_add(1);
    let this = format!(in alloc; "{number}")?;
    let next = format!(in alloc; "{next}")?;
    let mut numbered = Vec::new(alloc);
    for (place, part) in text.split(|byte| *byte == b'$').enumerate() {
        match part.split_first() {
            Some((b'n', rest)) if place > 0 => {
                numbered.extend_from_slice(this.as_bytes())?;
                numbered.extend_from_slice(rest)?;
            }
            Some((b'm', rest)) if place > 0 => {
                numbered.extend_from_slice(next.as_bytes())?;
                numbered.extend_from_slice(rest)?;
            }
            _ => numbered.extend_from_slice(part)?,
        }
    }
    Ok(numbered)
}
