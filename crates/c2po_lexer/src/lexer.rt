//! The tokens of a text, or its first fault.

ghost use Rattle.std.specs.Prelude.{◌≡◌, ◌≢◌, ◌==◌, ◌<◌, ◌≤◌, ◌↔◌, ℕ, All, length, count_by, ◌+◌, ◌++◌, option_to_list, OnOk, IsSome, IfSome, IfOk, IfErr, IsTrue, Err, Ok, pos};
ghost use Rattle.std.specs.Str.{all_ascii_digits};
ghost use Rattle.std.specs.Str.Parse.{digits_value};
ghost use Rattle.c2po_lexer.specs.Cut.{HasDigitsAlone};
ghost use Rattle.c2po_lexer.specs.Tokens.{line_at, word_token, number_token, what_of, token_at, size_at, tokens_of, HasPlainLetters, TokensAreInOrder, IsAfter, IsWrittenAs, token_bytes};

use crate::fault::LexFault;
use crate::front::Front;
use crate::token::{Keyword, Token, Tokens, What};
use mltl_base::limits::{MAX_NUMBER, MAX_SPEC_BYTES, MAX_WORD_BYTES};
use mltl_base::{List, Name};
use std::alloc::Global;
use std::str;

/// Returns the number of newlines in these bytes.
fn newlines(bytes: &[u8]) -> u32
    requires { length bytes.now ≤ MAX_SPEC_BYTES }
    ensures { result ≡ count_by (λ b. b == 10) bytes.now }
{
    bytes.iter().filter(|byte| **byte == b'\n').count() as u32
}

/// Returns the number that the digits spell, if it fits in an `i64`.
fn value_of(digits: &[u8]) -> Option<i64>
    requires some { 1 ≤ length digits.now }
    requires digits { IsTrue (all_ascii_digits digits.now) }
    ensures limit { IsSome result ↔ (digits_value 10 digits.now ≤ MAX_NUMBER) }
    ensures value { IfSome result (λ value. value ≡ pos (digits_value 10 digits.now)) }
{
    str::from_utf8(digits).unwrap().parse::<i64>().ok()
}

/// Returns the token of a number.
fn number(line: u32, digits: &[u8]) -> Result<What, LexFault>
    requires some { 1 ≤ length digits.now }
    requires digits { IsTrue (all_ascii_digits digits.now) }
    ensures { result ≡ number_token line digits.now }
{
    let value = value_of(digits).ok_or(LexFault::Number(line))?;
    Ok(What::Number(value))
}

/// Returns the token of a word, reserved or not.
fn word(line: u32, word: &[u8]) -> Result<What, LexFault>
    requires { 1 ≤ length word.now }
    ensures { result ≡ word_token line word.now }
{
    if word.len() > MAX_WORD_BYTES {
        return Err(LexFault::LongWord(line));
    }
    match Keyword::of(word) {
        Some(keyword) => Ok(What::Reserved(keyword)),
        None => Ok(What::Word(Name::of(word).unwrap())),
    }
}

/// Returns the sort of token that a piece is, or `None` for a blank or a comment.
fn read(line: u32, front: Front, bytes: &[u8]) -> Result<Option<What>, LexFault>
    requires some { 1 ≤ length bytes.now }
    requires digits { HasDigitsAlone front bytes.now }
    ensures { result ≡ what_of line front bytes.now }
{
    match front {
        Front::Blank | Front::Comment(_) => Ok(None),
        Front::Word(_) => Ok(Some(word(line, bytes)?)),
        Front::Digits(_) => Ok(Some(number(line, bytes)?)),
        Front::Sign(sign) => Ok(Some(What::Sign(sign))),
        Front::Stray => Err(LexFault::Letter(line)),
    }
}

/// A position in a text: its line, counted from 1, and the number of bytes before it.
#[derive(Clone, Copy)]
struct Position {
    line: u32,
    start: usize,
}

/// Returns the token at a position, if there is one, and the position after it.
fn piece(text: &[u8], at: Position) -> Result<(Option<Token>, Position), LexFault>
    requires limit { length text.now ≤ MAX_SPEC_BYTES }
    requires inside { at.start < length text.now }
    requires line { at.line ≡ line_at text.now at.start }
    ensures token { IfOk result (λ r. token_at text.now at.start ≡ Ok r.0) }
    ensures next { IfOk result (λ r. IsAfter text.now at.start r.1.start r.1.line) }
    ensures some { 1 ≤ size_at text.now at.start }
    ensures fault { IfErr result (λ fault. token_at text.now at.start ≡ Err fault) }
{
    let rest = &text[at.start..];
    let front = Front::of(rest);
    let bytes = &rest[..front.size()];
    let end = at.start + bytes.len();
    let next = Position {
        line: at.line + newlines(bytes),
        start: end,
    };
    let token = read(at.line, front, bytes)?.map(|what| Token {
        what,
        line: at.line,
        start: at.start as u32,
        end: end as u32,
    });
    Ok((token, next))
}

/// Appends a token, if there is one.
fn add(tokens: &mut Tokens, token: Option<Token>) -> Result<(), LexFault>
    ensures added { OnOk result (tokens.new ≡ tokens.old ++ option_to_list token) }
    ensures memory { IfErr result (λ fault. fault ≡ LexFault.Memory) }
{
    match token {
        Some(token) => tokens.push(token).map_err(|_| LexFault::Memory),
        None => Ok(()),
    }
}

/// Returns the tokens of a text of at most 1,048,576 bytes, or its first fault.
///
/// A word begins with an ASCII letter or `_` and continues with letters, digits and `_`; a number
/// consists of decimal digits. At each position the longest match counts. Spaces, tabs, carriage
/// returns, newlines and comments, which run from `--` to the end of their line and may contain any
/// bytes, separate tokens.
///
/// Errors: `Letter` at a byte outside a comment that begins no token, `LongWord` at a word of more
/// than 64 bytes, `Number` at a number above 9,223,372,036,854,775,807, `Memory` when out of
/// memory.
pub fn lex(alloc: Global, text: &[u8]) -> Result<Tokens, LexFault>
    requires { length text.now ≤ MAX_SPEC_BYTES }
    ensures tokens { IfOk result (λ tokens. tokens_of text.now ≡ Ok tokens) }
    ensures first_fault { IfErr result (λ fault. fault ≢ LexFault.Memory
        → tokens_of text.now ≡ Err fault) }
    ensures written { IfOk result
        (All (λ token. IsWrittenAs token.what (token_bytes text.now token))) }
    ensures spans { IfOk result (TokensAreInOrder 0 (length text.now)) }
    ensures names { IfOk result (All (λ token. HasPlainLetters token.what)) }
{
    let mut tokens = List::new(alloc);
    let mut at = Position { line: 1, start: 0 };
    while at.start < text.len() {
        let (token, next) = piece(text, at)?;
        add(&mut tokens, token)?;
        at = next;
    }
    Ok(tokens)
}
