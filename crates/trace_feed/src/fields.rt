//! Fields of a row.

ghost use Rattle.std.specs.Prelude.{◌≡◌, ◌<◌, ◌≤◌, ◌^◌, IfSome, IsTrue, if◌then◌else◌, length, neg_ℤ, pos, slice_index, take};
ghost use Rattle.std.specs.Char.{is_ascii_digit};
ghost use Rattle.std.specs.List.{before_first, list_all, position_or_len};
ghost use Rattle.std.specs.Str.Parse.{AllDigits, digits_value, signed_digits_value, without_leading_sign};
ghost use Rattle.trace_feed.specs.declared.fields.Reading.{Reading as Way};
ghost use Rattle.trace_feed.specs.Readings.{sign_length, read_value as value_with};
ghost use Rattle.trace_feed.specs.Rows.{has_32_bits, in_range, is_bit, is_comma, is_numeral as writes_number, field_number, field_value as value_in};

use std::str;
use trace_columns::blanks::trimmed;

/// The reason why a field has no value.
#[derive(Clone, Copy)]
pub enum FieldFault {
    /// The field isn't an integer.
    NotWhole,
    /// The field is an integer that its column can't hold.
    OutOfRange,
}

/// The way in which a program reads a column.
#[derive(Clone, Copy, PartialEq, Eq)]
pub enum Reading {
    Unread,
    Whole,
    Truth,
}

/// Returns the number of bytes of a field's sign. It has no branch, since signs come in no order.
fn sign_size(field: &[u8]) -> usize
    ensures size { result ≡ sign_length field.now }
    ensures within { result ≤ length field.now }
{
    match field {
        [first, ..] => usize::from((*first == b'-') | (*first == b'+')),
        [] => 0,
    }
}

/// Returns the bytes after the sign of a field, if it has one.
fn without_sign(field: &[u8]) -> &[u8]
    ensures { result.now ≡ without_leading_sign field.now }
{
    &field[sign_size(field)..]
}

fn are_digits(bytes: &[u8]) -> bool
    ensures { result ≡ list_all is_ascii_digit bytes.now }
{
    bytes.iter().all(|byte| byte.is_ascii_digit())
}

/// Returns true if a field is decimal digits after an optional sign.
fn is_numeral(field: &[u8]) -> bool
    ensures { result ≡ writes_number field.now }
{
    let digits = without_sign(field);
    !digits.is_empty() && are_digits(digits)
}

/// Returns the number of a field, which must have 32 bits with its sign.
fn whole_number(field: &[u8]) -> Result<i64, FieldFault>
    ensures { result ≡ field_number has_32_bits field.now }
{
    if !is_numeral(field) {
        return Err(FieldFault::NotWhole);
    }
    match str::from_utf8(field) {
        Ok(text) => match text.parse::<i32>() {
            Ok(number) => Ok(i64::from(number)),
            Err(_) => Err(FieldFault::OutOfRange),
        },
        Err(_) => unreachable!(),
    }
}

/// Returns the number, if it is 0 or 1.
fn truth(number: i64) -> Result<i64, FieldFault>
    ensures { result ≡ in_range is_bit number }
{
    if number == 0 || number == 1 {
        Ok(number)
    } else {
        Err(FieldFault::OutOfRange)
    }
}

/// Returns the Boolean of a field, as 0 or 1.
fn truth_number(field: &[u8]) -> Result<i64, FieldFault>
    ensures { result ≡ field_number is_bit field.now }
{
    truth(whole_number(field)?)
}

/// Returns the value of a field in a column with this reading; 0 if it isn't read.
fn value_of(reading: Reading, field: &[u8]) -> Result<i64, FieldFault>
    ensures { result ≡ value_in reading field.now }
{
    match reading {
        Reading::Unread => Ok(0),
        Reading::Whole => whole_number(trimmed(field)),
        Reading::Truth => truth_number(trimmed(field)),
    }
}

/// Returns the number, if it has 32 bits with its sign.
fn whole(number: i64) -> Result<i64, FieldFault>
    ensures { result ≡ in_range has_32_bits number }
{
    if -2_147_483_648 <= number && number <= 2_147_483_647 {
        Ok(number)
    } else {
        Err(FieldFault::OutOfRange)
    }
}

/// Returns the value of a number in a column with this reading.
fn value_at(reading: Reading, number: i64) -> Result<i64, FieldFault>
    ensures { result ≡ value_with reading number }
{
    match reading {
        Reading::Unread => Ok(0),
        Reading::Whole => whole(number),
        Reading::Truth => truth(number),
    }
}

/// The most digits that are read, so that their number stays small.
const MOST_DIGITS: usize = 18;

/// The number of the digits at the start of bytes, and the count of these digits.
#[derive(Clone, Copy)]
struct Digits {
    number: u64,
    size: usize,
}

/// Reads up to 18 digits at the front.
fn leading_digits(bytes: &[u8]) -> Digits
    ensures within { result.size ≤ length bytes.now }
    ensures digits { AllDigits 10 (take result.size bytes.now) }
    ensures number { result.number ≡ digits_value 10 (take result.size bytes.now) }
    ensures small { result.number < 10 ^ 18 }
{
    let most = bytes.len().min(MOST_DIGITS);
    let mut number = 0;
    for i in 0..most {
        let byte = bytes[i];
        if !byte.is_ascii_digit() {
            return Digits { number, size: i };
        }
        number = number * 10 + u64::from(byte - b'0');
    }
    Digits { number, size: most }
}

/// An integer at the start of a line, and the number of its bytes.
#[derive(Clone, Copy)]
struct Numeral {
    number: i64,
    size: usize,
}

/// Returns the number with its sign.
fn signed(minus: bool, number: u64) -> i64
    requires { number < 2 ^ 63 }
    ensures { result ≡ if minus then neg_ℤ (pos number) else pos number }
{
    let number = number as i64;
    if minus { -number } else { number }
}

/// Returns the integer at the start of a line, with an optional sign and up to 18 digits.
fn leading_numeral(line: &[u8]) -> Option<Numeral>
    ensures within { IfSome result (λ n. n.size ≤ length line.now) }
    ensures numeral { IfSome result (λ n. IsTrue (writes_number (take n.size line.now))) }
    ensures number { IfSome result (λ n.
        n.number ≡ signed_digits_value 10 (take n.size line.now)) }
{
    let rest = without_sign(line);
    let digits = leading_digits(rest);
    if digits.size == 0 {
        return None;
    }
    Some(Numeral {
        number: signed(line[0] == b'-', digits.number),
        size: line.len() - rest.len() + digits.size,
    })
}

/// Returns true if the first field may end there: at a comma, or at the end.
fn may_end(line: &[u8], size: usize) -> bool
    requires { size ≤ length line.now }
    ensures { IsTrue result → size < length line.now
        → IsTrue (is_comma (slice_index line.now size)) }
{
    size == line.len() || line[size] == b','
}

/// Returns the integer that is the first field of a line, if no blank surrounds it.
fn plain_field(line: &[u8]) -> Option<Numeral>
    ensures size { IfSome result (λ n. n.size ≡ position_or_len is_comma line.now) }
    ensures within { IfSome result (λ n. n.size ≤ length line.now) }
    ensures value { IfSome result (λ n. (reading : Way) →
        value_in reading (before_first is_comma line.now) ≡ value_with reading n.number) }
{
    let numeral = leading_numeral(line)?;
    if may_end(line, numeral.size) {
        Some(numeral)
    } else {
        None
    }
}

/// Returns the number of bytes before the first comma.
fn field_size(line: &[u8]) -> usize
    ensures first { result ≡ position_or_len is_comma line.now }
    ensures within { result ≤ length line.now }
{
    line.iter().take_while(|byte| **byte != b',').count()
}

/// A field at the start of a line: its value, and the number of its bytes.
#[derive(Clone, Copy)]
pub struct Field {
    pub value: Result<i64, FieldFault>,
    pub size: usize,
}

/// Returns the first field of a line, up to its first comma, in a column with this reading.
pub fn first_field(reading: Reading, line: &[u8]) -> Field
    ensures value { result.value ≡ value_in reading (before_first is_comma line.now) }
    ensures size { result.size ≡ position_or_len is_comma line.now }
    ensures within { result.size ≤ length line.now }
{
    if let Some(plain) = plain_field(line) {
        return Field {
            value: value_at(reading, plain.number),
            size: plain.size,
        };
    }
    let size = field_size(line);
    Field {
        value: value_of(reading, &line[..size]),
        size,
    }
}
