//! The time at the start of a line.

ghost use Rattle.std.specs.Prelude.{◌≡◌, ◌≤◌, ◌<◌, ℕ, IsTrue, IsSome, IfSome, ◌↔◌, length};
ghost use Rattle.std.specs.Char.{is_ascii_digit};
ghost use Rattle.std.specs.List.{list_all, prefix_len};
ghost use Rattle.std.specs.Str.Parse.{digits_value};
ghost use Rattle.mltl_base.specs.Blanks.{is_blank, is_blank_line as is_all_blank};
ghost use Rattle.sparse_feed.specs.Stamps.{IfAt, has_stamp, in_64_bits, may_follow as may_come_after, stamp_digits as digits_of, stamp_meaning, timed as timed_as, times_between};

use mltl_base::blanks::is_blank_line;
use std::str;

/// The result of reading a line's time.
#[derive(Clone, Copy)]
pub enum Stamp {
    /// The time, and the place of the first byte after the comma, or the line's length if it has no
    /// comma.
    At(u64, usize),
    /// The line has nothing but spaces and tabs.
    Blank,
    /// The line doesn't begin with `@`, one or more digits, and then a comma or its end.
    Bad,
    /// The first time isn't 0, or the time isn't above the time before it.
    Order,
    /// The time is at least the mission time.
    Late,
}

/// Returns the number of digits at the start.
fn digits_size(text: &[u8]) -> usize
    ensures longest { result ≡ prefix_len is_ascii_digit text.now }
    ensures inside { result ≤ length text.now }
{
    text.iter().take_while(|byte| byte.is_ascii_digit()).count()
}

/// Returns the digits of the stamp at the start of a line, if it has one.
#[tactic(auto, using(crate::proofs::Digits::prefix_digits), unfolding(crate::specs::Stamps::stamp_digits))]
fn stamp_digits(line: &[u8]) -> Option<&[u8]>
    ensures stamp { IsSome result ↔ IsTrue (has_stamp line.now) }
    ensures digits { IfSome result (λ digits. digits.now ≡ digits_of line.now) }
    ensures some { IfSome result (λ digits. 0 < length digits.now) }
    ensures alone { IfSome result (λ digits. IsTrue (list_all is_ascii_digit digits.now)) }
{
    let text = match line {
        [b'@', text @ ..] => text,
        _ => return None,
    };
    let size = digits_size(text);
    if size == 0 {
        return None;
    }
    match &text[size..] {
        [] | [b',', ..] => Some(&text[..size]),
        _ => None,
    }
}

/// Returns the number that digits write, if it has 64 bits.
fn number_of(digits: &[u8]) -> Option<u64>
    requires some { 0 < length digits.now }
    requires alone { IsTrue (list_all is_ascii_digit digits.now) }
    ensures { result ≡ in_64_bits (digits_value 10 digits.now) }
{
    match str::from_utf8(digits) {
        Ok(text) => text.parse::<u64>().ok(),
        Err(_) => unreachable!(),
    }
}

/// Returns true if a first time is 0, or a later one is above the last. `None` is a time of more
/// than 64 bits.
fn may_follow(last: Option<u64>, time: Option<u64>) -> bool
    ensures { (n : ℕ) → time ≡ in_64_bits n → result ≡ may_come_after last n }
{
    match (last, time) {
        (None, Some(time)) => time == 0,
        (None, None) => false,
        (Some(last), Some(time)) => last < time,
        (Some(_), None) => true,
    }
}

/// Returns the result for a time. `None` is a time of more than 64 bits.
fn timed(last: Option<u64>, mission: u64, place: usize, time: Option<u64>) -> Stamp
    ensures { (n : ℕ) → time ≡ in_64_bits n → result ≡ timed_as last mission place n }
{
    if !may_follow(last, time) {
        return Stamp::Order;
    }
    match time {
        Some(time) if time < mission => Stamp::At(time, place),
        _ => Stamp::Late,
    }
}

/// Returns the time of a line, or its first fault, by the time of the line before it and the
/// mission time. A stamp may have leading zeros and any number of digits. The row begins at the
/// index that is returned with the time. Does not allocate.
pub fn stamp_of(line: &[u8], last: Option<u64>, mission: u64) -> Stamp
    ensures told { result ≡ stamp_meaning line.now last mission }
    ensures within { IfAt result (λ time place. place ≤ length line.now) }
    ensures follows { IfAt result (λ time place. IsTrue (may_come_after last time)) }
    ensures early { IfAt result (λ time place. time < mission) }
{
    if is_blank_line(line) {
        return Stamp::Blank;
    }
    match stamp_digits(line) {
        Some(digits) => {
            let place = line.len().min(digits.len() + 2);
            timed(last, mission, place, number_of(digits))
        }
        None => Stamp::Bad,
    }
}

/// Returns the number of times between a time and the one before it; 0 for the first.
pub fn gap(last: Option<u64>, time: u64) -> u64
    requires { IsTrue (may_come_after last time) }
    ensures { result ≡ times_between last time }
{
    match last {
        Some(last) => time - last - 1,
        None => 0,
    }
}
