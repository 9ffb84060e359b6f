//! Fields that are skipped, since no instruction reads them.

ghost use Rattle.std.specs.Prelude.{◌≡◌, ◌≢◌, ◌+◌, ◌<◌, ◌≤◌, ℕ, ◌^◌, ◌++◌, pos, count_by, drop, length, replicate, slice_index_or, take};
ghost use Rattle.trace_feed.specs.declared.fields.Reading.TheVariants.{Unread};
ghost use Rattle.trace_feed.specs.Readings.{PassesOver};
ghost use Rattle.trace_feed.specs.Rows.{fields_from, is_comma};

use crate::fields::Reading;

/// The bytes that are skipped at once if they hold too few commas.
const BLOCK: usize = 64;

/// The number of fields that must be left for that.
const MANY: usize = 16;

/// The place to read on in a line: the next column, and the start of its field.
#[derive(Clone, Copy)]
pub struct Spot {
    pub column: u32,
    pub at: usize,
}

/// Returns the number of unread columns from column `c` on, up to the first that is read.
fn unread_from(readings: &[Reading], c: usize) -> usize
    requires { c ≤ length readings.now }
    ensures within { c + result ≤ length readings.now }
    ensures unread { (k : ℕ) → k < result
        → slice_index_or readings.now (c + k) Unread ≡ Unread }
    ensures longest { c + result < length readings.now
        → slice_index_or readings.now (c + result) Unread ≢ Unread }
{
    let mut count = 0;
    'columns: while c + count < readings.len() && readings[c + count] == Reading::Unread {
        count += 1;
    }
    count
}

/// Writes 0 to `count` columns.
fn clear(fields: &mut [i64], from: usize, count: usize)
    requires { from + count ≤ length fields.old }
    ensures wide { length fields.new ≡ length fields.old }
    ensures zeros { take (from + count) fields.new
        ≡ take from fields.old ++ replicate count (pos 0) }
{
    for i in 0..count {
        fields[from + i] = 0;
    }
}

/// Counts the commas of a block. The count is a byte, so that many bytes are compared at once.
fn commas_in(block: &[u8]) -> u8
    requires { length block.now ≤ BLOCK }
    ensures { result ≡ count_by is_comma block.now }
{
    let mut count = 0;
    for i in 0..block.len() {
        count += u8::from(block[i] == b',');
    }
    count
}

/// Returns the index after `count` fields from an index on, or one past the end if there are fewer.
fn after_fields(line: &[u8], from: usize, count: usize) -> usize
    requires within { from ≤ length line.now + 1 }
    ensures within { result ≤ length line.now + 1 }
    ensures after { fields_from line.now result ≡ drop count (fields_from line.now from) }
{
    if line.len() < from {
        return from;
    }
    let mut at = from;
    let mut left = count;
    'passing: while MANY <= left && BLOCK <= line.len() - at {
        let here = usize::from(commas_in(&line[at..at + BLOCK]));
        if left <= here {
            break;
        }
        left -= here;
        at += BLOCK;
    }
    'bytes: while 0 < left && at < line.len() {
        left -= usize::from(line[at] == b',');
        at += 1;
    }
    if left == 0 { at } else { line.len() + 1 }
}

/// Skips the unread columns from here on, up to the first that is read or the last one. Their
/// number is 0.
pub fn pass_unread(line: &[u8], readings: &[Reading], fields: &mut [i64], spot: Spot) -> Spot
    requires wide { length fields.old ≡ length readings.now }
    requires within { spot.column < length readings.now }
    requires few { length readings.now < 2 ^ 32 }
    requires place { spot.at ≤ length line.now + 1 }
    ensures wide { length fields.new ≡ length readings.now }
    ensures passes { PassesOver readings.now line.now fields.old fields.new spot result }
{
    let c = spot.column as usize;
    if readings[c] != Reading::Unread {
        return spot;
    }
    let count = unread_from(readings, c).min(readings.len() - 1 - c);
    clear(fields, c, count);
    Spot {
        column: (c + count) as u32,
        at: after_fields(line, spot.at, count),
    }
}
