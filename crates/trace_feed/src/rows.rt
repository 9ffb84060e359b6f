//! Rows of a trace.

ghost use Rattle.std.specs.Prelude.{◌≡◌, ◌<◌, ℕ, Err, count_by, length};
ghost use Rattle.std.specs.List.{before_first, list_any};
ghost use Rattle.mltl_base.specs.Atoms.{Row};
ghost use Rattle.mltl_base.specs.Programs.{IsFit};
ghost use Rattle.trace_feed.specs.declared.fields.Reading.{Reading as Way};
ghost use Rattle.trace_feed.specs.Readings.{AreReadings, fields_meaning, readings_of};
ghost use Rattle.trace_feed.specs.Rows.{IsMeaningOf, fields_of, is_comma, line_meaning, reading_of, reads_truth, reads_whole, field_value};

use crate::fields::{FieldFault, Reading, first_field};
use crate::readings::Readings;
use crate::unread_fields::{Spot, pass_unread};
use mltl_base::BzOp;
use mltl_base::blanks::is_blank_line;
use obs_verify::Checked;

/// The result of reading a line as a row of a program. Columns count from 0.
#[derive(Clone, Copy, PartialEq, Eq, Debug)]
pub enum RowAnswer {
    /// The line is a row, and its numbers were read.
    Good,
    /// The line has nothing but spaces and tabs.
    Blank,
    /// The line has fewer fields than a row has columns.
    Width,
    /// The first field with a fault, in this column, isn't an integer.
    NotWhole(u32),
    /// The first field with a fault, in this column, is a number that its column can't hold.
    OutOfRange(u32),
}

/// Counts the commas. It has no branch, so that several bytes are compared at once.
fn commas(line: &[u8]) -> usize
    ensures { result ≡ count_by is_comma line.now }
{
    let mut count = 0;
    for i in 0..line.len() {
        count += usize::from(line[i] == b',');
    }
    count
}

/// Returns the result of a line whose field in column `c` has a fault. From there on it should have
/// `left` fields.
fn fault_at(c: u32, fault: FieldFault, rest: &[u8], left: u32) -> RowAnswer
    requires some { 0 < left }
    ensures { (reading : ℕ → Way) (values : Row) →
        field_value (reading c) (before_first is_comma rest.now) ≡ Err fault
        → IsMeaningOf result values (fields_meaning reading c left (fields_of rest.now)) }
{
    if commas(rest) + 1 < left as usize {
        return RowAnswer::Width;
    }
    match fault {
        FieldFault::NotWhole => RowAnswer::NotWhole(c),
        FieldFault::OutOfRange => RowAnswer::OutOfRange(c),
    }
}

/// Reads the fields of a line from left to right, once. Unread fields are skipped by their commas;
/// after a field that is read, commas are counted only if it has a fault.
fn read_fields(line: &[u8], width: u32, readings: &[Reading], fields: &mut [i64]) -> RowAnswer
    requires wide { length fields.old ≡ width }
    requires one_each { length readings.now ≡ width }
    ensures { (reading : ℕ → Way) → AreReadings reading readings.now
        → IsMeaningOf result fields.new (fields_meaning reading 0 width (fields_of line.now)) }
{
    let mut spot = Spot { column: 0, at: 0 };
    'columns: while spot.column < width {
        spot = pass_unread(line, readings, fields, spot);
        let c = spot.column;
        if line.len() < spot.at {
            return RowAnswer::Width;
        }
        let rest = &line[spot.at..];
        let field = first_field(readings[c as usize], rest);
        match field.value {
            Ok(value) => fields[c as usize] = value,
            Err(fault) => return fault_at(c, fault, rest, width - c),
        }
        spot = Spot {
            column: c + 1,
            at: spot.at + field.size + 1,
        };
    }
    RowAnswer::Good
}

/// Returns true if some instruction reads this column as a Boolean.
fn is_truth(ops: &[BzOp], c: u32) -> bool
    ensures { result ≡ list_any (reads_truth c) ops.now }
{
    ops.iter()
        .any(|op| matches!(*op, BzOp::IsTrue(d) if d == c))
}

/// Returns true if some instruction reads this column as an integer.
fn is_whole(ops: &[BzOp], c: u32) -> bool
    ensures { result ≡ list_any (reads_whole c) ops.now }
{
    ops.iter()
        .any(|op| matches!(*op, BzOp::Column(d) if d == c))
}

/// Returns the reading of this column by the instructions.
fn reading_in(ops: &[BzOp], c: u32) -> Reading
    ensures { result ≡ reading_of ops.now c }
{
    if is_truth(ops, c) {
        Reading::Truth
    } else if is_whole(ops, c) {
        Reading::Whole
    } else {
        Reading::Unread
    }
}

/// Reads the fields of a line from left to right, and looks up each column in the instructions.
fn search_fields(line: &[u8], width: u32, ops: &[BzOp], fields: &mut [i64]) -> RowAnswer
    requires wide { length fields.old ≡ width }
    ensures { IsMeaningOf result fields.new
        (fields_meaning (reading_of ops.now) 0 width (fields_of line.now)) }
{
    let mut at = 0;
    'columns: for c in 0..width {
        if line.len() < at {
            return RowAnswer::Width;
        }
        let rest = &line[at..];
        let field = first_field(reading_in(ops, c), rest);
        match field.value {
            Ok(value) => fields[c as usize] = value,
            Err(fault) => return fault_at(c, fault, rest, width - c),
        }
        at += field.size + 1;
    }
    RowAnswer::Good
}

/// Reads a line into a number for each column: the field, or 0 if no instruction of the program
/// reads the column. Does not allocate. Unless the result is `Good`, the numbers have no meaning.
///
/// A line is cut at each comma; spaces and tabs around a field and fields past the width are
/// ignored. A field that is read is one or more decimal digits, with an optional sign: 0 or 1 if
/// some instruction reads its column as a Boolean, else from -2,147,483,648 to 2,147,483,647. Of
/// several faults the first is returned: too few fields, then the columns from left to right.
///
/// Each column is looked up in the instructions. To read many lines, keep `Readings` and call
/// `row_fields_by`.
pub fn row_fields(line: &[u8], checked: &Checked, fields: &mut [i64]) -> RowAnswer
    requires wide { length fields.old ≡ checked.now.width }
    ensures told { IsMeaningOf result fields.new (line_meaning checked.now line.now) }
    ensures fit { result ≡ RowAnswer.Good → IsFit checked.now fields.new }
{
    if is_blank_line(line) {
        return RowAnswer::Blank;
    }
    let program = checked.program();
    search_fields(line, program.width, program.bz.as_slice(), fields)
}

/// Reads a line as `row_fields` does, by the program's readings, which are computed only once.
pub fn row_fields_by(
    line: &[u8],
    checked: &Checked,
    readings: &Readings,
    fields: &mut [i64],
) -> RowAnswer
    requires wide { length fields.old ≡ checked.now.width }
    requires readings { readings.now ≡ readings_of checked.now }
    ensures told { IsMeaningOf result fields.new (line_meaning checked.now line.now) }
    ensures fit { result ≡ RowAnswer.Good → IsFit checked.now fields.new }
{
    if is_blank_line(line) {
        return RowAnswer::Blank;
    }
    let width = checked.program().width;
    read_fields(line, width, readings.as_slice(), fields)
}
