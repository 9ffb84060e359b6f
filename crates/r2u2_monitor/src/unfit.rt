//! The first column from which numbers aren't a row.

ghost use Rattle.std.specs.Prelude.{◌≡◌, ◌↔◌, ℕ, ◌+◌, ◌<◌, ◌≤◌, IsTrue, MatchOption, length};
ghost use Rattle.mltl_base.specs.Programs.{IsFit};
ghost use Rattle.trace_feed.specs.declared.fields.Reading.{Reading as Way};
ghost use Rattle.trace_feed.specs.Readings.{AreReadings, readings_of};
ghost use Rattle.r2u2_monitor.specs.RowFaults.{CanHold, FitsColumn, IsFirstUnfit, IsUnfitAt};

use booleanizer::is_fit;
use mltl_base::steps::Steps;
use obs_verify::Checked;
use std::sync::ledger::Ledger;
use trace_feed::{Reading, Readings};

/// Returns the first column from which the numbers aren't a row of the program, or `None` if they
/// are a row.
///
/// A row that fits is found with the instructions alone, which read few of many columns. It counts
/// a step for each instruction and each column that it looks at.
pub(crate) fn unfit_column<L: Ledger>(
    checked: &Checked,
    readings: &Readings,
    row: &[i64],
    steps: &mut Steps<L>,
) -> Option<u32>
    requires { readings.now ≡ readings_of checked.now }
    ensures unfit { MatchOption result
        (IsFit checked.now row.now) (λ column. IsUnfitAt checked.now row.now column) }
    ensures counted { steps.new ≤ steps.old + length checked.now.bz + checked.now.width }
    ensures counted_fit { IsFit checked.now row.now
        → steps.new ≤ steps.old + length checked.now.bz }
{
    if is_fit(checked, row, steps) {
        return None;
    }
    let width = checked.program().width;
    if row.len() < (width as usize) {
        Some(row.len() as u32)
    } else if row.len() > (width as usize) {
        Some(width)
    } else {
        first_unfit(readings.as_slice(), row, width, steps)
    }
}

/// Returns the first column that can't hold its number.
fn first_unfit<L: Ledger>(
    readings: &[Reading],
    row: &[i64],
    width: u32,
    steps: &mut Steps<L>,
) -> Option<u32>
    requires one_each { length readings.now ≡ width }
    requires wide { length row.now ≡ width }
    ensures first { (reading : ℕ → Way) → AreReadings reading readings.now → MatchOption result
        ((c : ℕ) → c < length row.now → FitsColumn reading row.now c)
        (λ column. IsFirstUnfit reading row.now column) }
    ensures counted { steps.new ≤ steps.old + width }
{
    for c in 0..width {
        steps.tick();
        if !can_hold(readings[c as usize], row[c as usize]) {
            return Some(c);
        }
    }
    None
}

/// Returns true if a column with this reading can hold the number.
fn can_hold(reading: Reading, number: i64) -> bool
    ensures { IsTrue result ↔ CanHold reading number }
{
    match reading {
        Reading::Unread => true,
        Reading::Whole => i32::try_from(number).is_ok(),
        Reading::Truth => number == 0 || number == 1,
    }
}
