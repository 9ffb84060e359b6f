//! Calls of C that take many rows and write their reports.

ghost use Rattle.std.specs.Prelude.{◌≡◌, ◌≢◌, ◌↔◌, ◌⊎◌, ◌*◌, ◌<◌, ◌≤◌, [], ◌∷◌, Contains, IfErr, IfOk, IsOk, None, OnErr, OnOk, drop, length, take};
ghost use Rattle.r2u2_monitor.specs.Monitoring.{IsDrained};
ghost use Rattle.r2u2_monitor.specs.RowFaults.{IsReady, IsRowCause};
ghost use Rattle.r2u2_c.specs.Batches.{TakesMany, TakesOne, TakesRows, WritesFront, first_row};
ghost use Rattle.r2u2_c.specs.Exports.{IsHeldBack};
ghost use Rattle.r2u2_c.specs.Queries.{open_most_reports};
ghost use Rattle.r2u2_c.specs.Reports.{style_of};

use crate::batches::{Batch, fill};
use crate::c_monitor::R2u2;
use crate::codes::{DONE, NO_ROOM, NOT_A_ROW, NOT_OPEN, REPORTS_LEFT, TOO_MANY_ROWS};
use crate::exports::tell_taken;
use crate::handle::FreeOnly;
use crate::report::Told;
use crate::row_why::RowWhy;
use r2u2_monitor::{Monitor, RowFault};

/// Takes rows one after another, each of as many numbers as the program has columns, and writes the
/// reports of each to the front of `reports`. It stops before a row whose reports might not fit, or
/// that can't be taken. If it stops before the first row, it returns the code of the fault; so at
/// `DONE` at least one row was taken, unless there were no numbers. `batch` has the numbers of rows
/// and reports.
#[unsafe(no_mangle)]
pub extern "C" fn r2u2_row_many(
    it: &mut R2u2,
    free: FreeOnly,
    runs: u32,
    numbers: &[i64],
    reports: &mut [Told],
    batch: &mut Batch,
    why: &mut RowWhy,
) -> u32
    ensures takes { result ≡ DONE → TakesMany (style_of runs) numbers.now batch.new
        reports.old reports.new it.old.handle.value it.new.handle.value }
    ensures begun { result ≡ DONE → (numbers.now ≡ []) ⊎ (0 < batch.new.rows) }
    ensures not_open { (result ≡ NOT_OPEN) ↔ (it.old.handle.value ≡ None) }
    ensures no_room { (result ≡ NO_ROOM)
        ↔ (length reports.old < open_most_reports it.old.handle.value) }
    ensures held_back { NOT_OPEN < result → result < NO_ROOM
        → IsHeldBack result why.new (first_row it.old.handle.value numbers.now) it.old.handle.value }
    ensures untold { (result ≤ NOT_OPEN) ⊎ (result ≡ NO_ROOM) → why.new ≡ why.old }
    ensures kept { 0 < result → (it.new.handle.value ≡ it.old.handle.value)
        × (reports.new ≡ reports.old) × (batch.new ≡ batch.old) }
    ensures codes { Contains
        (DONE ∷ NOT_OPEN ∷ REPORTS_LEFT ∷ NOT_A_ROW ∷ TOO_MANY_ROWS ∷ NO_ROOM ∷ []) result }
{
    let size = (it.width() as usize).max(1);
    let most = it.most_reports();
    if (reports.len() as u64) < most {
        return NO_ROOM;
    }
    match it.handle.take(free) {
        None => NOT_OPEN,
        Some(mut held) => {
            let taken = take_batch(held.get_mut(), size, most, runs, numbers, reports, batch);
            it.rows = held.get().rows_taken();
            it.handle.put(held);
            tell_taken(taken, why)
        }
    }
}

/// Takes rows as `take_rows` does, and returns the numbers of rows and reports. Fails if the first
/// row isn't taken.
fn take_batch(
    monitor: &mut Monitor,
    size: usize,
    most: u64,
    runs: u32,
    numbers: &[i64],
    reports: &mut [Told],
    batch: &mut Batch,
) -> Result<(), RowFault>
    requires some { 0 < size }
    requires room { most ≤ length reports.old }
    ensures takes { IfOk result (λ _. TakesRows (style_of runs) size most numbers.now batch.new
        reports.old reports.new monitor.old monitor.new) }
    ensures begun { OnOk result ((numbers.now ≡ []) ⊎ (0 < batch.new.rows)) }
    ensures cause { IfErr result (λ fault. IsRowCause fault monitor.old (take size numbers.now)) }
    ensures same { OnErr result (monitor.new ≡ monitor.old) }
    ensures unwritten { OnErr result ((reports.new ≡ reports.old) × (batch.new ≡ batch.old)) }
{
    let (done, ended) = take_rows(monitor, size, most, runs, numbers, reports);
    if done.rows == 0 {
        ended?;
    }
    *batch = done;
    Ok(())
}

/// Takes rows one after another, each with its reports, until no number is left, the reports of the
/// next row might not fit, or the row can't be taken. Returns why it stopped.
fn take_rows(
    monitor: &mut Monitor,
    size: usize,
    most: u64,
    runs: u32,
    numbers: &[i64],
    reports: &mut [Told],
) -> (Batch, Result<(), RowFault>)
    requires some { 0 < size }
    ensures takes { TakesRows (style_of runs) size most numbers.now result.0
        reports.old reports.new monitor.old monitor.new }
    ensures cause { IfErr result.1 (λ fault. IsRowCause fault monitor.new
        (take size (drop (result.0.rows * size) numbers.now))) }
    ensures none { result.0.rows ≡ 0 → result.0.reports ≡ 0 }
    ensures begun { OnOk result.1 ((numbers.now ≡ []) ⊎ (0 < result.0.rows)
        ⊎ (length reports.old < most)) }
{
    let mut batch = Batch {
        rows: 0,
        reports: 0,
    };
    let mut rest = numbers;
    'rows: while !rest.is_empty() && most <= (reports.len() - batch.reports) as u64 {
        let (row, more) = rest.split_at(size.min(rest.len()));
        match take_one(monitor, runs, row, &mut reports[batch.reports..]) {
            Err(fault) => return (batch, Err(fault)),
            Ok(told) => batch.reports += told,
        }
        batch.rows += 1;
        rest = more;
    }
    (batch, Ok(()))
}

/// Takes a row, writes as many of its reports as there is room for to the front of a slice, and
/// returns their number.
fn take_one(
    monitor: &mut Monitor,
    runs: u32,
    row: &[i64],
    reports: &mut [Told],
) -> Result<usize, RowFault>
    ensures takes { IfOk result (λ count. TakesOne (style_of runs) row.now
        (take count reports.new) monitor.old monitor.new) }
    ensures front { IfOk result (λ count. WritesFront count reports.old reports.new) }
    ensures drained { IfOk result (λ count. count < length reports.old → IsDrained monitor.new) }
    ensures ready { IsOk result ↔ IsReady monitor.old row.now }
    ensures cause { IfErr result (λ fault. IsRowCause fault monitor.old row.now) }
    ensures same { OnErr result ((monitor.new ≡ monitor.old) × (reports.new ≡ reports.old)) }
{
    monitor.take(row)?;
    Ok(fill(monitor, runs, reports))
}
