//! Calls of C that do the work of several calls.

ghost use Rattle.std.specs.Prelude.{◌≡◌, ◌↔◌, ◌<◌, [], ◌∷◌, Contains, IsSomeAnd, None, drop, length, take};
ghost use Rattle.r2u2_monitor.specs.Monitoring.{IsDrained};
ghost use Rattle.r2u2_c.specs.Batches.{TellsEach, TellsMany, WritesFront};
ghost use Rattle.r2u2_c.specs.Reports.{style_of};

use crate::c_monitor::R2u2;
use crate::codes::{DONE, NOT_OPEN};
use crate::handle::FreeOnly;
use crate::report::{Told, next_of};
use r2u2_monitor::Monitor;

/// The counts of rows and reports of one call, as C reads them.
#[repr(C)]
#[derive(Clone, Copy)]
pub struct Batch {
    /// The number of rows that the call took.
    pub rows: usize,
    /// The number of reports that the call wrote.
    pub reports: usize,
}

/// Writes the next reports of the rows so far, as many as there is room for, in the order in which
/// `r2u2_next` returns them. `count` is their number; if it is less than the room, no report is
/// left.
#[unsafe(no_mangle)]
pub extern "C" fn r2u2_next_many(
    it: &mut R2u2,
    free: FreeOnly,
    runs: u32,
    reports: &mut [Told],
    count: &mut usize,
) -> u32
    ensures tells { result ≡ DONE → TellsMany (style_of runs)
        (take count.new reports.new) it.old.handle.value it.new.handle.value }
    ensures front { result ≡ DONE → WritesFront count.new reports.old reports.new }
    ensures drained { result ≡ DONE → count.new < length reports.old
        → IsSomeAnd it.new.handle.value IsDrained }
    ensures not_open { (result ≡ NOT_OPEN) ↔ (it.old.handle.value ≡ None) }
    ensures kept { 0 < result → it.new.handle.value ≡ it.old.handle.value }
    ensures untold { 0 < result → (reports.new ≡ reports.old) × (count.new ≡ count.old) }
    ensures codes { Contains (DONE ∷ NOT_OPEN ∷ []) result }
{
    match it.handle.take(free) {
        None => NOT_OPEN,
        Some(mut held) => {
            *count = fill(held.get_mut(), runs, reports);
            it.handle.put(held);
            DONE
        }
    }
}

/// Writes the next reports to the front of a slice, and returns their number.
pub(crate) fn fill(monitor: &mut Monitor, runs: u32, reports: &mut [Told]) -> usize
    ensures tells { TellsEach (style_of runs) (take result reports.new) monitor.old monitor.new }
    ensures front { WritesFront result reports.old reports.new }
    ensures drained { result < length reports.old → IsDrained monitor.new }
{
    for k in 0..reports.len() {
        match next_of(monitor, runs) {
            None => return k,
            Some(report) => reports[k] = Told::of(report),
        }
    }
    reports.len()
}
