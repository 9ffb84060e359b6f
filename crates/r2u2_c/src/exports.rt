//! Calls of C that open, run and close a monitor.

ghost use Rattle.std.specs.Prelude.{◌≡◌, ◌≢◌, ◌↔◌, ◌<◌, ◌≤◌, [], ◌∷◌, Contains, IsSome, IsSomeAnd, IfErr, IfOk, None};
ghost use Rattle.r2u2_monitor.specs.Monitoring.{IsDrained};
ghost use Rattle.r2u2_c.specs.declared.opened.OpeningFault.TheVariants.{Memory};
ghost use Rattle.r2u2_c.specs.Exports.{BeginsAgain, BringsFew, IsHeldBack, Opens, Refuses, Takes, Reports, row_cause};
ghost use Rattle.r2u2_c.specs.Faults.{opening_fault};
ghost use Rattle.r2u2_c.specs.Opening.{opened_by, program_under};
ghost use Rattle.r2u2_c.specs.Reports.{style_of};

use crate::c_monitor::R2u2;
use crate::codes::{
    ALREADY_OPEN, DONE, NO_MEMORY, NO_REPORT, NOT_A_ROW, NOT_OPEN, REFUSED, REPORTS_LEFT,
    TOO_MANY_ROWS,
};
use crate::fault::Fault;
use crate::handle::FreeOnly;
use crate::opened::{OpeningFault, open_monitor, open_under};
use crate::report::{Told, next_of};
use crate::row_why::RowWhy;
use r2u2_monitor::RowFault;
use std::alloc::Global;

/// Opens the program in these bytes. Rows have the columns that it was compiled for.
#[unsafe(no_mangle)]
pub extern "C" fn r2u2_open(it: &mut R2u2, alloc: Global, bytes: &[u8], fault: &mut Fault) -> u32
    ensures opens { result ≡ DONE
        → Opens (opened_by bytes.now) it.old.handle.value it.new.handle.value }
    ensures already { (result ≡ ALREADY_OPEN) ↔ IsSome it.old.handle.value }
    ensures refused { result ≡ REFUSED → Refuses (opened_by bytes.now) fault.new }
    ensures kept { 0 < result → it.new.handle.value ≡ it.old.handle.value }
    ensures untold { result ≢ REFUSED → fault.new ≡ fault.old }
    ensures codes { Contains (DONE ∷ ALREADY_OPEN ∷ REFUSED ∷ NO_MEMORY ∷ []) result }
{
    if it.is_open(alloc) {
        return ALREADY_OPEN;
    }
    match open_monitor(alloc, bytes) {
        Ok(monitor) => {
            it.put(monitor);
            DONE
        }
        Err(why) => refuse(why, fault),
    }
}

/// Opens the program in these bytes, with its signals in the columns that a header line names.
#[unsafe(no_mangle)]
pub extern "C" fn r2u2_open_under(
    it: &mut R2u2,
    alloc: Global,
    bytes: &[u8],
    header: &[u8],
    fault: &mut Fault,
) -> u32
    ensures opens { result ≡ DONE
        → Opens (program_under header.now bytes.now) it.old.handle.value it.new.handle.value }
    ensures already { (result ≡ ALREADY_OPEN) ↔ IsSome it.old.handle.value }
    ensures refused { result ≡ REFUSED → Refuses (program_under header.now bytes.now) fault.new }
    ensures kept { 0 < result → it.new.handle.value ≡ it.old.handle.value }
    ensures untold { result ≢ REFUSED → fault.new ≡ fault.old }
    ensures codes { Contains (DONE ∷ ALREADY_OPEN ∷ REFUSED ∷ NO_MEMORY ∷ []) result }
{
    if it.is_open(alloc) {
        return ALREADY_OPEN;
    }
    match open_under(alloc, bytes, header) {
        Ok(monitor) => {
            it.put(monitor);
            DONE
        }
        Err(why) => refuse(why, fault),
    }
}

/// Returns the code of a fault of an opening, and writes the fault, unless it is out of memory.
pub(crate) fn refuse(why: OpeningFault, fault: &mut Fault) -> u32
    ensures memory { why ≡ Memory → (result ≡ NO_MEMORY) × (fault.new ≡ fault.old) }
    ensures refused { why ≢ Memory → (result ≡ REFUSED) × (fault.new ≡ opening_fault why) }
{
    match why {
        OpeningFault::Memory => NO_MEMORY,
        why => {
            *fault = Fault::of(&why);
            REFUSED
        }
    }
}

/// Takes the next row, with one number for each column. If the open monitor doesn't take it, writes
/// the cause, and returns its code.
#[unsafe(no_mangle)]
pub extern "C" fn r2u2_row(it: &mut R2u2, free: FreeOnly, fields: &[i64], why: &mut RowWhy) -> u32
    ensures takes { result ≡ DONE → Takes fields.now it.old.handle.value it.new.handle.value }
    ensures few { result ≡ DONE → BringsFew fields.now it.old.handle.value it.new.handle.value }
    ensures not_open { (result ≡ NOT_OPEN) ↔ (it.old.handle.value ≡ None) }
    ensures held_back { NOT_OPEN < result
        → IsHeldBack result why.new fields.now it.old.handle.value }
    ensures untold { result ≤ NOT_OPEN → why.new ≡ why.old }
    ensures kept { 0 < result → it.new.handle.value ≡ it.old.handle.value }
    ensures codes { Contains
        (DONE ∷ NOT_OPEN ∷ REPORTS_LEFT ∷ NOT_A_ROW ∷ TOO_MANY_ROWS ∷ []) result }
{
    match it.handle.take(free) {
        None => NOT_OPEN,
        Some(mut held) => {
            let taken = held.get_mut().take(fields);
            it.rows = held.get().rows_taken();
            it.handle.put(held);
            tell_taken(taken, why)
        }
    }
}

/// Returns the code of a row that was taken or refused, and writes the cause of a refusal.
#[inline(always)]
pub(crate) fn tell_taken(taken: Result<(), RowFault>, why: &mut RowWhy) -> u32
    ensures done { IfOk taken (λ _. (result ≡ DONE) × (why.new ≡ why.old)) }
    ensures fault { IfErr taken (λ fault. (why.new ≡ row_cause fault) × (result ≡ why.new.why)) }
{
    match taken {
        Ok(()) => DONE,
        Err(fault) => {
            *why = RowWhy::of(fault);
            why.why
        }
    }
}

/// Writes the next report of the rows so far: of each time if `runs` is 0, else of each longest
/// stretch of one word.
#[unsafe(no_mangle)]
pub extern "C" fn r2u2_next(it: &mut R2u2, free: FreeOnly, runs: u32, report: &mut Told) -> u32
    ensures tells { result ≡ DONE
        → Reports (style_of runs) report.new it.old.handle.value it.new.handle.value }
    ensures not_open { (result ≡ NOT_OPEN) ↔ (it.old.handle.value ≡ None) }
    ensures drained { (result ≡ NO_REPORT) ↔ IsSomeAnd it.old.handle.value IsDrained }
    ensures kept { 0 < result → it.new.handle.value ≡ it.old.handle.value }
    ensures untold { 0 < result → report.new ≡ report.old }
    ensures codes { Contains (DONE ∷ NOT_OPEN ∷ NO_REPORT ∷ []) result }
{
    match it.handle.take(free) {
        None => NOT_OPEN,
        Some(mut held) => {
            let next = next_of(held.get_mut(), runs);
            it.handle.put(held);
            match next {
                None => NO_REPORT,
                Some(next) => {
                    *report = Told::of(next);
                    DONE
                }
            }
        }
    }
}

/// Resets the open monitor to its state before the first row, in the memory that it has.
#[unsafe(no_mangle)]
pub extern "C" fn r2u2_reset(it: &mut R2u2, free: FreeOnly) -> u32
    ensures begins { result ≡ DONE → BeginsAgain it.old.handle.value it.new.handle.value }
    ensures not_open { (result ≡ NOT_OPEN) ↔ (it.old.handle.value ≡ None) }
    ensures kept { 0 < result → it.new.handle.value ≡ it.old.handle.value }
    ensures codes { Contains (DONE ∷ NOT_OPEN ∷ []) result }
{
    match it.handle.take(free) {
        None => NOT_OPEN,
        Some(mut held) => {
            held.get_mut().reset();
            it.rows = 0;
            it.handle.put(held);
            DONE
        }
    }
}

/// Frees the monitor, if one is open.
#[unsafe(no_mangle)]
pub extern "C" fn r2u2_close_struct(it: &mut R2u2, free: FreeOnly)
    ensures closed { it.new.handle.value ≡ None }
{
    it.close(free);
}
