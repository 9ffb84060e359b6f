//! Calls of C that return facts of a monitor. None of these calls changes it.

ghost use Rattle.std.specs.Prelude.{◌≡◌, ◌↔◌, ◌<◌, ◌≤◌, IsSomeAnd, Some, length, slice_get, slice_index};
ghost use Rattle.r2u2_c.specs.Queries.{TellsSignal, WritesName, open_delays, open_most_reports, open_names, output_kinds_of, output_number, open_rows, open_signals, steps_of, open_width};

use crate::c_monitor::R2u2;
use crate::handle::FreeOnly;
use crate::names::write_name;
use crate::version::VERSION;
use mltl_base::{Out, StoredSignal};
use r2u2_monitor::{Monitor, delay_of};

/// Returns the version of the library.
#[unsafe(no_mangle)]
pub extern "C" fn r2u2_version() -> u32
    ensures { result ≡ VERSION }
{
    VERSION
}

/// Returns the number of columns of a row, or 0 if no monitor is open.
#[unsafe(no_mangle)]
pub extern "C" fn r2u2_width(it: &R2u2) -> u32
    ensures { result ≡ open_width it.now.handle.value }
{
    it.width()
}

/// Returns the number of outputs, or 0 if no monitor is open.
#[unsafe(no_mangle)]
pub extern "C" fn r2u2_outputs(it: &R2u2) -> u32
    ensures { result ≡ length (open_names it.now.handle.value) }
{
    it.outputs()
}

/// Writes the name of output `k`, counted from 0, to the start of a buffer, and returns its length.
#[unsafe(no_mangle)]
pub extern "C" fn r2u2_name(it: &mut R2u2, free: FreeOnly, k: u32, buffer: &mut [u8]) -> u32
    ensures named { 0 < result → IsSomeAnd (slice_get (open_names it.old.handle.value) k)
        (λ name. WritesName name result buffer.old buffer.new) }
    ensures untold { result ≡ 0 → buffer.new ≡ buffer.old }
    ensures fits { (0 < result) ↔ IsSomeAnd (slice_get (open_names it.old.handle.value) k)
        (λ name. length name ≤ length buffer.old) }
    ensures kept { it.new.handle.value ≡ it.old.handle.value }
{
    match it.handle.take(free) {
        None => 0,
        Some(held) => {
            let length = name_in(held.get(), k, buffer);
            it.handle.put(held);
            length
        }
    }
}

/// Returns the number of rows that were taken, or 0 if no monitor is open.
#[unsafe(no_mangle)]
pub extern "C" fn r2u2_rows(it: &R2u2) -> u64
    ensures { result ≡ open_rows it.now.handle.value }
{
    it.rows()
}

/// Returns the worst-case delay of output `k`, in rows, or 0 if no monitor is open or there is no
/// such output.
#[unsafe(no_mangle)]
pub extern "C" fn r2u2_delay(it: &mut R2u2, free: FreeOnly, k: u32) -> u32
    ensures delay { result ≡ slice_index (open_delays it.old.handle.value) k }
    ensures kept { it.new.handle.value ≡ it.old.handle.value }
{
    match it.handle.take(free) {
        None => 0,
        Some(held) => {
            let delay = delay_of(held.get().checked(), k).unwrap_or(0);
            it.handle.put(held);
            delay
        }
    }
}

/// Returns the most steps of one row, from the check of the row to the last of its reports, or 0 if
/// no monitor is open.
#[unsafe(no_mangle)]
pub extern "C" fn r2u2_steps(it: &R2u2) -> u64
    ensures { result ≡ steps_of it.now.handle.value }
{
    it.steps()
}

/// Returns the most reports that one row brings, in either style, or 0 if no monitor is open.
#[unsafe(no_mangle)]
pub extern "C" fn r2u2_most_reports(it: &R2u2) -> u64
    ensures { result ≡ open_most_reports it.now.handle.value }
{
    it.most_reports()
}

/// Returns the kind of output `k`: 1 a formula, 2 an assume-guarantee contract, or 0 if no monitor
/// is open or there is no such output.
#[unsafe(no_mangle)]
pub extern "C" fn r2u2_output_kind(it: &mut R2u2, free: FreeOnly, k: u32) -> u32
    ensures kind { result ≡ slice_index (output_kinds_of it.old.handle.value) k }
    ensures kept { it.new.handle.value ≡ it.old.handle.value }
{
    match it.handle.take(free) {
        None => 0,
        Some(held) => {
            let kind = output_kind_in(held.get(), k);
            it.handle.put(held);
            kind
        }
    }
}

/// Returns the number of signals that the program stores, or 0 if no monitor is open.
#[unsafe(no_mangle)]
pub extern "C" fn r2u2_signals(it: &R2u2) -> u32
    ensures { result ≡ length (open_signals it.now.handle.value) }
{
    it.signals()
}

/// Writes the column, the kind and the name of signal `k`, counted from 0, and returns the length
/// of the name.
#[unsafe(no_mangle)]
pub extern "C" fn r2u2_signal(
    it: &mut R2u2,
    free: FreeOnly,
    k: u32,
    column: &mut u32,
    kind: &mut u32,
    buffer: &mut [u8],
) -> u32
    ensures tells { 0 < result → IsSomeAnd (slice_get (open_signals it.old.handle.value) k)
        (λ signal. TellsSignal signal column.new kind.new) }
    ensures named { 0 < result → IsSomeAnd (slice_get (open_signals it.old.handle.value) k)
        (λ signal. WritesName signal.name result buffer.old buffer.new) }
    ensures untold { result ≡ 0 → (column.new ≡ column.old)
        × (kind.new ≡ kind.old) × (buffer.new ≡ buffer.old) }
    ensures fits { (0 < result) ↔ IsSomeAnd (slice_get (open_signals it.old.handle.value) k)
        (λ signal. length signal.name ≤ length buffer.old) }
    ensures kept { it.new.handle.value ≡ it.old.handle.value }
{
    match it.handle.take(free) {
        None => 0,
        Some(held) => {
            let length = signal_in(held.get(), k, column, kind, buffer);
            it.handle.put(held);
            length
        }
    }
}

/// Writes the name of an output to the start of a buffer that has room for it, and returns its
/// length.
fn name_in(monitor: &Monitor, k: u32, buffer: &mut [u8]) -> u32
    ensures named { 0 < result → IsSomeAnd (slice_get (open_names (Some monitor.now)) k)
        (λ name. WritesName name result buffer.old buffer.new) }
    ensures untold { result ≡ 0 → buffer.new ≡ buffer.old }
    ensures fits { (0 < result) ↔ IsSomeAnd (slice_get (open_names (Some monitor.now)) k)
        (λ name. length name ≤ length buffer.old) }
{
    match monitor.checked().program().outs.as_slice().get(k as usize) {
        None => 0,
        Some(out) => write_name(out.name(), buffer),
    }
}

fn output_kind_in(monitor: &Monitor, k: u32) -> u32
    ensures { result ≡ slice_index (output_kinds_of (Some monitor.now)) k }
{
    match monitor.checked().program().outs.as_slice().get(k as usize) {
        None => 0,
        Some(out) => output_number(out),
    }
}

fn output_number(out: &Out) -> u32
    ensures { result ≡ output_number out.now }
{
    match out {
        Out::Formula(_, _, _) => 1,
        Out::Contract(_, _, _, _) => 2,
    }
}

fn signal_in(monitor: &Monitor, k: u32, column: &mut u32, kind: &mut u32, buffer: &mut [u8]) -> u32
    ensures tells { 0 < result → IsSomeAnd (slice_get (open_signals (Some monitor.now)) k)
        (λ signal. TellsSignal signal column.new kind.new) }
    ensures named { 0 < result → IsSomeAnd (slice_get (open_signals (Some monitor.now)) k)
        (λ signal. WritesName signal.name result buffer.old buffer.new) }
    ensures untold { result ≡ 0 → (column.new ≡ column.old)
        × (kind.new ≡ kind.old) × (buffer.new ≡ buffer.old) }
    ensures fits { (0 < result) ↔ IsSomeAnd (slice_get (open_signals (Some monitor.now)) k)
        (λ signal. length signal.name ≤ length buffer.old) }
{
    match monitor
        .checked()
        .program()
        .signals
        .as_slice()
        .get(k as usize)
    {
        None => 0,
        Some(signal) => tell_signal(signal, column, kind, buffer),
    }
}

fn tell_signal(signal: &StoredSignal, column: &mut u32, kind: &mut u32, buffer: &mut [u8]) -> u32
    ensures tells { 0 < result → TellsSignal signal.now column.new kind.new }
    ensures named { 0 < result → WritesName signal.now.name result buffer.old buffer.new }
    ensures untold { result ≡ 0 → (column.new ≡ column.old)
        × (kind.new ≡ kind.old) × (buffer.new ≡ buffer.old) }
    ensures fits { (0 < result) ↔ (length signal.now.name ≤ length buffer.old) }
{
    let length = write_name(&signal.name, buffer);
    if length > 0 {
        *column = signal.column;
        *kind = u32::from(signal.truth);
    }
    length
}
