//! The struct that C keeps for a monitor.

ghost use Rattle.std.specs.Prelude.{◌≡◌, Some, length};
ghost use Rattle.r2u2_c.specs.Queries.{MirrorsMonitor, open_most_reports, open_names, open_signals, open_width, steps_of};

use crate::handle::{FreeOnly, Handle, Held};
use r2u2_monitor::{Monitor, most_reports, row_work};
use std::alloc::Global;
use std::mem;

/// The struct that C keeps: a monitor, or none, and the counts that are read without it. Contracts
/// see the monitor's state as `handle.value`.
#[repr(C)]
pub struct R2u2 {
    pub handle: Handle,
    pub(crate) rows: u64,
    width: u32,
    outputs: u32,
    signals: u32,
    steps: u64,
    most_reports: u64,
    pub ghost told: { MirrorsMonitor handle.value rows width outputs signals steps most_reports },
}

impl R2u2 {
    ghost use Rattle.std.specs.Prelude.{◌↔◌, None, IsSome, IsTrue, MatchOption};
    ghost use Rattle.r2u2_c.specs.Queries.{open_rows};

    fn empty() -> R2u2
        ensures { result.handle.value ≡ None }
    {
        R2u2 {
            handle: Handle::empty(),
            rows: 0,
            width: 0,
            outputs: 0,
            signals: 0,
            steps: 0,
            most_reports: 0,
        }
    }

    fn of(monitor: Box<Monitor>) -> R2u2
        ensures { result.handle.value ≡ Some monitor.value }
    {
        let rows = monitor.rows_taken();
        let width = width_in(&monitor);
        let outputs = outputs_in(&monitor);
        let signals = signals_in(&monitor);
        let steps = row_work(monitor.checked());
        let most = most_reports(monitor.checked());
        R2u2 {
            handle: Handle::with(monitor),
            rows,
            width,
            outputs,
            signals,
            steps,
            most_reports: most,
        }
    }

    fn into_held(self, free: FreeOnly) -> Option<Held>
        ensures { MatchOption result (self.handle.value ≡ None)
            (λ h. self.handle.value ≡ Some h.monitor.value) }
    {
        let R2u2 {
            handle,
            rows: _,
            width: _,
            outputs: _,
            signals: _,
            steps: _,
            most_reports: _,
        } = self;
        handle.into_held(free)
    }

    /// Puts a monitor in, and frees the monitor that was open.
    pub(crate) fn put(&mut self, monitor: Box<Monitor>)
        ensures { self.new.handle.value ≡ Some monitor.value }
    {
        let free = FreeOnly::of(*Box::allocator(&monitor));
        let old = mem::replace(self, R2u2::of(monitor));
        if let Some(held) = old.into_held(free) {
            held.free();
        }
    }

    /// Returns true if a monitor is open.
    pub(crate) fn is_open(&mut self, alloc: Global) -> bool
        ensures open { IsTrue result ↔ IsSome self.old.handle.value }
        ensures kept { self.new.handle.value ≡ self.old.handle.value }
    {
        match self.handle.take(FreeOnly::of(alloc)) {
            None => false,
            Some(held) => {
                self.handle.put(held);
                true
            }
        }
    }

    /// Frees the monitor, if one is open.
    pub(crate) fn close(&mut self, free: FreeOnly)
        ensures { self.new.handle.value ≡ None }
    {
        if let Some(held) = mem::replace(self, R2u2::empty()).into_held(free) {
            held.free();
        }
    }

    /// Returns the number of rows that the monitor has taken, or 0 if none is open.
    pub(crate) fn rows(&self) -> u64
        ensures { result ≡ open_rows self.now.handle.value }
    {
        self.rows
    }

    /// Returns the number of columns of a row, or 0 if no monitor is open.
    pub(crate) fn width(&self) -> u32
        ensures { result ≡ open_width self.now.handle.value }
    {
        self.width
    }

    /// Returns the number of outputs, or 0 if no monitor is open.
    pub(crate) fn outputs(&self) -> u32
        ensures { result ≡ length (open_names self.now.handle.value) }
    {
        self.outputs
    }

    /// Returns the number of signals that the program stores, or 0 if no monitor is open.
    pub(crate) fn signals(&self) -> u32
        ensures { result ≡ length (open_signals self.now.handle.value) }
    {
        self.signals
    }

    /// Returns the most steps of one row, or 0 if no monitor is open.
    pub(crate) fn steps(&self) -> u64
        ensures { result ≡ steps_of self.now.handle.value }
    {
        self.steps
    }

    /// Returns the most reports of one row, or 0 if no monitor is open.
    pub(crate) fn most_reports(&self) -> u64
        ensures { result ≡ open_most_reports self.now.handle.value }
    {
        self.most_reports
    }
}

fn width_in(monitor: &Monitor) -> u32
    ensures { result ≡ open_width (Some monitor.now) }
{
    monitor.checked().program().width
}

fn outputs_in(monitor: &Monitor) -> u32
    ensures { result ≡ length (open_names (Some monitor.now)) }
{
    monitor.checked().program().outs.len() as u32
}

fn signals_in(monitor: &Monitor) -> u32
    ensures { result ≡ length (open_signals (Some monitor.now)) }
{
    monitor.checked().program().signals.len() as u32
}
