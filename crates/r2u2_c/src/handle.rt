//! The address of a monitor.

ghost use Rattle.std.specs.Prelude.{◌≡◌, None, Some, MatchOption, Option as Maybe};
ghost use Rattle.std.specs.Coded.{coded_option};
ghost use Rattle.r2u2_monitor.specs.declared.state.State.{State};
ghost use Rattle.r2u2_monitor.specs.contracts.monitor.Monitor.{the_row};
ghost use Rattle.std.specs.Borrow.{sem};
ghost use Rattle.r2u2_c.specs.Handles.{handle_owns};
ghost use Rattle.r2u2_c.specs.Lending.{lends_monitor};

use crate::boxes::Loose;
use r2u2_monitor::Monitor;
use std::alloc::Global;
use std::marker::Model;
use std::mem;
use std::ptr::null_mut;

/// The address of a monitor, or null if none is open. It owns the monitor, whose state contracts
/// see as `value`.
#[repr(C)]
pub struct Handle {
    at: *mut u8,
    pub ghost value: { Maybe State } by { coded_option the_row.coded },
}

/// The heap for a call that allocates nothing: with it, the monitor of a handle is taken out and
/// freed. Only this file sees the allocator in it. It has no bytes, so C passes nothing for it.
#[repr(C)]
#[derive(Clone, Copy)]
pub struct FreeOnly {
    heap: Global,
}

impl FreeOnly {
    /// Restricts the heap to freeing.
    pub(crate) fn of(heap: Global) -> FreeOnly {
        FreeOnly { heap }
    }
}

/// A monitor that was taken out of its handle. It is put back or freed, since it can't be dropped.
/// It shows the monitor without its box, which has an allocator.
pub(crate) struct Held {
    monitor: Box<Monitor>,
}

impl Held {
    /// Returns the monitor.
    #[inline(always)]
    pub(crate) fn get(&self) -> &Monitor
        ensures { result.now ≡ self.now.monitor.value }
    {
        &self.monitor
    }

    /// Returns the monitor, to be changed in place.
    #[inline(always)]
    pub(crate) fn get_mut(&mut self) -> &mut Monitor
        ensures* writes_back { sem 𝓛 (lends_monitor self.entry result) }
        ensures value { result.now ≡ self.old.monitor.value }
    {
        &mut self.monitor
    }

    /// Frees the monitor.
    pub(crate) fn free(self) {
        let Held { monitor } = self;
        drop(monitor);
    }
}

impl Model for Handle {
    ghost also_owns = { λ it. handle_owns it.at it.value };
}

// The monitor that it owns is the same to every thread, so one thread may open it and another take
// rows.
unsafe impl Send for Handle {}

impl Handle {
    pub(crate) fn empty() -> Handle
        ensures { result.value ≡ None }
    {
        Handle { at: null_mut() }
    }

    fn of(loose: Loose<Monitor, Global>) -> Handle
        ensures { result.value ≡ Some loose.value }
    {
        let Loose { at, alloc: _ } = loose;
        Handle { at: at as *mut u8 }
    }

    fn into_loose(self, alloc: Global) -> Option<Loose<Monitor, Global>>
        ensures { MatchOption result (self.value ≡ None) (λ l. self.value ≡ Some l.value) }
    {
        let Handle { at } = self;
        if at.is_null() {
            None
        } else {
            Some(Loose {
                at: at as *mut Monitor,
                alloc,
            })
        }
    }

    pub(crate) fn into_held(self, free: FreeOnly) -> Option<Held>
        ensures { MatchOption result (self.value ≡ None) (λ h. self.value ≡ Some h.monitor.value) }
    {
        match self.into_loose(free.heap) {
            None => None,
            Some(loose) => Some(Held {
                monitor: loose.into_box(),
            }),
        }
    }

    /// Takes the monitor out, if one is open.
    #[inline(always)]
    pub(crate) fn take(&mut self, free: FreeOnly) -> Option<Held>
        ensures taken { MatchOption result (self.old.value ≡ None)
            (λ h. self.old.value ≡ Some h.monitor.value) }
        ensures emptied { self.new.value ≡ None }
    {
        mem::replace(self, Handle::empty()).into_held(free)
    }

    /// Puts a monitor into an empty handle. That it is empty is proved, so nothing tests it.
    #[inline(always)]
    pub(crate) fn put(&mut self, held: Held)
        requires empty { self.old.value ≡ None }
        ensures { self.new.value ≡ Some held.monitor.value }
    {
        let Held { monitor } = held;
        mem::replace(self, Handle::with(monitor)).let_go();
    }

    /// Drops an empty handle. That it is empty is proved, so nothing tests it.
    #[inline(always)]
    fn let_go(self)
        requires empty { self.value ≡ None }
    {
        let Handle { at: _ } = self;
    }

    /// Makes a handle that owns this monitor.
    pub(crate) fn with(monitor: Box<Monitor>) -> Handle
        ensures { result.value ≡ Some monitor.value }
    {
        Handle::of(Loose::of(monitor))
    }
}
