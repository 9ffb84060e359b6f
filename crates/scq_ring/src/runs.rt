//! A ring of merged runs, and its slots.

ghost use Rattle.std.specs.Prelude.{◌≡◌, ◌≢◌, ℕ, ◌+◌, ◌-◌, ◌^◌, ◌<◌, ◌≤◌, ◌⊎◌, max, length, List, nat_lt, if◌then◌else◌};
ghost use Rattle.mltl_base.specs.declared.limits.TheConstants.{TIME_END};
ghost use Rattle.scq_ring.specs.Runs.{Belongs, IsAround, IsClear, IsClosed, IsTurned, IsWritten, KeepsNewest, Shows, TakesRun, frontier_of, low_of, ring_index_of, runs_of, runs_to, upto_at, verdict_at};
ghost use Rattle.scq_ring.specs.declared.runs.Slot.{Slot};

use mltl_base::steps::Steps;
use std::sync::ledger::Ledger;

/// One slot of a ring: the end of a run of times that have one verdict, and the verdict.
#[derive(Clone, Copy)]
pub struct Slot {
    upto: u64,
    value: bool,
}

impl Slot {
    /// Returns a slot that holds no verdict.
    #[tactic(auto, unfolding(crate::specs::Runs::IsClear))]
    pub fn clear() -> Slot
        ensures clear { IsClear result }
    {
        Slot {
            upto: 0,
            value: false,
        }
    }
}

/// The verdicts of one operator by time, over slots that the caller lends to each call.
///
/// It has verdicts for the times from its low time to its frontier - 1. The newest run is in the
/// ring itself, so that a write of the last verdict and a read of the newest run touch no slot. The
/// slots hold the runs before it.
#[derive(Drop)]
pub struct Ring {
    frontier: u64,
    low: u64,
    /// The first time of the newest run.
    since: u64,
    oldest: usize,
    used: usize,
    /// The verdict of the newest run.
    value: bool,
}

/// The result of a read.
#[derive(Clone, Copy, Debug, PartialEq, Eq)]
pub enum Seen {
    /// The read is within a run: its last time and its verdict.
    Run(u64, bool),
    /// The time has no verdict yet.
    Nothing,
}

/// Returns the index of the member that comes `k` after index `oldest` of a ring of `len` members.
pub fn ring_index(oldest: usize, k: usize, len: usize) -> usize
    requires oldest_in { oldest < len }
    requires k_in { k ≤ len }
    ensures ring_index { result ≡ ring_index_of oldest k len }
    ensures within { k < len → result < len }
{
    let ahead = len - oldest;
    if k < ahead { oldest + k } else { k - ahead }
}

impl Ring {
    /// Creates a ring without verdicts.
    #[tactic(auto, unfolding(crate::specs::Runs::frontier_of, crate::specs::Runs::low_of))]
    pub fn make() -> Ring
        ensures frontier { frontier_of result ≡ 0 }
        ensures low { low_of result ≡ 0 }
        ensures belongs { (slots : List Slot) → 0 < length slots → Belongs result slots }
    {
        Ring {
            frontier: 0,
            low: 0,
            since: 0,
            oldest: 0,
            used: 0,
            value: false,
        }
    }

    /// Returns the first time that has no verdict yet.
    #[tactic(auto, unfolding(crate::specs::Runs::frontier_of))]
    pub fn frontier(&self) -> u64
        ensures frontier { result ≡ frontier_of self.now }
    {
        self.frontier
    }

    /// Returns the first time whose verdict is kept.
    #[tactic(auto, unfolding(crate::specs::Runs::low_of))]
    pub fn low(&self) -> u64
        ensures low { result ≡ low_of self.now }
    {
        self.low
    }

    /// Gives all times from the frontier to `upto` the verdict `value`, and counts one step.
    ///
    /// If all slots hold runs and the value differs from the last verdict, the oldest run is
    /// dropped.
    pub fn write<L: Ledger>(
        &mut self,
        slots: &mut [Slot],
        upto: u64,
        value: bool,
        steps: &mut Steps<L>,
    )
        requires belongs { Belongs self.old slots.old }
        requires ahead { frontier_of self.old ≤ upto }
        requires in_time { upto < TIME_END }
        ensures written { IsWritten self.old slots.old upto value self.new slots.new }

        // A write of the last verdict drops nothing.
        ensures stays { 0 < frontier_of self.old
            → value ≡ verdict_at self.old slots.old (frontier_of self.old - 1)
            → low_of self.new ≡ low_of self.old }

        ensures step { steps.new ≡ steps.old + 1 }
    {
        steps.tick();
        if value == self.value {
            self.frontier = upto + 1;
        } else {
            self.turn(slots, upto, value);
        }
    }

    /// Returns the verdict at time `from`, and the last time up to which it stays the same. Counts
    /// one step.
    pub fn read<L: Ledger>(&self, slots: &[Slot], from: u64, steps: &mut Steps<L>) -> Seen
        requires belongs { Belongs self.now slots.now }
        requires kept { low_of self.now ≤ from }
        ensures seen { Shows self.now slots.now from result }
        ensures takes { TakesRun self.now slots.now from result }
        ensures step { steps.new ≡ steps.old + 1 }
    {
        let mut near = self.used;
        self.read_near(slots, from, &mut near, steps)
    }

    /// Reads as `read` does, but first looks at run `near` and the one after it. Sets `near` to the
    /// run found.
    ///
    /// A caller that reads on from the end of a run finds the next run at once, however many there
    /// are. Any number may be passed as `near`: if it is no run that helps, the runs are searched.
    #[inline(always)]
    #[tactic(auto, unfolding(crate::specs::Runs::frontier_of, crate::specs::Runs::low_of))]
    pub fn read_near<L: Ledger>(
        &self,
        slots: &[Slot],
        from: u64,
        near: &mut usize,
        steps: &mut Steps<L>,
    ) -> Seen
        requires belongs { Belongs self.now slots.now }
        requires kept { low_of self.now ≤ from }
        ensures seen { Shows self.now slots.now from result }
        ensures takes { TakesRun self.now slots.now from result }
        ensures step { steps.new ≡ steps.old + 1 }
    {
        steps.tick();
        if self.frontier <= from {
            return Seen::Nothing;
        }
        if self.since <= from {
            return Seen::Run(self.frontier - 1, self.value);
        }
        let run = self.run_at(slots, from, near);
        Seen::Run(run.upto, run.value)
    }

    /// Begins a run up to `upto` whose verdict differs from the newest one's.
    fn turn(&mut self, slots: &mut [Slot], upto: u64, value: bool)
        requires belongs { Belongs self.old slots.old }
        requires ahead { self.old.frontier ≤ upto }
        requires in_time { upto < TIME_END }
        requires other { value ≢ self.old.value }
        ensures turned { IsTurned self.old slots.old upto value self.new slots.new }
    {
        self.close(slots);
        self.since = self.frontier;
        self.value = value;
        self.frontier = upto + 1;
    }

    /// Moves the newest run to the slots, unless it is empty.
    fn close(&mut self, slots: &mut [Slot])
        requires belongs { Belongs self.old slots.old }
        requires in_time { self.old.frontier < TIME_END }
        ensures closed { IsClosed self.old slots.old self.new slots.new }
    {
        if self.since == self.frontier {
            return;
        }
        self.make_room(slots);
        self.add(slots);
    }

    /// Drops the oldest run if all slots hold runs, so that one is free.
    fn make_room(&mut self, slots: &[Slot])
        requires belongs { Belongs self.old slots.now }
        ensures belongs { Belongs self.new slots.now }
        ensures newest { KeepsNewest self.old self.new }
        ensures free { self.new.used < length slots.now }
        ensures rises { low_of self.old ≤ low_of self.new }
        ensures bounded { (low_of self.new ≡ low_of self.old)
            ⊎ (low_of self.new + length slots.now ≤ self.old.since + 1) }
        ensures kept { (t : ℕ) → low_of self.new ≤ t
            → verdict_at self.new slots.now t ≡ verdict_at self.old slots.now t }
    {
        if self.used == slots.len() {
            self.forget(slots);
        }
    }

    /// Writes the newest run, which isn't empty, to a free slot.
    fn add(&mut self, slots: &mut [Slot])
        requires belongs { Belongs self.old slots.old }
        requires free { self.old.used < length slots.old }
        requires some_time { self.old.since < self.old.frontier }
        requires in_time { self.old.frontier < TIME_END }
        ensures low { self.new.low ≡ self.old.low }
        ensures closed { IsClosed self.old slots.old self.new slots.new }
    {
        slots[ring_index(self.oldest, self.used, slots.len())] = Slot {
            upto: self.frontier - 1,
            value: self.value,
        };
        self.used += 1;
    }

    /// Drops the oldest run.
    fn forget(&mut self, slots: &[Slot])
        requires belongs { Belongs self.old slots.now }
        requires some_run { 0 < self.old.used }
        ensures belongs { Belongs self.new slots.now }
        ensures newest { KeepsNewest self.old self.new }
        ensures rises { low_of self.old ≤ low_of self.new }
        ensures fewer { self.new.used + 1 ≡ self.old.used }
        ensures bounded { low_of self.new + self.new.used ≤ self.old.since }
        ensures kept { (t : ℕ) → low_of self.new ≤ t
            → verdict_at self.new slots.now t ≡ verdict_at self.old slots.now t }
    {
        self.low = slots[self.oldest].upto + 1;
        self.oldest = ring_index(self.oldest, 1, slots.len());
        self.used -= 1;
    }

    /// Returns the run before the newest one that holds time `from`, found by halving the
    /// candidates. It stays out of line, so that a read of the newest run takes only a few
    /// instructions.
    #[inline(never)]
    fn run_at(&self, slots: &[Slot], from: u64, near: &mut usize) -> Slot
        requires belongs { Belongs self.now slots.now }
        requires kept { low_of self.now ≤ from }
        requires before { from < self.now.since }
        ensures reaches { from ≤ result.upto }
        ensures before { result.upto < self.now.since }
        ensures verdict { (t : ℕ) → from ≤ t → t ≤ result.upto
            → verdict_at self.now slots.now t ≡ result.value }
        ensures ends { verdict_at self.now slots.now (result.upto + 1) ≢ result.value }
        ensures takes { runs_to (result.upto + 1) (runs_of self.now slots.now) + 1
            ≤ runs_to from (runs_of self.now slots.now) }
    {
        let (mut first, mut last) = self.around(slots, from, *near);
        'halving: while first < last {
            let middle = first + (last - first) / 2;
            if slots[ring_index(self.oldest, middle, slots.len())].upto < from {
                first = middle + 1;
            } else {
                last = middle;
            }
        }
        *near = first;
        slots[ring_index(self.oldest, first, slots.len())]
    }

    /// Returns the first and the last of the runs in the slots that may hold time `from`: only run
    /// `near`, or the one after it, if one of these holds it.
    fn around(&self, slots: &[Slot], from: u64, near: usize) -> (usize, usize)
        requires belongs { Belongs self.now slots.now }
        requires kept { low_of self.now ≤ from }
        requires before { from < self.now.since }
        ensures around { IsAround self.now slots.now from result.0 result.1 }
    {
        if near < self.used && (near == 0 || self.end_of(slots, near - 1) < from) {
            if from <= self.end_of(slots, near) {
                return (near, near);
            }
            let next = near + 1;
            if next < self.used && from <= self.end_of(slots, next) {
                return (next, next);
            }
        }
        self.newest_around(slots, from)
    }

    /// Returns the last time of run `k` in the slots.
    fn end_of(&self, slots: &[Slot], k: usize) -> u64
        requires belongs { Belongs self.now slots.now }
        requires exists { k < self.now.used }
        ensures { result ≡ upto_at (runs_of self.now slots.now) k }
    {
        slots[ring_index(self.oldest, k, slots.len())].upto
    }

    /// Returns the first and the last of the runs in the slots that may hold time `from`. Most
    /// readers want a new run, so it looks back from the last one, in growing steps.
    fn newest_around(&self, slots: &[Slot], from: u64) -> (usize, usize)
        requires belongs { Belongs self.now slots.now }
        requires kept { low_of self.now ≤ from }
        requires before { from < self.now.since }
        ensures around { IsAround self.now slots.now from result.0 result.1 }
    {
        let mut last = self.used - 1;
        let mut step = 1;
        'back: while step <= last {
            let before = last - step;
            if slots[ring_index(self.oldest, before, slots.len())].upto < from {
                return (before + 1, last);
            }
            last = before;
            step += step;
        }
        (0, last)
    }
}
