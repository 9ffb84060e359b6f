//! One row for an until.

ghost use Rattle.std.specs.Prelude.{◌≡◌, ℕ, ◌+◌, ◌^◌, ◌<◌, ◌≤◌};
ghost use Rattle.scq_ring.specs.Runs.{Belongs, frontier_of};
ghost use Rattle.ft_engine.specs.Decisions.{GoesOn};
ghost use Rattle.ft_engine.specs.Scans.{CanScan, DecidesFrom, HasEnough, IsNextRead, IsReadingOf, IsToRead, Leads, TurnFinds, reads_of, row_steps, steps_after, steps_by_runs, steps_left};

use crate::operand::{Near, Operand};
use mltl_base::Interval;
use mltl_base::steps::Steps;
use scq_ring::{Ring, Seen, Slot};
use std::sync::ledger::Ledger;

/// The operands of an until, and its window.
#[derive(Clone, Copy)]
pub struct Until<'a> {
    pub left: Operand<'a>,
    pub right: Operand<'a>,
    pub window: Interval,
}

/// The place where an until reads on: its reading time, before which the left operand is true, and
/// a time before which the right one is seen to be false. The second goes ahead of the first within
/// a row.
#[derive(Clone, Copy)]
struct Reading {
    reads_at: u64,
    seen: u64,
}

/// The next step of an until, and the place where it then reads on.
#[derive(Clone, Copy)]
enum Turn {
    /// Nothing is decided yet.
    Look(Reading),
    /// All times up to the number have this value.
    Decide(u64, bool, Reading),
    /// Nothing more is known.
    Stop,
}

/// Decides an until of the operands from its frontier on, as far as it is known. Returns its
/// reading time.
///
/// At the reading time it reads its operands next. From the lower end of its window up to there the
/// left operand is true and the right one false, so nothing before the reading time is read again.
pub fn until_row<L: Ledger>(
    own: &mut Ring,
    own_slots: &mut [Slot],
    reads_at: u64,
    until: Until,
    steps: &mut Steps<L>,
) -> u64
    requires belongs { Belongs own.old own_slots.old }
    requires can_scan { CanScan until (frontier_of own.old) reads_at }
    ensures goes_on { GoesOn own.old own_slots.old own.new own_slots.new }
    ensures enough { HasEnough until.entry (frontier_of own.new) }
    ensures counted { steps.new ≤ steps.old + row_steps until.entry reads_at own.old own.new }
    ensures by_runs { steps.new ≤ steps.old + steps_by_runs until.entry reads_at }
    ensures reads_at { IsNextRead until.entry (frontier_of own.new) reads_at result }
    ensures decided { DecidesFrom until.entry own.old reads_at own.new own_slots.new result }
{
    let mut at = Reading {
        reads_at,
        seen: reads_at,
    };
    let mut near = Near::NONE;
    'turns: loop {
        match next_turn(own.frontier(), at, until, &mut near, steps) {
            Turn::Stop => return at.reads_at,
            Turn::Look(next) => at = next,
            Turn::Decide(upto, value, next) => {
                own.write(own_slots, upto, value, steps);
                at = next;
            }
        }
    }
}

/// Returns the next step if time `from` isn't decided.
fn next_turn<L: Ledger>(
    from: u64,
    at: Reading,
    until: Until,
    near: &mut Near,
    steps: &mut Steps<L>,
) -> Turn
    requires can_scan { CanScan until from at.reads_at }
    requires reading { IsReadingOf until at }
    ensures leads { Leads until.entry from at result }
    ensures counted { steps.new ≤ steps.old + reads_of at result }
    ensures by_runs { steps.new + steps_after until.entry from result
        ≤ steps.old + steps_left until.entry from at.reads_at at.seen }
    ensures finds { TurnFinds until.entry from at result }
{
    let lo = u64::from(until.window.lo);
    let hi = u64::from(until.window.hi);
    if from + hi < at.seen {
        // The right operand is false all over the window of each time up to here.
        let reads_at = at.reads_at.max(at.seen - (hi - lo));
        return Turn::Decide(at.seen - 1 - hi, false, Reading { reads_at, ..at });
    }
    if at.reads_at == at.seen {
        read_right(from, at, until, near, steps)
    } else {
        read_left(from, at, until, near, steps)
    }
}

/// Reads the right operand, if the left one is true up to the place where it was seen.
fn read_right<L: Ledger>(
    from: u64,
    at: Reading,
    until: Until,
    near: &mut Near,
    steps: &mut Steps<L>,
) -> Turn
    requires to_read { IsToRead until from at }
    requires level { at.reads_at ≡ at.seen }
    ensures leads { Leads until.entry from at result }
    ensures counted { steps.new ≤ steps.old + reads_of at result }
    ensures by_runs { steps.new + steps_after until.entry from result
        ≤ steps.old + steps_left until.entry from at.reads_at at.seen }
    ensures finds { TurnFinds until.entry from at result }
{
    match until.right.read_near(at.reads_at, &mut near.right, steps) {
        Seen::Nothing => Turn::Stop,
        Seen::Run(end, value) => {
            let seen = end + 1;
            if value {
                let lo = u64::from(until.window.lo);
                Turn::Decide(
                    end - lo,
                    true,
                    Reading {
                        reads_at: seen,
                        seen,
                    },
                )
            } else {
                Turn::Look(Reading { seen, ..at })
            }
        }
    }
}

/// Reads the left operand, if the right one is seen to be false ahead of the reading time.
fn read_left<L: Ledger>(
    from: u64,
    at: Reading,
    until: Until,
    near: &mut Near,
    steps: &mut Steps<L>,
) -> Turn
    requires to_read { IsToRead until from at }
    requires earlier { at.reads_at < at.seen }
    ensures leads { Leads until.entry from at result }
    ensures counted { steps.new ≤ steps.old + reads_of at result }
    ensures by_runs { steps.new + steps_after until.entry from result
        ≤ steps.old + steps_left until.entry from at.reads_at at.seen }
    ensures finds { TurnFinds until.entry from at result }
{
    match until.left.read_near(at.reads_at, &mut near.left, steps) {
        Seen::Nothing => read_ahead(from, at, until, near, steps),
        Seen::Run(end, value) => {
            let last = end.min(at.seen - 1);
            let next = Reading {
                reads_at: last + 1,
                ..at
            };
            if value {
                Turn::Look(next)
            } else {
                let lo = u64::from(until.window.lo);
                Turn::Decide(last - lo, false, next)
            }
        }
    }
}

/// Reads the right operand past the left one's end: it may still be false to the end of the window.
fn read_ahead<L: Ledger>(
    from: u64,
    at: Reading,
    until: Until,
    near: &mut Near,
    steps: &mut Steps<L>,
) -> Turn
    requires to_read { IsToRead until from at }
    requires earlier { at.reads_at < at.seen }
    requires ended { frontier_of until.left.ring.now ≤ at.reads_at }
    ensures leads { Leads until.entry from at result }
    ensures counted { steps.new + 1 ≤ steps.old + reads_of at result }
    ensures by_runs { steps.new + 1 + steps_after until.entry from result
        ≤ steps.old + steps_left until.entry from at.reads_at at.seen }
    ensures finds { TurnFinds until.entry from at result }
{
    match until.right.read_near(at.seen, &mut near.right, steps) {
        Seen::Nothing => Turn::Stop,
        Seen::Run(end, value) => if value {
            Turn::Stop
        } else {
            let seen = end + 1;
            Turn::Look(Reading { seen, ..at })
        }
    }
}
