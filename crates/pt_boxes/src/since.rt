//! One row for a Since over its boxes.

ghost use Rattle.std.specs.Prelude.{◌≡◌, ℕ, Bool, ◌+◌, ◌^◌, ◌<◌, ◌≤◌, [], if◌then◌else◌};
ghost use Rattle.mltl_base.specs.declared.limits.TheConstants.{MAX_MISSION};
ghost use Rattle.mltl_base.specs.declared.interval.Interval.{Interval};
ghost use Rattle.pt_boxes.specs.Boxes.{SpansOf, kept};
ghost use Rattle.pt_boxes.specs.Nodes.{KeepsSince};
ghost use Rattle.pt_boxes.specs.Spans.{SpansLieApart, SpanSince, in_some, stretch_at, with_stretch, without_ended};

use crate::boxes::{Boxes, Span};
use delay_sizes::few_boxes;
use mltl_base::Interval;
use mltl_base::limits::MAX_BOUND;
use mltl_base::steps::Steps;
use std::sync::ledger::Ledger;

/// Drops the oldest box if it ended before this time, and all boxes if the left operand is false
/// then.
fn age(boxes: &mut Boxes, spans: &[Span], now: u64, left: bool)
    requires belongs { SpansOf boxes.old spans.now }
    ensures belongs { SpansOf boxes.new spans.now }
    ensures rest { kept boxes.new spans.now
        ≡ if left then without_ended now (kept boxes.old spans.now) else [] }
    ensures apart { (i : Interval) → SpansLieApart i now 0 (kept boxes.old spans.now)
        → SpansLieApart i (now + 1) 0 (kept boxes.new spans.now) }
{
    if left {
        boxes.let_ended_go(spans, now);
    } else {
        boxes.clear();
    }
}

/// Returns the stretch that a right operand opens if it is true at this time.
fn stretch_from(window: Interval, now: u64) -> Span
    requires ordered { window.lo ≤ window.hi }
    requires bounded { window.hi ≤ MAX_BOUND }
    requires early { now < MAX_MISSION }
    ensures { result ≡ stretch_at window now }
{
    Span {
        first: now + u64::from(window.lo),
        last: now + u64::from(window.hi),
    }
}

/// Adds the stretch of a right operand that is true. There is room: boxes that lie apart are few.
fn open(boxes: &mut Boxes, spans: &mut [Span], window: Interval, now: u64, right: bool)
    requires ordered { window.lo ≤ window.hi }
    requires bounded { window.hi ≤ MAX_BOUND }
    requires early { now < MAX_MISSION }
    requires kept { KeepsSince window (now + 1) boxes.old spans.old }
    ensures kept { KeepsSince window (now + 1) boxes.new spans.new }
    ensures opened { kept boxes.new spans.new
        ≡ if right then with_stretch (stretch_at window now) (kept boxes.old spans.old)
        else kept boxes.old spans.old }
{
    few_boxes();
    if right {
        boxes.add(spans, stretch_from(window, now));
    }
}

/// Returns true if the last row's time lies in a box.
fn holds(boxes: &Boxes, spans: &[Span], window: Interval, now: u64) -> bool
    requires belongs { SpansOf boxes.now spans.now }
    requires apart { SpansLieApart window (now + 1) 0 (kept boxes.now spans.now) }
    ensures holds { result ≡ in_some (kept boxes.now spans.now) now }
{
    match boxes.oldest(spans) {
        None => false,
        Some(oldest) => oldest.first <= now,
    }
}

/// Takes the row at time `now`, at which the operands are `left` and `right`. Returns true if the
/// Since holds then. Counts a step for its oldest and one for its newest box.
pub fn since_row<L: Ledger>(
    boxes: &mut Boxes,
    spans: &mut [Span],
    window: Interval,
    now: u64,
    left: bool,
    right: bool,
    steps: &mut Steps<L>,
) -> bool
    requires ordered { window.lo ≤ window.hi }
    requires bounded { window.hi ≤ MAX_BOUND }
    requires early { now < MAX_MISSION }
    requires kept { KeepsSince window now boxes.old spans.old }
    ensures kept { KeepsSince window (now + 1) boxes.new spans.new }
    ensures told { (p q : ℕ → Bool) → SpanSince window p q now (kept boxes.old spans.old)
        → p now ≡ left → q now ≡ right
        → SpanSince window p q (now + 1) (kept boxes.new spans.new) }
    ensures holds { result ≡ in_some (kept boxes.new spans.new) now }
    ensures counted { steps.new ≤ steps.old + 2 }
{
    steps.tick();
    age(boxes, spans, now, left);
    steps.tick();
    open(boxes, spans, window, now, right);
    holds(boxes, spans, window, now)
}
