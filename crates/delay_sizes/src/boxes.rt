//! The boxes of past-time instructions: the stretches of times that a Since keeps of its past.

ghost use Rattle.std.specs.Prelude.{◌≡◌, ℕ, ◌+◌, ◌-◌, ◌≤◌, ◌<◌, ◌^◌, List, length, All, IfOk};
ghost use Rattle.mltl_base.specs.Queues.{AreApart, HasPastBounds, boxes, box_counts as counts};

use mltl_base::limits::MAX_BOUND;
use mltl_base::{Interval, List, PtOp};
use std::alloc::{AllocError, Global};

/// Returns the most boxes that a Since with this interval keeps.
pub fn box_count(interval: Interval) -> u32
    requires ordered { interval.lo ≤ interval.hi }
    requires bounded { interval.hi ≤ MAX_BOUND }
    ensures { result ≡ boxes interval }
{
    interval.hi / (interval.hi - interval.lo + 2) + 1
}

/// States that these boxes are enough: after each row the boxes of a Since with `[a,b]` end at
/// times at least `b - a + 2` apart, and within `b + 1` times.
pub fn few_boxes()
    ensures { (i : Interval) (low : ℕ) (ends : List ℕ) → i.lo ≤ i.hi
        → AreApart (i.hi - i.lo + 2) low (low + i.hi) ends → length ends ≤ boxes i }
{}

/// Returns the most boxes of each past-time instruction, in order: 0 unless it is a Since.
pub fn box_counts(alloc: Global, pt: &List<PtOp>) -> Result<List<u32>, AllocError>
    requires { All (HasPastBounds MAX_BOUND) pt.now }
    ensures counted { IfOk result (λ sizes. sizes ≡ counts pt.now) }
    ensures small { IfOk result (All (λ n. n ≤ MAX_BOUND)) }
{
    let mut sizes = List::new(alloc);
    for op in pt.as_slice() {
        let size = match *op {
            PtOp::Since(_, _, interval) => box_count(interval),
            _ => 0,
        };
        sizes.push(size)?;
    }
    Ok(sizes)
}
