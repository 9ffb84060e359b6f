//! Propagation delays of future-time instructions, in rows.

ghost use Rattle.std.specs.Prelude.{◌≡◌, ℕ, ◌+◌, ◌≤◌, ◌<◌, ◌^◌, length, slice_index, All, IfOk};
ghost use Rattle.mltl_base.specs.Queues.{AreInOrder, HasBounds, IsAfterOperands, IsFirstLate, best_of, worst_of, best_delays, worst_delays};

use crate::delay_lists::Delays;
use mltl_base::limits::{MAX_BOUND, MAX_DELAY};
use mltl_base::{FtOp, List};
use std::alloc::{AllocFailed, Global};
use thiserror::Error;

/// The reason why instructions have no delays.
#[derive(Clone, Copy, Debug, Error)]
pub enum DelayFault {
    /// This is the first instruction whose worst-case delay is above the limit.
    #[error("the delay of instruction {0} is too large")]
    TooLate(u32),
    #[error("out of memory")]
    Memory,
}

impl From<AllocFailed<u32>> for DelayFault {
    ghost use Rattle.delay_sizes.specs.declared.propagation.DelayFault.TheVariants.{Memory};

    ghost from_gives = { λ _ fault. fault ≡ Memory };

    fn from(_refused: AllocFailed<u32>) -> DelayFault {
        DelayFault::Memory
    }
}

/// Returns the delays of future-time instructions, or the first that is too late.
pub fn delays(alloc: Global, ft: &List<FtOp>) -> Result<Delays, DelayFault>
    requires few { length ft.now < 2 ^ 32 }
    requires in_order { AreInOrder ft.now }
    requires bounded { All (HasBounds MAX_BOUND) ft.now }
    ensures best { IfOk result (λ d. d.best ≡ best_delays ft.now) }
    ensures worst { IfOk result (λ d. d.worst ≡ worst_delays ft.now) }
    ensures in_time { IfOk result (λ d. All (λ rows. rows ≤ MAX_DELAY) d.worst) }
    ensures too_late { (i : ℕ) →
        result ≡ Err (DelayFault.TooLate i) → IsFirstLate MAX_DELAY (worst_delays ft.now) i }
{
    let mut best = List::new(alloc);
    let mut worst = List::new(alloc);
    for (i, op) in ft.as_slice().iter().enumerate() {
        let earliest = best_delay(op, best.as_slice());
        let latest = worst_delay(op, worst.as_slice());
        if latest > MAX_DELAY {
            return Err(DelayFault::TooLate(i as u32));
        }
        best.push(earliest)?;
        worst.push(latest)?;
    }
    Ok(Delays { best, worst })
}

/// Returns the best-case delay of an instruction, from the delays of the instructions before it.
fn best_delay(op: &FtOp, bests: &[u32]) -> u32
    requires after { IsAfterOperands (length bests.now) op.now }
    requires bounded { HasBounds MAX_BOUND op.now }
    requires in_time { All (λ rows. rows ≤ MAX_DELAY) bests.now }
    ensures { result ≡ best_of bests.now op.now }
{
    match *op {
        FtOp::True | FtOp::Load(_) => 0,
        FtOp::Not(g) => bests[g as usize],
        FtOp::And(l, r) => bests[l as usize].min(bests[r as usize]),
        FtOp::Until(l, r, interval) => bests[l as usize].min(bests[r as usize]) + interval.lo,
    }
}

/// Returns the worst-case delay of an instruction, from the delays of the instructions before it.
fn worst_delay(op: &FtOp, worsts: &[u32]) -> u32
    requires after { IsAfterOperands (length worsts.now) op.now }
    requires bounded { HasBounds MAX_BOUND op.now }
    requires in_time { All (λ rows. rows ≤ MAX_DELAY) worsts.now }
    ensures { result ≡ worst_of worsts.now op.now }
{
    match *op {
        FtOp::True | FtOp::Load(_) => 0,
        FtOp::Not(g) => worsts[g as usize],
        FtOp::And(l, r) => worsts[l as usize].max(worsts[r as usize]),
        FtOp::Until(l, r, interval) => worsts[l as usize].max(worsts[r as usize]) + interval.hi,
    }
}
