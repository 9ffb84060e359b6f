//! Queues of instructions, over their parts of the slab.

ghost use Rattle.std.specs.Prelude.{◌≡◌, ◌+◌, ◌<◌, ◌≤◌, length};
ghost use Rattle.mltl_base.specs.Seats.{part};
ghost use Rattle.ft_engine.specs.Queues.{first_read_of, queue_at};

use crate::operand::Operand;
use mltl_base::{FtOp, Seat};
use scq_ring::{Ring, Slot};

/// The queue of an instruction: its ring, its next reading time if it is an until, and its part of
/// the slab.
#[derive(Drop)]
pub struct Queue {
    pub ring: Ring,
    pub reads_at: u64,
    pub seat: Seat,
}

/// Returns the time at which an instruction reads its operands first.
pub fn first_read(op: FtOp) -> u64
    ensures { result ≡ first_read_of op }
{
    match op {
        FtOp::Until(_, _, window) => u64::from(window.lo),
        _ => 0,
    }
}

/// Returns the queue of instruction `i`, as an operand.
pub fn operand<'a>(queues: &'a [Queue], slab: &'a [Slot], i: u32) -> Operand<'a>
    requires exists { i < length queues.now }
    requires within { (queue_at queues.now i).seat.start + (queue_at queues.now i).seat.size
        ≤ length slab.now }
    ensures ring { result.ring.now ≡ (queue_at queues.now i).ring }
    ensures slots { result.slots.now ≡ part slab.now (queue_at queues.now i).seat }
{
    let queue = &queues[i as usize];
    let end = queue.seat.start + queue.seat.size;
    Operand {
        ring: &queue.ring,
        slots: &slab[queue.seat.start..end],
    }
}
