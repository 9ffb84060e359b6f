//! Queues that restart.

ghost use Rattle.std.specs.Prelude.{◌≡◌, ℕ, ◌<◌, length};
ghost use Rattle.ft_engine.specs.Queues.{KeepsSeats, op_at, queue_at};
ghost use Rattle.ft_engine.specs.Restarts.{IsEmptied};

use crate::queue::{Queue, first_read};
use mltl_base::FtOp;
use scq_ring::Ring;

/// Drops all verdicts of the queues of instructions. Each queue keeps its part of the slab.
pub fn restart(ops: &[FtOp], queues: &mut [Queue])
    requires { length queues.old ≡ length ops.now }
    ensures seats { KeepsSeats queues.old queues.new }
    ensures emptied { (i : ℕ) → i < length ops.now
        → IsEmptied (op_at ops.now i) (queue_at queues.new i) }
{
    for (i, op) in ops.iter().enumerate() {
        queues[i] = Queue {
            ring: Ring::make(),
            reads_at: first_read(*op),
            seat: queues[i].seat,
        };
    }
}
