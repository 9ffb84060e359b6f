//! One row for all future-time instructions.

ghost use Rattle.std.specs.Prelude.{◌≡◌, ℕ, ◌+◌, ◌^◌, ◌<◌, ◌≤◌, length};
ghost use Rattle.mltl_base.specs.declared.limits.TheConstants.{MAX_MISSION};
ghost use Rattle.mltl_base.specs.declared.operators.FtOp.TheVariants.{Load as loads};
ghost use Rattle.ft_engine.specs.Plans.{CanTakeRow, IsOnPlan, IsPaced, IsReadyForRow, Plan};
ghost use Rattle.ft_engine.specs.Queues.{KeepsSeats, op_at, size_in, work_before, work_of};
ghost use Rattle.ft_engine.specs.Tables.{AgreeOnLoads, Agrees, HaveVerdicts, KnowsVerdicts, IsUpToDate, Loads, VerdictTable, QueuesTake};

use crate::conjunction::and_row;
use crate::negation::not_row;
use crate::queue::{Queue, operand};
use crate::until::{Until, until_row};
use booleanizer::Bz;
use mltl_base::FtOp;
use mltl_base::steps::Steps;
use scq_ring::Slot;
use std::sync::ledger::Ledger;

/// Takes the row for one instruction. The queues before it are `before`, their slots `earlier`.
fn step<L: Ledger>(
    op: FtOp,
    bz: &Bz,
    before: &[Queue],
    earlier: &[Slot],
    queue: &mut Queue,
    own: &mut [Slot],
    steps: &mut Steps<L>,
)
    requires loaded { (k : ℕ) → op ≡ loads k → k < length bz.now }
    requires ready { CanTakeRow op before.now earlier.now queue.old own.old }
    ensures seat { queue.new.seat ≡ queue.old.seat }
    ensures pace { (plan : Plan) (n : ℕ)
        → IsReadyForRow plan n op before.now earlier.now queue.old own.old
        → IsOnPlan plan op before.now queue.new own.new (n + 1) }
    ensures counted { steps.new ≤ steps.old + work_of (size_in before.now) op (length own.old) }
    ensures verdicts { (plan : Plan) (truth : Loads) (n : ℕ) (old new : VerdictTable)
        → KnowsVerdicts plan truth n op before.now earlier.now queue.old own.old old new
        → Agrees op (truth n) bz.now → IsUpToDate op new before.now queue.new own.new }
{
    let next = queue.ring.frontier();
    match op {
        FtOp::True => queue.ring.write(own, next, true, steps),
        FtOp::Load(k) => queue.ring.write(own, next, bz.truth(k), steps),
        FtOp::Not(g) => not_row(&mut queue.ring, own, operand(before, earlier, g), steps),
        FtOp::And(l, r) => {
            let left = operand(before, earlier, l);
            let right = operand(before, earlier, r);
            and_row(&mut queue.ring, own, left, right, steps);
        }
        FtOp::Until(l, r, window) => {
            let until = Until {
                left: operand(before, earlier, l),
                right: operand(before, earlier, r),
                window,
            };
            queue.reads_at = until_row(&mut queue.ring, own, queue.reads_at, until, steps);
        }
    }
}

/// Takes the row for all instructions in order. Each has its own part of the slab, after its
/// operands' parts.
pub fn row_of<L: Ledger>(
    ops: &[FtOp],
    bz: &Bz,
    queues: &mut [Queue],
    slab: &mut [Slot],
    steps: &mut Steps<L>,
)
    requires loaded { (i k : ℕ) → i < length ops.now → op_at ops.now i ≡ loads k
        → k < length bz.now }
    requires ready { (plan : Plan) × (n : ℕ) × (n < MAX_MISSION)
        × IsPaced plan ops.now queues.old slab.old n }
    ensures seats { KeepsSeats queues.old queues.new }
    ensures paced { (plan : Plan) (n : ℕ) → n < MAX_MISSION
        → IsPaced plan ops.now queues.old slab.old n
        → IsPaced plan ops.now queues.new slab.new (n + 1) }
    ensures counted { steps.new
        ≤ steps.old + work_before ops.now (size_in queues.old) (length ops.now) }
    ensures verdicts { (plan : Plan) (truth : Loads) (n : ℕ) (old new : VerdictTable)
        → QueuesTake plan truth n ops.now queues.old slab.old old new
        → AgreeOnLoads ops.now (truth n) bz.now → HaveVerdicts ops.now new queues.new slab.new }
{
    for i in 0..ops.len() {
        let (before, rest) = queues.split_at_mut(i);
        let queue = &mut rest[0];
        let (earlier, high) = slab.split_at_mut(queue.seat.start);
        let own = &mut high[..queue.seat.size];
        step(ops[i], bz, before, earlier, queue, own, steps);
    }
}
