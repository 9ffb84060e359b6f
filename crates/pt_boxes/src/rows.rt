//! One row for all past-time instructions.

ghost use Rattle.std.specs.Prelude.{◌≡◌, ℕ, ◌+◌, ◌^◌, ◌<◌, ◌≤◌, length, sum_by};
ghost use Rattle.mltl_base.specs.declared.limits.TheConstants.{MAX_MISSION};
ghost use Rattle.mltl_base.specs.declared.operators.PtOp.TheVariants.{Load as loads};
ghost use Rattle.mltl_base.specs.Queues.{HasPastBounds, boxes_of};
ghost use Rattle.obs_verify.specs.Running.{ArePastInOrder, IsAfterPastOperands};
ghost use Rattle.pt_boxes.specs.Boxes.{kept};
ghost use Rattle.pt_boxes.specs.Nodes.{AreKept, KeepsRoom, node_at, op_at};
ghost use Rattle.pt_boxes.specs.Tables.{LoadsMatchTable, HasTable, IsTruthTable, IsTurn, TruthTable, TookTurn};

use crate::boxes::{Boxes, Span};
use crate::since::since_row;
use booleanizer::Bz;
use mltl_base::limits::MAX_BOUND;
use mltl_base::steps::Steps;
use mltl_base::{PtOp, Seat};
use std::sync::ledger::Ledger;

/// An instruction: its boxes, its truth at the last row, and its part of the slab.
#[derive(Drop)]
pub struct Node {
    pub boxes: Boxes,
    pub truth: bool,
    pub seat: Seat,
}

/// Returns true if instruction `i` holds at the row.
fn truth_at(nodes: &[Node], i: u32) -> bool
    requires { i < length nodes.now }
    ensures { result ≡ (node_at nodes.now i).truth }
{
    nodes[i as usize].truth
}

/// Takes the row at time `now` for one instruction, after the nodes `before` it. Returns true if
/// the instruction holds then. Counts a step, besides the steps of a Since.
fn step<L: Ledger>(
    op: PtOp,
    bz: &Bz,
    now: u64,
    before: &[Node],
    boxes: &mut Boxes,
    own: &mut [Span],
    steps: &mut Steps<L>,
) -> bool
    requires order { IsAfterPastOperands (length before.now) op }
    requires bounded { HasPastBounds MAX_BOUND op }
    requires loaded { (k : ℕ) → op ≡ loads k → k < length bz.now }
    requires early { now < MAX_MISSION }
    requires kept { KeepsRoom op now boxes.old own.old }
    ensures kept { KeepsRoom op (now + 1) boxes.new own.new }
    ensures told { (loaded table : TruthTable)
        → IsTurn op bz.now loaded table now before.now (kept boxes.old own.old)
        → TookTurn op table now before.now result (kept boxes.new own.new) }
    ensures counted { steps.new ≤ steps.old + (boxes_of op + 2) }
{
    steps.tick();
    match op {
        PtOp::True => true,
        PtOp::Load(k) => bz.truth(k),
        PtOp::Not(g) => !truth_at(before, g),
        PtOp::And(l, r) => truth_at(before, l) && truth_at(before, r),
        PtOp::Since(l, r, window) => since_row(
            boxes,
            own,
            window,
            now,
            truth_at(before, l),
            truth_at(before, r),
            steps,
        ),
    }
}

/// Takes the row at time `now` for all instructions in order. Each has its own part of the slab.
pub fn row_of<L: Ledger>(
    ops: &[PtOp],
    bz: &Bz,
    now: u64,
    nodes: &mut [Node],
    slab: &mut [Span],
    steps: &mut Steps<L>,
)
    requires order { ArePastInOrder ops.now }
    requires bounded { (i : ℕ) → i < length ops.now → HasPastBounds MAX_BOUND (op_at ops.now i) }
    requires loaded { (i k : ℕ) → i < length ops.now → op_at ops.now i ≡ loads k
        → k < length bz.now }
    requires early { now < MAX_MISSION }
    requires kept { AreKept ops.now now nodes.old slab.old }
    ensures kept { AreKept ops.now (now + 1) nodes.new slab.new }
    ensures table { (loaded table : TruthTable) → IsTruthTable ops.now loaded (now + 1) table
        → LoadsMatchTable ops.now bz.now loaded now
        → HasTable ops.now table now nodes.old slab.old
        → HasTable ops.now table (now + 1) nodes.new slab.new }
    ensures counted { steps.new ≤ steps.old + sum_by (λ op. boxes_of op + 2) ops.now }
{
    for (i, op) in ops.iter().enumerate() {
        let (before, rest) = nodes.split_at_mut(i);
        let node = &mut rest[0];
        let (_, high) = slab.split_at_mut(node.seat.start);
        let own = &mut high[..node.seat.size];
        node.truth = step(*op, bz, now, before, &mut node.boxes, own, steps);
    }
}
