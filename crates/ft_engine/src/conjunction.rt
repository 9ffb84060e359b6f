//! One row for a conjunction.

ghost use Rattle.std.specs.Prelude.{◌≡◌, ℕ, ◌+◌, ◌-◌, ◌*◌, ◌^◌, ◌<◌, ◌≤◌};
ghost use Rattle.mltl_base.specs.declared.limits.TheConstants.{TIME_END};
ghost use Rattle.mltl_base.specs.Verdicts.{Known, k_conjunction};
ghost use Rattle.scq_ring.specs.Runs.{Belongs, frontier_of};
ghost use Rattle.ft_engine.specs.Decisions.{Decides, GoesAsFar, GoesOn, CanBothBeReadFrom, IsStoppedAfter, IsStretch, RunEndsBefore, ShownBy, TakesOne, first_end, last_end, operand_runs};

use crate::operand::{Near, Operand};
use mltl_base::steps::Steps;
use scq_ring::{Ring, Seen, Slot};
use std::sync::ledger::Ledger;

/// Decides the conjunction of the operands from its own frontier on, as far as it is known.
pub fn and_row<L: Ledger>(
    own: &mut Ring,
    own_slots: &mut [Slot],
    left: Operand,
    right: Operand,
    steps: &mut Steps<L>,
)
    requires belongs { Belongs own.old own_slots.old }
    requires operands { CanBothBeReadFrom left right (frontier_of own.old) }
    requires in_time { last_end left right ≤ TIME_END }
    ensures goes_on { GoesOn own.old own_slots.old own.new own_slots.new }
    ensures as_far { GoesAsFar left.entry right.entry own.old own.new }
    ensures counted { steps.new ≤ steps.old + 3 * (frontier_of own.new - frontier_of own.old) + 2 }
    ensures by_runs { steps.new ≤ steps.old + 3 * (operand_runs left.entry (frontier_of own.old)
        + operand_runs right.entry (frontier_of own.old)) + 2 }
    ensures decided { (p q : Known) → ShownBy left.entry p → ShownBy right.entry q
        → Decides (k_conjunction p q) own.new own_slots.new (frontier_of own.old) }
{
    let mut near = Near::NONE;
    'turns: loop {
        match conjunction_from(own.frontier(), left, right, &mut near, steps) {
            Seen::Nothing => return,
            Seen::Run(end, value) => own.write(own_slots, end, value, steps),
        }
    }
}

/// Returns the conjunction at time `from`, and a time up to which it stays the same.
fn conjunction_from<L: Ledger>(
    from: u64,
    left: Operand,
    right: Operand,
    near: &mut Near,
    steps: &mut Steps<L>,
) -> Seen
    requires operands { CanBothBeReadFrom left right from }
    ensures counted { steps.new ≤ steps.old + 2 }
    ensures takes { TakesOne left.entry right.entry from result }
    ensures within { RunEndsBefore from (last_end left.entry right.entry) result }
    ensures enough { IsStoppedAfter (first_end left.entry right.entry) from result }
    ensures decided { (p q : Known) → ShownBy left.entry p → ShownBy right.entry q
        → IsStretch (k_conjunction p q) from result }
{
    match left.read_near(from, &mut near.left, steps) {
        Seen::Nothing => match right.read_near(from, &mut near.right, steps) {
            Seen::Nothing => Seen::Nothing,
            Seen::Run(end, value) => if value {
                Seen::Nothing
            } else {
                Seen::Run(end, false)
            },
        },
        Seen::Run(left_end, left_value) => {
            if !left_value {
                return Seen::Run(left_end, false);
            }
            match right.read_near(from, &mut near.right, steps) {
                Seen::Nothing => Seen::Nothing,
                Seen::Run(right_end, right_value) => if right_value {
                    Seen::Run(left_end.min(right_end), true)
                } else {
                    Seen::Run(right_end, false)
                },
            }
        }
    }
}
