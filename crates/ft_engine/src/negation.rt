//! One row for a negation.

ghost use Rattle.std.specs.Prelude.{◌≡◌, ℕ, ◌+◌, ◌-◌, ◌*◌, ◌^◌, ◌<◌, ◌≤◌, max};
ghost use Rattle.mltl_base.specs.declared.limits.TheConstants.{TIME_END};
ghost use Rattle.mltl_base.specs.Verdicts.{Known, k_negation};
ghost use Rattle.scq_ring.specs.Runs.{Belongs, frontier_of};
ghost use Rattle.ft_engine.specs.Decisions.{Decides, GoesOn, CanBeReadFrom, ShownBy, operand_runs};

use crate::operand::Operand;
use mltl_base::steps::Steps;
use scq_ring::{Ring, Seen, Slot};
use std::sync::ledger::Ledger;

/// Decides the negation of the operand from its own frontier on, as far as it is known.
pub fn not_row<L: Ledger>(
    own: &mut Ring,
    own_slots: &mut [Slot],
    operand: Operand,
    steps: &mut Steps<L>,
)
    requires belongs { Belongs own.old own_slots.old }
    requires operand { CanBeReadFrom operand (frontier_of own.old) }
    requires in_time { frontier_of operand.ring.now ≤ TIME_END }
    ensures goes_on { GoesOn own.old own_slots.old own.new own_slots.new }
    ensures frontier { frontier_of own.new
        ≡ max (frontier_of own.old) (frontier_of operand.entry.ring.now) }
    ensures counted { steps.new ≤ steps.old + 2 * (frontier_of own.new - frontier_of own.old) + 1 }
    ensures by_runs { steps.new
        ≤ steps.old + 2 * operand_runs operand.entry (frontier_of own.old) + 1 }
    ensures decided { (p : Known) → ShownBy operand.entry p
        → Decides (k_negation p) own.new own_slots.new (frontier_of own.old) }
{
    let mut near = usize::MAX;
    'turns: loop {
        match operand.read_near(own.frontier(), &mut near, steps) {
            Seen::Nothing => return,
            Seen::Run(end, value) => own.write(own_slots, end, !value, steps),
        }
    }
}
