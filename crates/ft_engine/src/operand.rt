//! Operands of operators.

ghost use Rattle.std.specs.Prelude.{◌≡◌, ◌+◌, ◌≤◌};
ghost use Rattle.scq_ring.specs.Runs.{Shows, TakesRun};
ghost use Rattle.ft_engine.specs.Decisions.{CanBeReadFrom};

use mltl_base::steps::Steps;
use scq_ring::{Ring, Seen, Slot};
use std::sync::ledger::Ledger;

/// The queue of an operand: a ring and the slots that belong to it.
#[derive(Clone, Copy)]
pub struct Operand<'a> {
    pub ring: &'a Ring,
    pub slots: &'a [Slot],
}

impl<'a> Operand<'a> {
    /// Reads the queue from time `from` on, and first looks at run `near`, as `Ring::read_near`
    /// does.
    #[inline(always)]
    pub(crate) fn read_near<L: Ledger>(
        self,
        from: u64,
        near: &mut usize,
        steps: &mut Steps<L>,
    ) -> Seen
        requires readable { CanBeReadFrom self from }
        ensures seen { Shows self.entry.ring.now self.entry.slots.now from result }
        ensures takes { TakesRun self.entry.ring.now self.entry.slots.now from result }
        ensures step { steps.new ≡ steps.old + 1 }
    {
        self.ring.read_near(self.slots, from, near, steps)
    }
}

/// The runs of two operands that were read last, to find the next ones.
#[derive(Clone, Copy)]
pub struct Near {
    pub left: usize,
    pub right: usize,
}

impl Near {
    /// No run was read yet.
    pub const NONE: Near = Near {
        left: usize::MAX,
        right: usize::MAX,
    };
}
