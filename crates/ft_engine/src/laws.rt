//! Laws on the queues of future-time instructions and the formulas that the instructions unfold to.
//!
//! Each law is the contract of a function with an empty body.

ghost use Rattle.std.specs.Prelude.{◌≡◌, ℕ, ◌+◌, ◌<◌, List, [], ◌∷◌, ◌++◌, length, slice_index, slice_index_or, All};
ghost use Rattle.mltl_base.specs.declared.limits.TheConstants.{MAX_BOUND};
ghost use Rattle.mltl_base.specs.declared.operators.FtOp.{FtOp};
ghost use Rattle.mltl_base.specs.declared.program.Out.{Out};
ghost use Rattle.mltl_base.specs.Atoms.{Row, Atom, holds, is_true};
ghost use Rattle.mltl_base.specs.Queues.{AreInOrder, HasBounds, queue_lengths};
ghost use Rattle.ft_engine.specs.Plans.{IsPlanned, IsPlannedFor, Plan, plan_of};
ghost use Rattle.ft_engine.specs.Queues.{op_at};
ghost use Rattle.ft_engine.specs.Tables.{Extends, IsTable, known_table, truth_at};

/// The known verdicts of the formulas of a program's instructions are the verdicts that the queues
/// must show.
#[tactic(auto, using(crate::proofs::Tabled::extends, crate::proofs::Tabled::nothing, crate::proofs::Tabled::truth_of_last))]
pub fn known_verdicts_are_a_table()
    ensures table { (plan : Plan) (rows : List Row) (loaded : List Atom) (ops : List FtOp)
        → ((i : ℕ) → i < length ops → IsPlanned plan i (op_at ops i))
        → IsTable ops (truth_at rows loaded) (length rows) (known_table rows loaded ops) }
    ensures stay { (rows more : List Row) (loaded : List Atom) (ops : List FtOp)
        → Extends (known_table rows loaded ops) (known_table (rows ++ more) loaded ops) }
    ensures first { (loaded : List Atom) (ops : List FtOp) (i : ℕ)
        → known_table [] loaded ops i ≡ [] }
    ensures last { (rows : List Row) (row : Row) (loaded : List Atom) (k : ℕ)
        → truth_at (rows ++ row ∷ []) loaded (length rows) k ≡ holds (slice_index_or loaded k (is_true 0)) row }
{}

/// The delays of a program are a plan of queues of the program's sizes.
pub fn delays_are_a_plan()
    ensures plan { (ops : List FtOp) (outs : List Out) → AreInOrder ops
        → All (HasBounds MAX_BOUND) ops
        → IsPlannedFor (plan_of ops outs) ops (slice_index (queue_lengths ops outs)) }
{}
