//! Laws on the number of runs of a ring.
//!
//! Each law is the contract of a function with an empty body.

ghost use Rattle.std.specs.Prelude.{ℕ, ◌+◌, ◌≤◌, List, length};
ghost use Rattle.scq_ring.specs.Runs.{Belongs, runs_from};
ghost use Rattle.scq_ring.specs.declared.runs.Ring.{Ring};
ghost use Rattle.scq_ring.specs.declared.runs.Slot.{Slot};

/// A ring holds at most one run more than it has slots, and the later a time, the fewer runs end at
/// or after it.
#[tactic(auto, using(crate::proofs::RunLemmas::runs_from_few, crate::proofs::RunLemmas::runs_from_later))]
pub fn runs_are_few()
    ensures few { (ring : Ring) (slots : List Slot) (from : ℕ) → Belongs ring slots
        → runs_from ring slots from ≤ length slots + 1 }
    ensures falls { (ring : Ring) (slots : List Slot) (t u : ℕ) → t ≤ u
        → runs_from ring slots u ≤ runs_from ring slots t }
{}
