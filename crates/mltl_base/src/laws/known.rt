//! Laws of known verdicts: they stay, are settled, and come between the best and worst delays.

ghost use Rattle.mltl_base.specs.Atoms.{Row};
ghost use Rattle.mltl_base.specs.Formula.{Core, Formula, bpd, core, plain, wpd};
ghost use Rattle.mltl_base.specs.Meaning.{sat};
ghost use Rattle.mltl_base.specs.Programs.{IsFit};
ghost use Rattle.mltl_base.specs.Settled.{IsOrdered, IsPast, IsPrefix, Settled, SettledAmong};
ghost use Rattle.mltl_base.specs.Verdicts.{known_by_time, verdicts};
ghost use Rattle.mltl_base.specs.declared.program.Program.{Program as Observer};
ghost use Rattle.std.specs.Prelude.{◌≡◌, ℕ, ◌+◌, ◌-◌, ◌<◌, ◌≤◌, Bool, true, Some, List, ◌++◌, length, slice_get, All};

/// The known verdicts of rows begin the known verdicts of more rows.
#[tactic(auto, using(crate::proofs::Prefixes::verdicts_begin))]
pub fn verdicts_stay()
    ensures begins { (rows more : List Row) (p : Formula) →
        IsPrefix (verdicts rows p) (verdicts (rows ++ more) p) }
{}

/// A known verdict is settled: whatever rows follow, it is the meaning of the formula. Its time is
/// the time of a row, so a formula of the past, whose verdicts need no further row, has no verdict
/// at the number of rows or later.
#[tactic(auto, using(crate::proofs::Settling::verdict_settled, crate::proofs::Bounds::verdict_within))]
pub fn verdicts_are_settled()
    ensures settled { (rows : List Row) (p : Formula) (t : ℕ) (v : Bool) →
        slice_get (verdicts rows p) t ≡ Some v → Settled rows p t v }
    ensures at_row { (rows : List Row) (p : Formula) (t : ℕ) (v : Bool) →
        slice_get (verdicts rows p) t ≡ Some v → t < length rows }
{}

/// A settled verdict is settled among each class of further rows that a test selects, and among the
/// rows that fit a program.
#[tactic(auto, using(crate::proofs::Settling::settled_among))]
pub fn settled_among_each_class()
    ensures tested { (test : List Row → Bool) (rows : List Row) (p : Formula) (t : ℕ) (v : Bool) →
        Settled rows p t v → SettledAmong (λ more. test more ≡ true) rows p t v }
    ensures fit { (program : Observer) (rows : List Row) (p : Formula) (t : ℕ) (v : Bool) →
        Settled rows p t v → SettledAmong (All (IsFit program)) rows p t v }
{}

/// The verdicts of a formula that are known by time, defined without lists, are the list of its
/// known verdicts.
#[tactic(auto, using(crate::proofs::ByTime::verdicts_by_time))]
pub fn verdicts_are_known_by_time()
    ensures by_time { (rows : List Row) (p : Formula) (t : ℕ) →
        slice_get (verdicts rows p) t ≡ known_by_time rows p t }
{}

/// Each time below the number of rows less the worst delay is known, with the meaning of the
/// formula.
#[tactic(auto, using(crate::proofs::Settling::verdict_known))]
pub fn verdicts_come_in_time()
    ensures known { (rows : List Row) (p : Formula) (t : ℕ) →
        t + wpd p < length rows → slice_get (verdicts rows p) t ≡ Some (sat rows p t) }
{}

/// The number of known verdicts is at least the number of rows less the worst delay, and at most
/// the number of rows less the best delay of the core form.
#[tactic(auto, using(crate::proofs::Bounds::frontier_at_least, crate::proofs::Bounds::frontier_at_most, crate::proofs::CoreForms::formula_at_most))]
pub fn frontier_lies_between()
    ensures worst { (rows : List Row) (p : Formula) →
        length rows - wpd p ≤ length (verdicts rows p) }
    ensures best { (rows : List Row) (p : Core) →
        IsOrdered (plain p) → length (verdicts rows (plain p)) ≤ length rows - bpd p }
    ensures best_of_formula { (rows : List Row) (p : Formula) →
        IsOrdered p → length (verdicts rows p) ≤ length rows - bpd (core p) }
{}

/// A formula of the past is known at all times of the rows, with its meaning, and has no delay.
#[tactic(auto, using(crate::proofs::Bounds::past_known, crate::proofs::Bounds::past_all, crate::proofs::Bounds::past_at_once))]
pub fn past_is_known_at_once()
    ensures known { (rows : List Row) (p : Formula) → IsPast p →
        (t : ℕ) → t < length rows → slice_get (verdicts rows p) t ≡ Some (sat rows p t) }
    ensures all { (rows : List Row) (p : Formula) → IsPast p →
        length (verdicts rows p) ≡ length rows }
    ensures delay { (p : Formula) → IsPast p → wpd p ≡ 0 }
{}
