//! Laws that relate simplified formulas to their formulas: each law is the contract of a function
//! with an empty body.

ghost use Rattle.std.specs.Prelude.{◌≡◌, ◌+◌, ◌<◌, ◌≤◌, ℕ, All, Bool, true, List, Some, length, slice_get};
ghost use Rattle.mltl_base.specs.declared.limits.TheConstants.{MAX_BOUND};
ghost use Rattle.mltl_base.specs.Atoms.{Atom, Row};
ghost use Rattle.mltl_base.specs.Formula.{Formula, conjunction, disjunction, finally, formula_over, once, truth, wpd};
ghost use Rattle.mltl_base.specs.Kinds.{ReadsKinds};
ghost use Rattle.mltl_base.specs.Meaning.{sat};
ghost use Rattle.mltl_base.specs.Programs.{IsFit};
ghost use Rattle.mltl_base.specs.Settled.{IsFuture, IsOrdered, IsPast, Settled, SettledAmong};
ghost use Rattle.mltl_base.specs.Verdicts.{verdicts};
ghost use Rattle.mltl_base.specs.declared.program.Program.{Program as Observer};
ghost use Rattle.mltl_simplify.specs.Forms.{AreBounded, HasAtom, from_to, signal};
ghost use Rattle.mltl_simplify.specs.Simplify.{simp};

/// A simplified formula has the meaning of its formula at each time, on any rows. It is decided no
/// later, and a value that is settled for it is settled for its formula.
#[tactic(auto, using(crate::proofs::Meaning::simp_sat, crate::proofs::Delays::simp_wpd, crate::proofs::Delays::simp_settled))]
pub fn simplified_formulas_mean_the_same()
    ensures meaning { (rows : List Row) (p : Formula) (t : ℕ) →
        IsOrdered p → sat rows (simp p) t ≡ sat rows p t }
    ensures delay { (p : Formula) → wpd (simp p) ≤ wpd p }
    ensures settled { (rows : List Row) (p : Formula) (t : ℕ) (v : Bool) →
        IsOrdered p → Settled rows (simp p) t v → Settled rows p t v }
{}

/// Among each class of further rows that a test selects, and among the rows that fit a program, a
/// value that is settled for a simplified formula is settled for its formula.
pub fn simplified_formulas_settle_among_each_class()
    ensures tested { (test : List Row → Bool) (rows : List Row) (p : Formula) (t : ℕ) (v : Bool) →
        IsOrdered p → SettledAmong (λ more. test more ≡ true) rows (simp p) t v →
        SettledAmong (λ more. test more ≡ true) rows p t v }
    ensures fit { (program : Observer) (rows : List Row) (p : Formula) (t : ℕ) (v : Bool) →
        IsOrdered p → SettledAmong (All (IsFit program)) rows (simp p) t v →
        SettledAmong (All (IsFit program)) rows p t v }
{}

/// The intervals of a simplified formula are in order if its formula's are, and within bounds if
/// its formula's are. It has no operators of another tense and no other atoms, and reads signals of
/// the same kinds. Simplifying a formula over columns gives the simplified formula over columns.
pub fn simplified_formulas_keep_their_form()
    ensures ordered { (p : Formula) → IsOrdered p → IsOrdered (simp p) }
    ensures bounded { (p : Formula) → AreBounded p → AreBounded (simp p) }
    ensures past { (p : Formula) → IsPast p → IsPast (simp p) }
    ensures future { (p : Formula) → IsFuture p → IsFuture (simp p) }
    ensures atoms { (p : Formula) (a : Atom) → HasAtom (simp p) a → HasAtom p a }
    ensures kinds { (kinds : List Bool) (p : Formula) →
        ReadsKinds kinds p → ReadsKinds kinds (simp p) }
    ensures over { (columns : List ℕ) (p : Formula) →
        formula_over columns (simp p) ≡ simp (formula_over columns p) }
{}

/// A verdict that is known of a simplified formula is settled for its formula. It is known within
/// that formula's worst-case delay, and is that formula's meaning.
#[tactic(auto, using(crate::proofs::Delays::simp_told, crate::proofs::Delays::simp_known))]
pub fn simplified_verdicts_are_settled()
    ensures settled { (rows : List Row) (p : Formula) (t : ℕ) (v : Bool) →
        IsOrdered p → slice_get (verdicts rows (simp p)) t ≡ Some v → Settled rows p t v }
    ensures known { (rows : List Row) (p : Formula) (t : ℕ) →
        IsOrdered p → t + wpd p < length rows →
        slice_get (verdicts rows (simp p)) t ≡ Some (sat rows p t) }
{}

/// Nested windows are joined if the limit allows it, and a joined window isn't simplified again.
/// Booleans are simplified away, but once of true stays, since it is false at the first times.
pub fn simplified_examples()
    ensures joined { simp (finally (from_to 0 2) (finally (from_to 1 3) (signal 0)))
        ≡ finally (from_to 1 5) (signal 0) }
    ensures limit { (p : Formula) → p ≡ finally (from_to 0 1) (signal 0) →
        simp (finally (from_to 0 MAX_BOUND) (finally (from_to 0 1) p))
        ≡ finally (from_to 0 MAX_BOUND) (finally (from_to 0 2) (signal 0)) }
    ensures truths { simp (conjunction (signal 1) (disjunction truth (signal 0))) ≡ signal 1 }
    ensures stays { simp (once (from_to 1 1) truth) ≡ once (from_to 1 1) truth }
{}
