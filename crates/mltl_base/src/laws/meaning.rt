//! Laws of meaning: it follows the table of the operators, and a core formula keeps it.

ghost use Rattle.mltl_base.specs.Atoms.{Row};
ghost use Rattle.mltl_base.specs.Formula.{Core, Formula, IsReduced, core, plain, wpd};
ghost use Rattle.mltl_base.specs.Meaning.{sat};
ghost use Rattle.mltl_base.specs.Settled.{IsFuture, IsOrdered, IsPast};
ghost use Rattle.mltl_base.specs.Table.{Holds};
ghost use Rattle.mltl_base.specs.Verdicts.{verdicts};
ghost use Rattle.std.specs.Prelude.{◌≡◌, ℕ, List, Decides};

/// The meaning of a formula at a time is true exactly if the table says that the formula holds.
#[tactic(auto, using(crate::proofs::Deciding::sat_decides))]
pub fn meaning_follows_table()
    ensures decides { (rows : List Row) (p : Formula) (t : ℕ) →
        Decides (sat rows p t) (Holds rows p t) }
{}

/// A core formula has the meaning, the known verdicts and the worst delay of its formula.
#[tactic(auto, using(crate::proofs::CoreMeaning::core_sat, crate::proofs::CoreVerdicts::core_verdicts, crate::proofs::CoreMeaning::core_delay))]
pub fn core_means_the_same()
    ensures meaning { (rows : List Row) (p : Formula) (t : ℕ) →
        sat rows (plain (core p)) t ≡ sat rows p t }
    ensures known { (rows : List Row) (p : Formula) →
        verdicts rows (plain (core p)) ≡ verdicts rows p }
    ensures delay { (p : Formula) → wpd (plain (core p)) ≡ wpd p }
{}

/// If the intervals of a formula run upward, those in its core do too, and no tense is added.
#[tactic(auto, using(crate::proofs::Tenses::core_ordered, crate::proofs::Tenses::core_stays_future, crate::proofs::Tenses::core_stays_past))]
pub fn core_keeps_its_form()
    ensures ordered { (p : Formula) → IsOrdered p → IsOrdered (plain (core p)) }
    ensures future { (p : Formula) → IsFuture p → IsFuture (plain (core p)) }
    ensures past { (p : Formula) → IsPast p → IsPast (plain (core p)) }
{}

/// A core form has no negation of a negation and only comparisons that instructions have, and such
/// a core formula is its own core form.
#[tactic(auto, using(crate::proofs::CoreForms::core_reduced, crate::proofs::CoreForms::core_stays))]
pub fn core_is_reduced()
    ensures reduced { (p : Formula) → IsReduced (core p) }
    ensures stays { (p : Core) → IsReduced p → core (plain p) ≡ p }
{}
