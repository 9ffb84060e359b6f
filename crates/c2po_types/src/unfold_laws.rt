//! Laws of unfolded values: each law is the contract of a function with an empty body.

ghost use Rattle.std.specs.Prelude.{◌≡◌, ◌+◌, ◌-◌, ◌<◌, ◌≤◌, ℕ, List as Seq, length, map, sum_by};
ghost use Rattle.mltl_base.specs.declared.limits.TheConstants.{MAX_BOUND};
ghost use Rattle.mltl_base.specs.declared.operators.CountOp.{CountOp};
ghost use Rattle.mltl_base.specs.declared.operators.LogicOp.{LogicOp};
ghost use Rattle.mltl_base.specs.Atoms.{Row};
ghost use Rattle.mltl_base.specs.Formula.{Formula};
ghost use Rattle.mltl_base.specs.Meaning.{count, sat};
ghost use Rattle.count_sets.specs.Counting.{compares, counting};
ghost use Rattle.c2po_types.specs.Values.{Value, connected_all, counted, counted_formula, formula_of, interval, joined_formula};
ghost use Rattle.c2po_types.specs.Weights.{counting_weight, weight};

/// A counting quantifier holds at a time exactly if the number of its bodies that hold then
/// compares as the quantifier requires. Equal bodies count separately.
#[tactic(auto, using(crate::proofs::ValueMeaning::counting_means))]
pub fn quantifiers_count()
    ensures { (op : CountOp) (m : ℕ) (bodies : Seq Formula) (rows : Seq Row) (t : ℕ)
        → sat rows (counted_formula bodies (counting op (length bodies) m)) t
        ≡ compares op m (count rows bodies t) }
{}

/// Joined bodies weigh 1 more for each operator between them.
pub fn joined_bodies_weigh()
    ensures { (op : LogicOp) (bodies : Seq Value)
        → weight (connected_all op bodies) ≡ sum_by weight bodies + (length bodies - 1) }
{}

/// Counted bodies weigh `counting_weight` more, which depends on their number and the quantifier's.
pub fn counted_bodies_weigh()
    ensures { (op : CountOp) (m : ℕ) (bodies : Seq Value) → 0 < length bodies
        → weight (counted op m bodies)
        ≡ sum_by weight bodies + counting_weight (length bodies) m }
{}

/// The formula of a quantifier joins or counts the formulas of its bodies.
#[tactic(auto, using(crate::proofs::Loops::joined_formulas, crate::proofs::Loops::counted_means))]
pub fn quantifiers_are_formulas()
    ensures joined { (op : LogicOp) (bodies : Seq Value)
        → formula_of (connected_all op bodies) ≡ joined_formula op (map formula_of bodies) }
    ensures counted { (op : CountOp) (m : ℕ) (bodies : Seq Value) → 0 < length bodies
        → formula_of (counted op m bodies)
        ≡ counted_formula (map formula_of bodies) (counting op (length bodies) m) }
{}

/// An interval within bounds stays as it is.
#[tactic(auto, using(crate::proofs::ValueMeaning::interval_stays))]
pub fn intervals_in_bounds_stay()
    ensures { (low high : ℕ) → low ≤ high → high ≤ MAX_BOUND
        → interval low high ≡ record { lo = low; hi = high } }
{}
