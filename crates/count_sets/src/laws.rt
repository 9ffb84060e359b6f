//! The law that counting quantifiers count.

ghost use Rattle.std.specs.Prelude.{◌≡◌, ℕ, List as Seq, Bool, length};
ghost use Rattle.mltl_base.specs.declared.operators.CountOp.{CountOp};
ghost use Rattle.count_sets.specs.Counting.{counting, compares, true_count, truth_under};

/// The formula of a counting quantifier is true exactly if the number of true bodies compares as
/// the quantifier says.
#[tactic(auto, using(crate::proofs::Thresholds::counting_counts))]
pub fn formula_counts()
    ensures { (op : CountOp) (n m : ℕ) (bodies : Seq Bool) → length bodies ≡ n
        → truth_under bodies (counting op n m) ≡ compares op m (true_count bodies) }
{}
