//! Laws of longest lists: known verdicts and known words reach as far as strong Kleene values do.

ghost use Rattle.mltl_base.specs.Atoms.{Row};
ghost use Rattle.mltl_base.specs.Formula.{Formula};
ghost use Rattle.mltl_base.specs.Reports.{contract, known_status, words};
ghost use Rattle.mltl_base.specs.Settled.{IsFuture, IsOrdered};
ghost use Rattle.mltl_base.specs.Verdicts.{IsLongestKnown, kleene, known_front, verdicts};
ghost use Rattle.std.specs.Prelude.{◌≡◌, ℕ, ◌<◌, Bool, Option, None, List, length};

/// The known verdicts are the longest list of times, from 0 on, at which the Kleene value of the
/// formula is known, and at most one a row. For a formula of the future the first missing time is
/// unknown however many rows there are.
#[tactic(auto, using(crate::proofs::Longest::verdicts_longest, crate::proofs::Longest::future_ends_unknown))]
pub fn verdicts_are_longest()
    ensures longest { (rows : List Row) (p : Formula) →
        IsLongestKnown (kleene rows p) (length rows) (verdicts rows p) }
    ensures unknown { (rows : List Row) (p : Formula) →
        IsFuture p → IsOrdered p → kleene rows p (length (verdicts rows p)) ≡ None }
{}

/// The known words of a contract are the longest list of times, from 0 on, at which its status is
/// known.
#[tactic(auto, using(crate::proofs::Words::contract_longest))]
pub fn contract_words_are_longest()
    ensures longest { (rows : List Row) (p q : Formula) →
        IsLongestKnown (known_status rows p q) (length rows) (words rows (contract p q)) }
{}

/// There is one longest known list of values by time, and it depends on nothing else.
#[tactic(auto, using(crate::proofs::Unique::front_longest, crate::proofs::Unique::longest_only, crate::proofs::Unique::front_equal))]
pub fn longest_list_is_one()
    ensures some { (k : ℕ → Option Bool) (n : ℕ) → IsLongestKnown k n (known_front k n) }
    ensures only { (k : ℕ → Option Bool) (n : ℕ) (vs : List Bool) →
        IsLongestKnown k n vs → vs ≡ known_front k n }
    ensures by_time { (k l : ℕ → Option Bool) (n : ℕ) →
        ((t : ℕ) → t < n → k t ≡ l t) → known_front k n ≡ known_front l n }
{}
