//! Strong Kleene logic: `None` is unknown.

ghost use Rattle.mltl_base.specs.Kleene.{k_and, k_implies, k_not, k_or};
ghost use Rattle.std.specs.Prelude.{◌≡◌};

/// Returns the negation, which keeps the unknown value.
#[tactic(auto, unfolding(mltl_base::specs::Kleene::k_not))]
pub fn not(x: Option<bool>) -> Option<bool>
    ensures { result ≡ k_not x }
{
    match x {
        Some(v) => Some(!v),
        None => None,
    }
}

/// Returns the conjunction: false and unknown is false; true and unknown is unknown.
#[tactic(auto, unfolding(mltl_base::specs::Kleene::k_and))]
pub fn and(x: Option<bool>, y: Option<bool>) -> Option<bool>
    ensures { result ≡ k_and x y }
{
    match (x, y) {
        (Some(true), y) => y,
        (Some(false), _) => Some(false),
        (None, Some(false)) => Some(false),
        (None, _) => None,
    }
}

/// Returns the disjunction, by negation and conjunction.
#[tactic(auto, unfolding(mltl_base::specs::Kleene::k_or))]
pub fn or(x: Option<bool>, y: Option<bool>) -> Option<bool>
    ensures { result ≡ k_or x y }
{
    not(and(not(x), not(y)))
}

/// Returns the implication, by negation and conjunction.
pub fn implies(x: Option<bool>, y: Option<bool>) -> Option<bool>
    ensures { result ≡ k_implies x y }
{
    not(and(x, not(y)))
}
