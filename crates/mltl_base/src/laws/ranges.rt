//! Laws of ranges: the value of an expression lies in its range, which stays within 64 bits.

ghost use Rattle.mltl_base.specs.Atoms.{Row, Term, value};
ghost use Rattle.mltl_base.specs.Ranges.{FitsTerm, IsIn, Range, range};
ghost use Rattle.std.specs.Int.{w64};
ghost use Rattle.std.specs.Prelude.{◌≡◌, FitsSigned, Ok};

/// If its signals have 32 bits, the value of an expression lies in its range, and so it has 64
/// bits.
#[tactic(auto, using(crate::proofs::Ranging::value_in_range, crate::proofs::Ranging::value_fits_word))]
pub fn values_lie_in_ranges()
    ensures lies { (row : Row) (e : Term) (r : Range) →
        FitsTerm row e → range e ≡ Ok r → IsIn r (value e row) }
    ensures fits { (row : Row) (e : Term) (r : Range) →
        FitsTerm row e → range e ≡ Ok r → FitsSigned w64 (value e row) }
{}
