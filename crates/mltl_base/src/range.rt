//! Ranges of whole-number expressions. Ends have 64 bits, intermediate results have 128.

ghost use Rattle.std.specs.Prelude.{◌≡◌, ◌≢◌, ◌≤ℤ◌, neg_ℤ, ◌+ℤ◌, ◌-ℤ◌, ◌*ℤ◌, int_div, pos, Ok, true, false, IfOk, IfErr};
ghost use Rattle.mltl_base.specs.Ranges.{Range as Values, divided, divides, in_word as within_word, left_over, lessened, multiplied, negated, over_divisor, range_from, signal_range, summed};
ghost use Rattle.mltl_base.specs.Answers.{IsRangeOf};
ghost use Rattle.mltl_base.specs.declared.range.NoRange.TheVariants.{Divisor as not_one};

use std::marker::Model;

const LEAST: i128 = -9_223_372_036_854_775_808;

const GREATEST: i128 = 9_223_372_036_854_775_807;

/// The integers from a least to a greatest value. Contracts see the range of the definitions.
#[derive(Clone, Copy)]
pub struct Range {
    least: i64,
    greatest: i64,
}

impl Model for Range {
    ghost use Rattle.std.specs.Prelude.{◌≤ℤ◌};
    ghost use Rattle.mltl_base.specs.Ranges.{Range as Values, range_from};

    ghost Value = { Values };

    ghost view = { λ range. range_from range.least range.greatest };

    ghost invariant = { λ range. range.least ≤ℤ range.greatest };

    ghost inverse = { λ values. record { least = values.least; greatest = values.greatest } };
}

impl Range {
    /// Returns the least value.
    pub fn least(self) -> i64
        ensures least { result ≡ self.least }
        ensures upward { self.least ≤ℤ self.greatest }
    {
        self.least
    }

    /// Returns the greatest value.
    pub fn greatest(self) -> i64
        ensures greatest { result ≡ self.greatest }
        ensures upward { self.least ≤ℤ self.greatest }
    {
        self.greatest
    }
}

/// The reason why an expression has no range.
#[derive(Clone, Copy)]
pub enum NoRange {
    /// The divisor isn't a single number other than 0.
    Divisor,
    /// The range leaves 64 bits.
    Wide,
}

/// Returns the range of a signal: 32 bits with a sign.
pub fn signal() -> Range
    ensures { result ≡ signal_range }
{
    Range {
        least: -2_147_483_648,
        greatest: 2_147_483_647,
    }
}

/// Returns the range of a number: the number alone.
pub fn constant(n: i64) -> Range
    ensures { result ≡ range_from n n }
{
    Range {
        least: n,
        greatest: n,
    }
}

/// Returns the range of a negation.
pub fn negation(a: Range) -> Result<Range, NoRange>
    ensures { IsRangeOf result (within_word (negated a)) }
{
    in_word(opposite(a.greatest()), opposite(a.least()))
}

/// Returns the range of a sum.
pub fn sum(a: Range, b: Range) -> Result<Range, NoRange>
    ensures { IsRangeOf result (within_word (summed a b)) }
{
    in_word(plus(a.least(), b.least()), plus(a.greatest(), b.greatest()))
}

/// Returns the range of a difference.
pub fn difference(a: Range, b: Range) -> Result<Range, NoRange>
    ensures { IsRangeOf result (within_word (lessened a b)) }
{
    in_word(
        minus(a.least(), b.greatest()),
        minus(a.greatest(), b.least()),
    )
}

/// Returns the range of a product.
pub fn product(a: Range, b: Range) -> Result<Range, NoRange>
    ensures { IsRangeOf result (within_word (multiplied a b)) }
{
    let least_least = times(a.least(), b.least());
    let least_greatest = times(a.least(), b.greatest());
    let greatest_least = times(a.greatest(), b.least());
    let greatest_greatest = times(a.greatest(), b.greatest());
    in_word(
        least_least
            .min(least_greatest)
            .min(greatest_least.min(greatest_greatest)),
        least_least
            .max(least_greatest)
            .max(greatest_least.max(greatest_greatest)),
    )
}

/// Returns the range of a quotient.
pub fn quotient(a: Range, b: Range) -> Result<Range, NoRange>
    ensures { IsRangeOf result (over_divisor divided (Ok a) (Ok b)) }
{
    let divisor = divisor_of(b)?;
    let low = over(a.least(), divisor);
    if a.least() == a.greatest() {
        return in_word(low, low);
    }
    let high = over(a.greatest(), divisor);
    in_word(low.min(high), low.max(high))
}

/// Returns the range of a remainder.
pub fn remainder(a: Range, b: Range) -> Result<Range, NoRange>
    ensures { IsRangeOf result (over_divisor left_over (Ok a) (Ok b)) }
{
    let most = i128::from(divisor_of(b)?.unsigned_abs() - 1);
    if a.least() >= 0 {
        in_word(0, most)
    } else if a.greatest() <= 0 {
        in_word(-most, 0)
    } else {
        in_word(-most, most)
    }
}

/// Returns the only number of a divisor's range, which isn't 0.
fn divisor_of(b: Range) -> Result<i64, NoRange>
    ensures one { IfOk result (λ n. (divides b ≡ true) × (n ≡ b.least)) }
    ensures none { IfErr result (λ why. (divides b ≡ false) × (why ≡ not_one)) }
{
    if b.least() == b.greatest() && b.least() != 0 {
        Ok(b.least())
    } else {
        Err(NoRange::Divisor)
    }
}

/// Returns the range with these ends, or `Wide` if they leave 64 bits.
fn in_word(least: i128, greatest: i128) -> Result<Range, NoRange>
    requires { least ≤ℤ greatest }
    ensures { (range : Values) →
        range.least ≡ least → range.greatest ≡ greatest → IsRangeOf result (within_word range) }
{
    if LEAST <= least && greatest <= GREATEST {
        Ok(Range {
            least: least as i64,
            greatest: greatest as i64,
        })
    } else {
        Err(NoRange::Wide)
    }
}

fn opposite(x: i64) -> i128
    ensures { result ≡ neg_ℤ x }
{
    -i128::from(x)
}

fn plus(x: i64, y: i64) -> i128
    ensures { result ≡ x +ℤ y }
{
    i128::from(x) + i128::from(y)
}

fn minus(x: i64, y: i64) -> i128
    ensures { result ≡ x -ℤ y }
{
    i128::from(x) - i128::from(y)
}

fn times(x: i64, y: i64) -> i128
    ensures { result ≡ x *ℤ y }
{
    i128::from(x) * i128::from(y)
}

/// Returns the quotient, which has 64 bits except for the least number over -1.
fn over(x: i64, y: i64) -> i128
    requires { y ≢ pos 0 }
    ensures { result ≡ int_div x y }
{
    match x.checked_div(y) {
        Some(quotient) => i128::from(quotient),
        None => i128::from(x) / i128::from(y),
    }
}
