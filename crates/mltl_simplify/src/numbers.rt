//! The values of integer expressions without signals.

ghost use Rattle.std.specs.Prelude.{◌≡◌, ◌≢◌, pos, int_rem, Some};
ghost use Rattle.mltl_simplify.specs.Numbers.{CanCompute, IsComputed, IsNegated, compared_numbers as compared_as, numbers_compare, computed_number as meant};

use mltl_base::{ArithOp, CompareOp};

/// Returns the remainder, with the sign of the left operand. The remainder by -1 is 0, also if the
/// quotient doesn't fit in 64 bits.
fn remainder(x: i64, y: i64) -> i64
    requires { y ≢ pos 0 }
    ensures { result ≡ int_rem x y }
{
    if y == -1 { 0 } else { x % y }
}

/// Returns the result of an operation on two numbers, if it can be computed in 64 bits.
fn applied(op: ArithOp, x: i64, y: i64) -> Option<i64>
    ensures { CanCompute op x y → result ≡ Some (meant op x y) }
{
    match op {
        ArithOp::Add => x.checked_add(y),
        ArithOp::Sub => x.checked_sub(y),
        ArithOp::Mul => x.checked_mul(y),
        ArithOp::Div => x.checked_div(y),
        ArithOp::Rem if y == 0 => None,
        ArithOp::Rem => Some(remainder(x, y)),
    }
}

/// Returns the negative of a number, if the number is known and 64 bits suffice.
pub fn negated(x: Option<i64>) -> Option<i64>
    ensures { IsNegated x result }
{
    x?.checked_neg()
}

/// Returns the result of an operation on two numbers, if both are known and 64 bits suffice.
pub fn computed(op: ArithOp, x: Option<i64>, y: Option<i64>) -> Option<i64>
    ensures { IsComputed op x y result }
{
    applied(op, x?, y?)
}

/// Returns `true` if the comparison of two numbers holds.
fn compare(op: CompareOp, x: i64, y: i64) -> bool
    ensures { result ≡ numbers_compare op x y }
{
    match op {
        CompareOp::Eq => x == y,
        CompareOp::Ne => x != y,
        CompareOp::Lt => x < y,
        CompareOp::Le => x <= y,
        CompareOp::Gt => x > y,
        CompareOp::Ge => x >= y,
    }
}

/// Returns the result of a comparison of two numbers, if both are known.
pub fn compared(op: CompareOp, x: Option<i64>, y: Option<i64>) -> Option<bool>
    ensures { result ≡ compared_as op x y }
{
    Some(compare(op, x?, y?))
}
