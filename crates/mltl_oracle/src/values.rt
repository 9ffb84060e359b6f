//! Values of expressions and truths of atoms on a row.

ghost use Rattle.mltl_base.specs.Atoms.{holds as holds_on, in_column as column_of, value as value_on};
ghost use Rattle.mltl_oracle.specs.Computing.{HasResult, Computes, ComputesAtom, comparison_holds, arithmetic_result};
ghost use Rattle.mltl_oracle.specs.Shapes.{as_atom, as_term};
ghost use Rattle.std.specs.Prelude.{◌≡◌, IfSome, IfNone, pos};
ghost use Rattle.mltl_base.specs.declared.operators.ArithOp.TheVariants.{Rem as Remainder};

use crate::{Atom, Term};
use mltl_base::{ArithOp, CompareOp};

/// Returns the value of an expression on a row, or `None` if a part of it leaves 64 bits or a
/// divisor is 0.
#[tactic(auto, unfolding(mltl_base::specs::Atoms::value))]
pub fn value(e: &Term, row: &[i64]) -> Option<i64>
    ensures value { IfSome result (λ v. v ≡ value_on (as_term e.now) row.now) }
    ensures none { IfNone result (¬ Computes row.now (as_term e.now)) }
{
    match e {
        Term::Column(c) => Some(in_column(row, *c)),
        Term::Constant(n) => Some(*n),
        Term::Negative(a) => match value(a, row) {
            Some(a) => a.checked_neg(),
            None => None,
        },
        Term::Arith(op, a, b) => match (value(a, row), value(b, row)) {
            (Some(a), Some(b)) => compute(*op, a, b),
            _ => None,
        },
    }
}

/// Returns the truth of an atom on a row, or `None` if an expression of it has no value.
#[tactic(auto, unfolding(mltl_base::specs::Atoms::holds))]
pub fn holds(a: &Atom, row: &[i64]) -> Option<bool>
    ensures truth { IfSome result (λ v. v ≡ holds_on (as_atom a.now) row.now) }
    ensures none { IfNone result (¬ ComputesAtom row.now (as_atom a.now)) }
{
    match a {
        Atom::IsTrue(c) => Some(in_column(row, *c) == 1),
        Atom::Compare(op, a, b) => match (value(a, row), value(b, row)) {
            (Some(a), Some(b)) => Some(compare(*op, a, b)),
            _ => None,
        },
    }
}

/// Returns the number in a column, or 0 past the end of the row.
fn in_column(row: &[i64], column: u32) -> i64
    ensures { result ≡ column_of row.now column }
{
    if (column as usize) < row.len() {
        row[column as usize]
    } else {
        0
    }
}

/// Computes an operator between two numbers. Quotient and remainder truncate toward zero.
fn compute(op: ArithOp, a: i64, b: i64) -> Option<i64>
    ensures value { IfSome result (λ v. v ≡ arithmetic_result op a b) }
    ensures none { IfNone result (¬ HasResult op a b) }
{
    match op {
        ArithOp::Add => a.checked_add(b),
        ArithOp::Sub => a.checked_sub(b),
        ArithOp::Mul => a.checked_mul(b),
        ArithOp::Div => a.checked_div(b),
        ArithOp::Rem => remainder(a, b),
    }
}

/// Returns the remainder with the sign of the left operand, which is 0 if the divisor is -1.
fn remainder(a: i64, b: i64) -> Option<i64>
    ensures value { IfSome result (λ v. v ≡ arithmetic_result Remainder a b) }
    ensures none { IfNone result (b ≡ pos 0) }
{
    if b == 0 {
        return None;
    }
    if b == -1 {
        return Some(0);
    }
    Some(a % b)
}

/// Compares two numbers.
fn compare(op: CompareOp, a: i64, b: i64) -> bool
    ensures { result ≡ comparison_holds op a b }
{
    match op {
        CompareOp::Eq => a == b,
        CompareOp::Ne => a != b,
        CompareOp::Lt => a < b,
        CompareOp::Le => a <= b,
        CompareOp::Gt => a > b,
        CompareOp::Ge => a >= b,
    }
}
