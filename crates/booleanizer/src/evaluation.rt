//! The numbers of the Booleanizer's instructions on a row.

ghost use Rattle.std.specs.Prelude.{◌≡◌, ◌≢◌, ◌+◌, [], pos, int_rem, length};
ghost use Rattle.booleanizer.specs.Evaluation.{AllCompute, CanApply, numbers_on, result_of, truth_number};

use mltl_base::BzOp;
use mltl_base::steps::Steps;
use std::sync::ledger::Ledger;

fn number_of(truth: bool) -> i64
    ensures { result ≡ truth_number truth }
{
    if truth { 1 } else { 0 }
}

/// Returns the remainder, with the sign of the left operand. By -1 it is 0, even if the quotient
/// has more than 64 bits.
fn remainder(a: i64, b: i64) -> i64
    requires { b ≢ pos 0 }
    ensures { result ≡ int_rem a b }
{
    if b == -1 { 0 } else { a % b }
}

/// Returns the number of an instruction, from a row and the numbers of the instructions before it.
fn result_of(op: BzOp, row: &[i64], numbers: &[i64]) -> i64
    requires { CanApply row.now numbers.now op }
    ensures { result ≡ result_of row.now numbers.now op }
{
    match op {
        BzOp::Column(column) => row[column as usize],
        BzOp::IsTrue(column) => number_of(row[column as usize] == 1),
        BzOp::Const(value) => value,
        BzOp::Neg(a) => -numbers[a as usize],
        BzOp::Add(a, b) => numbers[a as usize] + numbers[b as usize],
        BzOp::Sub(a, b) => numbers[a as usize] - numbers[b as usize],
        BzOp::Mul(a, b) => numbers[a as usize] * numbers[b as usize],
        BzOp::Div(a, b) => numbers[a as usize] / numbers[b as usize],
        BzOp::Rem(a, b) => remainder(numbers[a as usize], numbers[b as usize]),
        BzOp::Eq(a, b) => number_of(numbers[a as usize] == numbers[b as usize]),
        BzOp::Lt(a, b) => number_of(numbers[a as usize] < numbers[b as usize]),
        BzOp::Le(a, b) => number_of(numbers[a as usize] <= numbers[b as usize]),
    }
}

/// Computes the numbers of all instructions on a row: integers, and Booleans as 1 and 0, in a step
/// for each. Does not allocate.
pub fn evaluate<L: Ledger>(ops: &[BzOp], row: &[i64], numbers: &mut [i64], steps: &mut Steps<L>)
    requires len { length numbers.old ≡ length ops.now }
    requires can { AllCompute row.now [] ops.now }
    ensures numbers { numbers.new ≡ numbers_on row.now ops.now }
    ensures counted { steps.new ≡ steps.old + length ops.now }
{
    for (i, op) in ops.iter().enumerate() {
        steps.tick();
        let number = result_of(*op, row, numbers);
        numbers[i] = number;
    }
}
