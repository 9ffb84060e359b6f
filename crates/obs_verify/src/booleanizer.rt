//! Rules of the Booleanizer's instructions: their operands, their divisors and their ranges.

ghost use Rattle.std.specs.Prelude.{◌≡◌, ◌<◌, ◌≤◌, ◌^◌, Some, length, slice_get, take, IfOk, Ok};
ghost use Rattle.mltl_base.specs.Programs.{expressions, term_at};
ghost use Rattle.mltl_base.specs.Ranges.{range};
ghost use Rattle.mltl_base.specs.Answers.{IsRangeOf};
ghost use Rattle.obs_verify.specs.InstructionRanges.{AreRanges, ReadsBefore, range_over};
ghost use Rattle.obs_verify.specs.Kinds.{AreKinds};
ghost use Rattle.obs_verify.specs.WellFormed.{IsAnswer, bz_fault, first_in, has_operands as may_read, is_column_of, is_whole, is_whole_before as whole_before};

use crate::fault::VerifyFault;
use crate::signals::Kinds;
use mltl_base::range::{constant, difference, negation, product, quotient, remainder, signal, sum};
use mltl_base::{BzOp, NoRange, Part, Program, Range};
use std::alloc::Global;

/// Checks that the instructions of the Booleanizer read what they may, divide by numbers, and stay
/// within 64 bits.
pub fn check_booleanizer(
    alloc: Global,
    program: &Program,
    kinds: &[Kinds],
) -> Result<(), VerifyFault>
    requires few { length program.now.bz < 2 ^ 32 }
    requires long { length kinds.now ≡ program.now.width }
    requires kinds { AreKinds program.now.signals kinds.now }
    ensures { IsAnswer result (first_in (bz_fault program.now) 0 program.now.bz) }
{
    let mut before = Vec::with_capacity(alloc, program.bz.len())?;
    for op in program.bz.as_slice() {
        let range = check_op(program, kinds, &before, op)?;
        before.push_reserved(range);
    }
    Ok(())
}

/// Checks an instruction that follows instructions with these ranges, and appends its range.
fn check_op(
    program: &Program,
    kinds: &[Kinds],
    before: &[Range],
    op: &BzOp,
) -> Result<Range, VerifyFault>
    requires few { length before.now < 2 ^ 32 }
    requires long { length kinds.now ≡ program.now.width }
    requires kinds { AreKinds program.now.signals kinds.now }
    requires here { slice_get program.now.bz (length before.now) ≡ Some op.now }
    requires known { AreRanges program.now.bz before.now }
    ensures answer { IsAnswer result (bz_fault program.now (length before.now) op.now) }
    ensures range { IfOk result (λ found.
        range (term_at (expressions program.now.bz) (length before.now)) ≡ Ok found) }
{
    let i = before.len();
    if !has_operands(program, kinds, i, op) {
        return Err(VerifyFault::Operand(Part::Bz, i as u32));
    }
    match range_of(before, op) {
        Ok(range) => Ok(range),
        Err(NoRange::Divisor) => Err(VerifyFault::Divisor(i as u32)),
        Err(NoRange::Wide) => Err(VerifyFault::Range(i as u32)),
    }
}

/// Returns the range of an instruction, from the ranges of the instructions before it.
fn range_of(before: &[Range], op: &BzOp) -> Result<Range, NoRange>
    requires { ReadsBefore (length before.now) op.now }
    ensures { IsRangeOf result (range_over before.now op.now) }
{
    match *op {
        BzOp::Column(_) => Ok(signal()),
        BzOp::Const(n) => Ok(constant(n)),
        BzOp::Neg(a) => negation(before[a as usize]),
        BzOp::Add(a, b) => sum(before[a as usize], before[b as usize]),
        BzOp::Sub(a, b) => difference(before[a as usize], before[b as usize]),
        BzOp::Mul(a, b) => product(before[a as usize], before[b as usize]),
        BzOp::Div(a, b) => quotient(before[a as usize], before[b as usize]),
        BzOp::Rem(a, b) => remainder(before[a as usize], before[b as usize]),
        BzOp::IsTrue(_) | BzOp::Eq(_, _) | BzOp::Lt(_, _) | BzOp::Le(_, _) => Ok(constant(0)),
    }
}

/// Returns true if an instruction reads columns of its kind and integers of earlier instructions.
fn has_operands(program: &Program, kinds: &[Kinds], i: usize, op: &BzOp) -> bool
    requires long { length kinds.now ≡ program.now.width }
    requires kinds { AreKinds program.now.signals kinds.now }
    requires inside { i ≤ length program.now.bz }
    ensures { result ≡ may_read program.now i op.now }
{
    match *op {
        BzOp::Column(c) => is_column(program, kinds, c, false),
        BzOp::IsTrue(c) => is_column(program, kinds, c, true),
        BzOp::Const(_) => true,
        BzOp::Neg(a) => is_whole_before(program, i, a),
        BzOp::Add(a, b)
        | BzOp::Sub(a, b)
        | BzOp::Mul(a, b)
        | BzOp::Div(a, b)
        | BzOp::Rem(a, b)
        | BzOp::Eq(a, b)
        | BzOp::Lt(a, b)
        | BzOp::Le(a, b) => is_whole_before(program, i, a) && is_whole_before(program, i, b),
    }
}

fn is_column(program: &Program, kinds: &[Kinds], c: u32, truth: bool) -> bool
    requires long { length kinds.now ≡ program.now.width }
    requires kinds { AreKinds program.now.signals kinds.now }
    ensures { result ≡ is_column_of program.now c truth }
{
    if c >= program.width {
        return false;
    }
    let here = kinds[c as usize];
    program.version == 1 || (if truth { here.truth } else { here.whole })
}

fn is_whole_before(program: &Program, i: usize, a: u32) -> bool
    requires { i ≤ length program.now.bz }
    ensures { result ≡ whole_before program.now i a }
{
    match program.bz.as_slice()[..i].get(a as usize) {
        Some(op) => gives_whole(*op),
        None => false,
    }
}

fn gives_whole(op: BzOp) -> bool
    ensures { result ≡ is_whole (Some op) }
{
    !matches!(
        op,
        BzOp::IsTrue(_) | BzOp::Eq(_, _) | BzOp::Lt(_, _) | BzOp::Le(_, _)
    )
}
