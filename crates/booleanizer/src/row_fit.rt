//! Rows that fit a program.

ghost use Rattle.std.specs.Prelude.{◌≡◌, ◌↔◌, ◌⊎◌, ◌+◌, ◌≤◌, IsTrue, FitsSigned, length, pos};
ghost use Rattle.std.specs.Int.{w32};
ghost use Rattle.mltl_base.specs.Atoms.{in_column as value_in};
ghost use Rattle.mltl_base.specs.Programs.{FitsRow, IsFit};

use mltl_base::BzOp;
use mltl_base::steps::Steps;
use obs_verify::Checked;
use std::sync::ledger::Ledger;

/// Returns true if the fields are a row of the program: as many as it is wide, with a value of its
/// kind in each column that it reads, which is a number of 32 bits with a sign, or 0 or 1 for a
/// Boolean. Its steps are the instructions that it checks, each of which reads at most one column.
pub fn is_fit<L: Ledger>(checked: &Checked, fields: &[i64], steps: &mut Steps<L>) -> bool
    ensures fit { IsTrue result ↔ IsFit checked.now fields.now }
    ensures counted { steps.new ≤ steps.old + length checked.now.bz }
{
    let program = checked.program();
    if fields.len() != program.width as usize {
        return false;
    }
    for op in program.bz.as_slice() {
        steps.tick();
        if !fits(op, fields) {
            return false;
        }
    }
    true
}

/// Returns true if a row has what an instruction requires. A column past its end holds 0.
fn fits(op: &BzOp, fields: &[i64]) -> bool
    ensures { IsTrue result ↔ FitsRow fields.now op.now }
{
    match *op {
        BzOp::Column(column) => is_signal(in_column(fields, column)),
        BzOp::IsTrue(column) => is_truth(in_column(fields, column)),
        _ => true,
    }
}

fn in_column(fields: &[i64], column: u32) -> i64
    ensures { result ≡ value_in fields.now column }
{
    fields.get(column as usize).copied().unwrap_or(0)
}

fn is_signal(value: i64) -> bool
    ensures { IsTrue result ↔ FitsSigned w32 value }
{
    i32::try_from(value).is_ok()
}

fn is_truth(value: i64) -> bool
    ensures { IsTrue result ↔ ((value ≡ pos 0) ⊎ (value ≡ pos 1)) }
{
    value == 0 || value == 1
}
