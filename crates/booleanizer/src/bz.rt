//! The state of the Booleanizer.

ghost use Rattle.std.specs.Prelude.{◌≡◌, ◌+◌, ◌<◌, length, IfOk};
ghost use Rattle.mltl_base.specs.Programs.{IsFit};
ghost use Rattle.booleanizer.specs.Evaluation.{IsTruthIn, numbers_on};

use crate::evaluation::evaluate;
use mltl_base::Fixed;
use mltl_base::steps::Steps;
use obs_verify::Checked;
use std::alloc::{AllocError, Global};
use std::marker::Model;
use std::sync::ledger::Ledger;

/// The numbers of a program's instructions on the last row: integers, and Booleans as 1 and 0.
/// Contracts see the list of these numbers.
#[derive(Drop)]
pub struct Bz {
    numbers: Fixed<i64>,
}

impl Model for Bz {
    ghost use Rattle.std.specs.Prelude.{List, ℤ};

    ghost Value = { List ℤ };

    ghost view = { λ bz. bz.numbers };
}

impl Bz {
    /// Creates the state of a program's Booleanizer, before the first row.
    pub fn make(alloc: Global, checked: &Checked) -> Result<Bz, AllocError>
        ensures { IfOk result (λ bz. length bz ≡ length checked.now.bz) }
    {
        Ok(Bz {
            numbers: Fixed::filled(alloc, 0, checked.program().bz.len())?,
        })
    }

    /// Computes all instructions on a row, in a step for each. Does not allocate.
    pub fn row<L: Ledger>(&mut self, checked: &Checked, fields: &[i64], steps: &mut Steps<L>)
        requires len { length self.old ≡ length checked.now.bz }
        requires fit { IsFit checked.now fields.now }
        ensures numbers { self.new ≡ numbers_on fields.now checked.now.bz }
        ensures len { length self.new ≡ length checked.now.bz }
        ensures counted { steps.new ≡ steps.old + length checked.now.bz }
    {
        evaluate(
            checked.program().bz.as_slice(),
            fields,
            self.numbers.as_mut_slice(),
            steps,
        );
    }

    /// Returns the truth of an instruction on the last row.
    pub fn truth(&self, i: u32) -> bool
        requires { i < length self.now }
        ensures { IsTruthIn self.now i result }
    {
        self.numbers.as_slice()[i as usize] == 1
    }
}
