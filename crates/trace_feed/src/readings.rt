//! The readings of a program's columns. They are computed once, so that no row looks up its columns
//! in the instructions.

ghost use Rattle.std.specs.Prelude.{◌≡◌, ◌++◌, ◌∷◌, [], IfOk, length, slice_index_or, slice_set, List as Items};
ghost use Rattle.mltl_base.specs.declared.operators.BzOp.{BzOp as Op};
ghost use Rattle.trace_feed.specs.declared.fields.Reading.TheVariants.{Unread};
ghost use Rattle.trace_feed.specs.Readings.{AreReadings, readings_of, stronger as stronger_of};
ghost use Rattle.trace_feed.specs.Rows.{reading_of};

use crate::fields::Reading;
use mltl_base::{BzOp, Fixed};
use obs_verify::Checked;
use std::alloc::{AllocError, Global};
use std::marker::Model;

/// The reading of each column of a program, which contracts see as that list.
#[derive(Drop)]
pub struct Readings {
    columns: Fixed<Reading>,
}

impl Model for Readings {
    ghost use Rattle.std.specs.Prelude.{List};
    ghost use Rattle.trace_feed.specs.declared.fields.Reading.{Reading as Way};

    ghost Value = { List Way };

    ghost view = { λ readings. readings.columns };
}

/// Returns the stronger of two readings: a Boolean, then an integer.
fn stronger(first: Reading, second: Reading) -> Reading
    ensures { result ≡ stronger_of first second }
{
    match (first, second) {
        (Reading::Truth, _) | (_, Reading::Truth) => Reading::Truth,
        (Reading::Whole, _) | (_, Reading::Whole) => Reading::Whole,
        _ => Reading::Unread,
    }
}

/// Raises the reading of a column, unless it is as strong.
fn raise(readings: &mut [Reading], c: u32, reading: Reading)
    ensures { readings.new ≡ slice_set readings.old c
        (stronger_of (slice_index_or readings.old c Unread) reading) }
{
    let c = c as usize;
    if c < readings.len() {
        readings[c] = stronger(readings[c], reading);
    }
}

/// Raises the reading of the column that an instruction reads, if it reads one.
fn note(readings: &mut [Reading], op: &BzOp)
    ensures many { length readings.new ≡ length readings.old }
    ensures noted { (earlier : Items Op) → AreReadings (reading_of earlier) readings.old
        → AreReadings (reading_of (earlier ++ op.now ∷ [])) readings.new }
{
    match *op {
        BzOp::Column(c) => raise(readings, c, Reading::Whole),
        BzOp::IsTrue(c) => raise(readings, c, Reading::Truth),
        _ => {}
    }
}

/// Raises the readings of the columns that the instructions read.
fn note_all(readings: &mut [Reading], ops: &[BzOp])
    requires { AreReadings (reading_of []) readings.old }
    ensures many { length readings.new ≡ length readings.old }
    ensures noted { AreReadings (reading_of ops.now) readings.new }
{
    for op in ops {
        note(readings, op);
    }
}

impl Readings {
    /// Computes the readings of a program. No other call allocates.
    pub fn of(alloc: Global, checked: &Checked) -> Result<Readings, AllocError>
        ensures readings { IfOk result (λ readings. readings ≡ readings_of checked.now) }
        ensures wide { IfOk result (λ readings. length readings ≡ checked.now.width) }
    {
        let program = checked.program();
        let mut columns = Fixed::filled(alloc, Reading::Unread, program.width as usize)?;
        note_all(columns.as_mut_slice(), program.bz.as_slice());
        Ok(Readings { columns })
    }

    /// Returns all readings, in the order of the columns.
    pub fn as_slice(&self) -> &[Reading]
        ensures { result.now ≡ self.now }
    {
        self.columns.as_slice()
    }
}
