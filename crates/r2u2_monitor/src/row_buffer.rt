//! Room for the row that a monitor reads.

ghost use Rattle.std.specs.Prelude.{◌≡◌, length, IfOk};
ghost use Rattle.trace_feed.specs.Readings.{readings_of};

use mltl_base::Fixed;
use obs_verify::Checked;
use std::alloc::{AllocError, Global};
use trace_feed::Readings;

/// Makes room for a row that is being read, and finds the reading of each column. It borrows the
/// program, so that no early return owns it.
pub fn row_buffer(alloc: Global, checked: &Checked) -> Result<(Fixed<i64>, Readings), AllocError>
    ensures read { IfOk result (λ made. length made.0 ≡ checked.now.width) }
    ensures readings { IfOk result (λ made. made.1 ≡ readings_of checked.now) }
{
    let read = Fixed::filled(alloc, 0, checked.program().width as usize)?;
    let readings = Readings::of(alloc, checked)?;
    Ok((read, readings))
}
