//! Meanings of the lines of a trace, which hold plain rows or stamped rows. The calls are inlined,
//! so that their results stay in registers: through memory, a plain row takes a twentieth more
//! instructions.

ghost use Rattle.std.specs.Prelude.{◌≡◌, ◌+◌, ◌<◌, ◌≤◌, ◌^◌, ℕ, List, Option};
ghost use Rattle.mltl_base.specs.declared.limits.TheConstants.{MAX_MISSION};
ghost use Rattle.mltl_base.specs.Atoms.{Row as Values};
ghost use Rattle.r2u2_monitor.specs.Monitoring.{program_of, taken_by, read_of, IsSame, Stands};
ghost use Rattle.sparse_feed.specs.Stamps.{stamp_meaning};
ghost use Rattle.trace_feed.specs.Rows.{line_meaning};
ghost use Rattle.r2u2_watch.specs.Feed.{Stamped as StampedRows, stamped_line, last_time};
ghost use Rattle.r2u2_watch.specs.Turns.{CanTake, Finds, FindsFields, IfRow, IsLast, times_until};

use crate::status::LineFault;
use r2u2_monitor::Monitor;
use sparse_feed::{Stamp, gap, stamp_of};
use trace_feed::RowAnswer;

/// The way in which the lines of a trace hold rows.
#[derive(Clone, Copy)]
pub(crate) enum Reader {
    /// Each line is a row.
    Plain,
    /// Each line is a time and the row that holds from then on. The field is the time of the last
    /// row, if there was one.
    Stamped(Option<u64>),
}

/// The meaning of a line.
#[derive(Clone, Copy)]
pub(crate) enum Found {
    /// The line has a row, which the monitor has read. This many copies of the last row come before
    /// it, and the reader is the reader of the next line.
    Row(u64, Reader),
    /// The line has no row.
    Blank,
    /// The line has this fault.
    Bad(LineFault),
    /// The row is past the mission time.
    Past,
}

/// Reads the fields of a row, which `copies` copies of the last row come before. Blanks aren't a
/// row in a plain line, and are too few fields after a stamp.
#[inline(always)]
pub(crate) fn read_fields(
    monitor: &mut Monitor,
    fields: &[u8],
    copies: u64,
    reader: Reader,
) -> Found
    requires begun { 0 < copies → 0 < taken_by monitor.old }
    requires early { taken_by monitor.old + copies < MAX_MISSION }
    ensures told { FindsFields result copies reader
        (line_meaning (program_of monitor.old) fields.now) (read_of monitor.new) }
    ensures ready { IfRow result (λ times. CanTake times monitor.new) }
    ensures same { IsSame monitor.old monitor.new }
{
    match monitor.read_line(fields) {
        RowAnswer::Good => Found::Row(copies, reader),
        RowAnswer::Blank => match reader {
            Reader::Plain => Found::Blank,
            Reader::Stamped(_) => Found::Bad(LineFault::Width),
        },
        RowAnswer::Width => Found::Bad(LineFault::Width),
        RowAnswer::NotWhole(column) => Found::Bad(LineFault::NotWhole(column)),
        RowAnswer::OutOfRange(column) => Found::Bad(LineFault::OutOfRange(column)),
    }
}

/// Reads a line that begins with a time, after a last row of this time.
#[inline(always)]
pub(crate) fn read_stamped(
    monitor: &mut Monitor,
    line: &[u8],
    last: Option<u64>,
    mission: u64,
) -> Found
    requires counted { taken_by monitor.old ≡ times_until last }
    requires mission { mission ≤ MAX_MISSION }
    ensures told { (lines : ℕ) (rows : List Values) (before : Option (ℕ × Values)) →
        Stands monitor.old rows → IsLast before rows → last_time before ≡ last
        → Finds result (StampedRows before)
        (stamped_line (program_of monitor.old) before line.now
        (stamp_meaning line.now last mission)) lines rows monitor.old monitor.new }
    ensures ready { IfRow result (λ copies. CanTake copies monitor.new) }
    ensures same { IsSame monitor.old monitor.new }
{
    match stamp_of(line, last, mission) {
        Stamp::Blank => Found::Blank,
        Stamp::Bad => Found::Bad(LineFault::Stamp),
        Stamp::Order => Found::Bad(LineFault::Order),
        Stamp::Late => Found::Past,
        Stamp::At(time, place) => {
            let copies = gap(last, time);
            read_fields(monitor, &line[place..], copies, Reader::Stamped(Some(time)))
        }
    }
}
