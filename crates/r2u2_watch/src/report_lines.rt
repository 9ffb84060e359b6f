//! Rows that are taken, and the report lines of each.

ghost use Rattle.std.specs.Prelude.{◌≡◌, ◌+◌, ◌<◌, ◌≤◌, ◌^◌, List, length, replicate};
ghost use Rattle.mltl_base.specs.declared.limits.TheConstants.{MAX_MISSION, TIME_END};
ghost use Rattle.mltl_base.specs.Atoms.{Row};
ghost use Rattle.mltl_base.specs.Lines.{line, lines_of_reports};
ghost use Rattle.mltl_base.specs.Programs.{output_names};
ghost use Rattle.tool_io.specs.Log.{OnLog};
ghost use Rattle.r2u2_monitor.specs.Monitoring.{program_of, taken_by, last_of, read_of, IsDrained, Stands, open_in};
ghost use Rattle.r2u2_watch.specs.Telling.{TellCause, SendsText, IsDrainedIf, HasHeld, TellsRows};
ghost use Rattle.r2u2_watch.specs.Turns.{CanTake, rows_found};

use contract_status::write_line;
use mltl_base::steps::Steps;
use mltl_base::{Report, Style};
use r2u2_monitor::{Checked, Monitor};
use std::sync::ledger::Ledger;
use tool_io::{Host, Place, Put, put_all};

/// Writes the line of a report by one write. Returns true if all of it was written.
#[inline(always)]
fn write_report<H: Host>(
    host: &mut H,
    room: &mut [u8; 128],
    report: &Report,
    checked: &Checked,
) -> bool
    requires exists { report.now.out < length checked.now.outs }
    requires early { report.now.time < TIME_END }
    ensures cause { TellCause result (H.faults host.old) (H.faults host.new) }
    ensures log { OnLog (H.log host.old) (H.log host.new)
        (SendsText result (line (output_names checked.now) report.now)) }
{
    let start = write_line(room, report, checked);
    if let Put::Failed = put_all(host, Place::Out, &room[start..]) {
        return false;
    }
    true
}

/// Writes the lines of all open reports. Returns true if every line was written.
fn write_reports<H: Host>(monitor: &mut Monitor, host: &mut H, style: Style) -> bool
    ensures cause { TellCause result (H.faults host.old) (H.faults host.new) }
    ensures log { (rows : List Row) → Stands monitor.old rows
        → OnLog (H.log host.old) (H.log host.new) (SendsText result
        (lines_of_reports (output_names (program_of monitor.old))
        (open_in style monitor.old rows))) }
    ensures stands { (rows : List Row) → Stands monitor.old rows → Stands monitor.new rows }
    ensures program { program_of monitor.new ≡ program_of monitor.old }
    ensures as_many { taken_by monitor.new ≡ taken_by monitor.old }
    ensures last { last_of monitor.new ≡ last_of monitor.old }
    ensures read { read_of monitor.new ≡ read_of monitor.old }
    ensures drained { IsDrainedIf result monitor.new }
{
    let mut room = [0; 128];
    while let Some(report) = monitor.next(style) {
        if !write_report(host, &mut room, &report, monitor.checked()) {
            return false;
        }
    }
    true
}

/// Takes the last row `copies` more times, and writes the lines of each. Returns true if every line
/// was written.
fn repeat_row<H: Host, L: Ledger>(
    monitor: &mut Monitor,
    host: &mut H,
    times: u64,
    style: Style,
    steps: &mut Steps<L>,
) -> bool
    requires drained { IsDrained monitor.old }
    requires begun { 0 < times → 0 < taken_by monitor.old }
    requires early { taken_by monitor.old + times ≤ MAX_MISSION }
    ensures cause { TellCause result (H.faults host.old) (H.faults host.new) }
    ensures log { (rows : List Row) → Stands monitor.old rows
        → OnLog (H.log host.old) (H.log host.new)
        (TellsRows result (program_of monitor.old) style rows
        (replicate times (last_of monitor.old)) monitor.new) }
    ensures read { read_of monitor.new ≡ read_of monitor.old }
    ensures program { program_of monitor.new ≡ program_of monitor.old }
    ensures held { HasHeld result times monitor.old monitor.new }
{
    for done in 0..times {
        monitor.repeat_last(steps);
        if !write_reports(monitor, host, style) {
            return false;
        }
    }
    true
}

/// Takes the row that was read, after `copies` copies of the last row, and writes the lines of
/// each. Returns true if every line was written.
pub(crate) fn take_rows<H: Host, L: Ledger>(
    monitor: &mut Monitor,
    host: &mut H,
    copies: u64,
    style: Style,
    steps: &mut Steps<L>,
) -> bool
    requires ready { CanTake copies monitor.old }
    requires drained { IsDrained monitor.old }
    ensures cause { TellCause result (H.faults host.old) (H.faults host.new) }
    ensures log { (rows : List Row) → Stands monitor.old rows
        → OnLog (H.log host.old) (H.log host.new)
        (TellsRows result (program_of monitor.old) style rows
        (rows_found copies monitor.old monitor.old) monitor.new) }
    ensures program { program_of monitor.new ≡ program_of monitor.old }
{
    if !repeat_row(monitor, host, copies, style, steps) {
        return false;
    }
    monitor.take_read(steps);
    write_reports(monitor, host, style)
}
