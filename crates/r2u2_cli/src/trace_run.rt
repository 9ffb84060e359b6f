//! A run over a trace, from the bytes of its file to its end.

ghost use Rattle.std.specs.Prelude.{◌≡◌, ◌≢◌, ◌≤◌, ◌^◌, List as Seq, ℕ, None, [], is_some, length};
ghost use Rattle.mltl_base.specs.declared.limits.TheConstants.{MAX_MISSION};
ghost use Rattle.tool_io.specs.Log.{OnLog};
ghost use Rattle.tool_words.specs.R2u2Words.{run_of};
ghost use Rattle.tool_words.specs.Causes.{RunCause};
ghost use Rattle.tool_words.specs.Files.{file_limit};
ghost use Rattle.r2u2_monitor.specs.Monitoring.{IsDrained, Stands, program_of};
ghost use Rattle.r2u2_watch.specs.Watch.{IsWatch, WatchCause, first_of};
ghost use Rattle.r2u2_cli.specs.Outcome.{rows_by};
ghost use Rattle.r2u2_cli.specs.Phases.{IsFirst, LoopLog, OpensFile, RanFile, RanLines, RanLoop, RanRows, RanTrace, ending_status};

use crate::first_line::{header_line, read_first_line};
use crate::program_file::{Opened, open_file, program_for};
use obs_verify::Checked;
use r2u2_monitor::Monitor;
use r2u2_watch::{Watched, watch, watch_timed};
use std::alloc::Global;
use tool_io::{Attached, Host, LineCut, Place};
use tool_words::{Run, Status};

/// Opens the bytes of the file, frees them, and runs over the trace.
pub fn run_bytes<H: Host>(
    alloc: Global,
    asked: &Run<'_>,
    bytes: Vec<u8>,
    host: &mut H,
    kept: &mut Option<Monitor>,
) -> Status
    requires within { length bytes.items ≤ file_limit asked.now.kind }
    requires mission { asked.now.mission ≤ MAX_MISSION }
    requires none_kept { kept.old ≡ None }
    ensures cause { RunCause result (H.faults host.old) (H.faults host.new) }
    ensures memory { result ≡ Status.Memory → kept.new ≡ None }
    ensures log { OnLog (H.log host.old) (H.log host.new)
        (RanFile (run_of asked.now) bytes.items result kept.new) }
{
    let opened = open_file(alloc, asked.kind, &bytes);
    drop(bytes);
    match opened {
        Ok(opened) => run_trace(alloc, asked, opened, host, kept),
        Err(status) => status,
    }
}

/// Attaches the trace, and runs over its lines.
fn run_trace<H: Host>(
    alloc: Global,
    asked: &Run<'_>,
    opened: Opened,
    host: &mut H,
    kept: &mut Option<Monitor>,
) -> Status
    requires mission { asked.now.mission ≤ MAX_MISSION }
    requires none_kept { kept.old ≡ None }
    ensures cause { RunCause result (H.faults host.old) (H.faults host.new) }
    ensures memory { result ≡ Status.Memory → kept.new ≡ None }
    ensures log { (bytes : Seq ℕ) → OpensFile opened asked.now.kind bytes →
        OnLog (H.log host.old) (H.log host.new)
        (RanTrace (run_of asked.now) bytes result kept.new) }
{
    if let Attached::Failed = host.attach(Place::Trace, asked.trace) {
        return Status::OpenFault(Place::Trace);
    }
    run_lines(alloc, asked, opened, host, kept)
}

/// Runs over the lines of an attached trace.
fn run_lines<H: Host>(
    alloc: Global,
    asked: &Run<'_>,
    opened: Opened,
    host: &mut H,
    kept: &mut Option<Monitor>,
) -> Status
    requires mission { asked.now.mission ≤ MAX_MISSION }
    requires none_kept { kept.old ≡ None }
    ensures cause { RunCause result (H.faults host.old) (H.faults host.new) }
    ensures memory { result ≡ Status.Memory → kept.new ≡ None }
    ensures log { (bytes : Seq ℕ) → OpensFile opened asked.now.kind bytes →
        OnLog (H.log host.old) (H.log host.new)
        (RanLines (run_of asked.now) bytes result kept.new) }
{
    let mut cut = match LineCut::make(alloc) {
        Ok(cut) => cut,
        Err(_) => return Status::Memory,
    };
    match read_first_line(&mut cut, host) {
        Ok(any) => run_rows(alloc, asked, opened, &mut cut, any, host, kept),
        Err(status) => status,
    }
}

/// Makes the program for the first line of the trace, and watches the trace.
fn run_rows<H: Host>(
    alloc: Global,
    asked: &Run<'_>,
    opened: Opened,
    cut: &mut LineCut,
    any: bool,
    host: &mut H,
    kept: &mut Option<Monitor>,
) -> Status
    requires mission { asked.now.mission ≤ MAX_MISSION }
    requires first { IsFirst cut.old }
    requires any { any ≡ is_some cut.old.row }
    requires none_kept { kept.old ≡ None }
    ensures cause { RunCause result (H.faults host.old) (H.faults host.new) }
    ensures memory { result ≡ Status.Memory → kept.new ≡ None }
    ensures log { (bytes : Seq ℕ) → OpensFile opened asked.now.kind bytes →
        OnLog (H.log host.old) (H.log host.new)
        (RanRows (run_of asked.now) bytes cut.old result kept.new) }
{
    match program_for(alloc, opened, header_line(cut, any)) {
        Ok(checked) => watch_rows(alloc, asked, checked, cut, host, kept),
        Err(status) => status,
    }
}

/// Loads the monitor, and watches the trace.
fn watch_rows<H: Host>(
    alloc: Global,
    asked: &Run<'_>,
    checked: Checked,
    cut: &mut LineCut,
    host: &mut H,
    kept: &mut Option<Monitor>,
) -> Status
    requires mission { asked.now.mission ≤ MAX_MISSION }
    requires numbered { cut.old.number ≤ 1 }
    requires none_kept { kept.old ≡ None }
    ensures cause { RunCause result (H.faults host.old) (H.faults host.new) }
    ensures memory { result ≡ Status.Memory → kept.new ≡ None }
    ensures log { OnLog (H.log host.old) (H.log host.new)
        (LoopLog checked (run_of asked.now) cut.old result kept.new) }
{
    match Monitor::load(alloc, checked) {
        Ok(monitor) => watch_loaded(monitor, asked, cut, host, kept),
        Err(_) => Status::Memory,
    }
}

/// Watches the trace with a fresh monitor, and keeps the monitor.
fn watch_loaded<H: Host>(
    mut monitor: Monitor,
    asked: &Run<'_>,
    cut: &mut LineCut,
    host: &mut H,
    kept: &mut Option<Monitor>,
) -> Status
    requires no_rows { Stands monitor [] }
    requires drained { IsDrained monitor }
    requires mission { asked.now.mission ≤ MAX_MISSION }
    requires numbered { cut.old.number ≤ 1 }
    ensures cause { RunCause result (H.faults host.old) (H.faults host.new) }
    ensures memory { result ≢ Status.Memory }
    ensures log { OnLog (H.log host.old) (H.log host.new)
        (RanLoop (program_of monitor) (run_of asked.now) cut.old result kept.new) }
{
    let watched = watch_asked(&mut monitor, cut, host, asked);
    *kept = Some(monitor);
    status_after(watched)
}

/// Watches the trace, over stamped rows if the arguments request them.
fn watch_asked<H: Host>(
    monitor: &mut Monitor,
    cut: &mut LineCut,
    host: &mut H,
    asked: &Run<'_>,
) -> Watched
    requires no_rows { Stands monitor.old [] }
    requires drained { IsDrained monitor.old }
    requires mission { asked.now.mission ≤ MAX_MISSION }
    requires numbered { cut.old.number ≤ 1 }
    ensures cause { WatchCause result (H.faults host.old) (H.faults host.new) }
    ensures log { OnLog (H.log host.old) (H.log host.new)
        (IsWatch (program_of monitor.old) asked.now.style
        (rows_by (run_of asked.now) (program_of monitor.old) (first_of cut.old))
        cut.old cut.new monitor.new result) }
    ensures program { program_of monitor.new ≡ program_of monitor.old }
{
    if asked.timed {
        watch_timed(monitor, cut, host, asked.mission, asked.style)
    } else {
        watch(monitor, cut, host, asked.mission, asked.style)
    }
}

fn status_after(watched: Watched) -> Status
    ensures status { result ≡ ending_status watched }
    ensures memory { result ≢ Status.Memory }
{
    match watched {
        Watched::Done => Status::Done,
        Watched::BadTrace(number, why) => Status::BadTrace(number, why),
        Watched::TooLong => Status::TooLong,
        Watched::ReadFault => Status::ReadFault(Place::Trace),
        Watched::WriteFault => Status::WriteFault(Place::Out),
    }
}
