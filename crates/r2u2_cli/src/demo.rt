//! The demo: requirements, rows that are generated from a seed, a run over them, and its summary.
//! It reads no file.

ghost use Rattle.std.specs.Prelude.{◌≡◌, ◌≢◌, None, Some};
ghost use Rattle.tool_io.specs.Log.{OnLog};
ghost use Rattle.tool_words.specs.Causes.{RunCause};
ghost use Rattle.r2u2_cli.specs.Demo.{DemoLog, SummaryLog};

pub(crate) mod row;
pub(crate) mod run;
mod summary;
mod tally;
pub(crate) mod text;

use crate::{Demo, run_demo};
use r2u2_monitor::Monitor;
use std::alloc::Global;
use tool_io::{Host, Place, Put, put_all};
use tool_words::Status;

/// Runs the demo over `rows` rows that are generated from the seed, keeps its monitor, and writes
/// its summary on `Out`.
pub(crate) fn give_demo<H: Host>(
    alloc: Global,
    seed: u32,
    rows: u32,
    host: &mut H,
    kept: &mut Option<Monitor>,
) -> Status
    requires none_kept { kept.old ≡ None }
    ensures cause { RunCause result (H.faults host.old) (H.faults host.new) }
    ensures memory { result ≡ Status.Memory → kept.new ≡ None }
    ensures log { OnLog (H.log host.old) (H.log host.new) (DemoLog result seed rows kept.new) }
{
    match run_demo(alloc, seed, rows) {
        Ok(demo) => give_summary(demo, host, kept),
        Err(_) => Status::Memory,
    }
}

/// Keeps the monitor, and writes the summary on `Out`.
fn give_summary<H: Host>(demo: Demo, host: &mut H, kept: &mut Option<Monitor>) -> Status
    ensures kept { kept.new ≡ Some demo.monitor }
    ensures cause { RunCause result (H.faults host.old) (H.faults host.new) }
    ensures memory { result ≢ Status.Memory }
    ensures log { OnLog (H.log host.old) (H.log host.new) (SummaryLog result demo.summary.items) }
{
    let Demo { monitor, summary } = demo;
    *kept = Some(monitor);
    match put_all(host, Place::Out, &summary) {
        Put::Wrote(_) => Status::Done,
        Put::Failed => Status::WriteFault(Place::Out),
    }
}
