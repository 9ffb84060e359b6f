//! The top call of the monitor.

ghost use Rattle.std.specs.Prelude.{◌≡◌, ◌≢◌, ◌≤◌, ◌↔◌, ◌^◌, None};
ghost use Rattle.mltl_base.specs.declared.limits.TheConstants.{MAX_MISSION};
ghost use Rattle.tool_io.specs.Log.{OnLog};
ghost use Rattle.tool_io.specs.declared.host.Place.{Place as Where};
ghost use Rattle.tool_io.specs.declared.host.Place.TheVariants.{Err};
ghost use Rattle.tool_words.specs.R2u2Words.{IsInBounds, ask, asked_of, help, nothing, run as run_over, run_of};
ghost use Rattle.tool_words.specs.Causes.{CauseAt, RunCause};
ghost use Rattle.r2u2_cli.specs.Run.{IsRun, Ran};

use crate::demo::give_demo;
use crate::run_bytes;
use r2u2_monitor::Monitor;
use std::alloc::Global;
use tool_io::Host;
use tool_words::{R2u2Ask, Run, Status, Tool, Words, give_help, r2u2_ask, read_file, tell_user};

/// Reads the file, and runs over the trace.
fn run_file<H: Host>(
    alloc: Global,
    asked: &Run<'_>,
    host: &mut H,
    kept: &mut Option<Monitor>,
) -> Status
    requires mission { asked.now.mission ≤ MAX_MISSION }
    requires none_kept { kept.old ≡ None }
    ensures cause { RunCause result (H.faults host.old) (H.faults host.new) }
    ensures memory { result ≡ Status.Memory → kept.new ≡ None }
    ensures log { OnLog (H.log host.old) (H.log host.new)
        (Ran (run_over (run_of asked.now)) result kept.new) }
{
    match read_file(alloc, asked.kind, asked.file, host) {
        Ok(bytes) => run_bytes(alloc, asked, bytes, host, kept),
        Err(status) => status,
    }
}

/// Runs the request of the arguments.
fn run_asked<H: Host>(
    alloc: Global,
    asked: R2u2Ask<'_>,
    host: &mut H,
    kept: &mut Option<Monitor>,
) -> Status
    requires bounds { IsInBounds asked }
    requires none_kept { kept.old ≡ None }
    ensures cause { RunCause result (H.faults host.old) (H.faults host.new) }
    ensures memory { result ≡ Status.Memory → kept.new ≡ None }
    ensures log { OnLog (H.log host.old) (H.log host.new)
        (Ran (asked_of asked.entry) result kept.new) }
{
    match asked {
        R2u2Ask::Help => give_help(Tool::R2u2, host),
        R2u2Ask::Run(asked) => run_file(alloc, &asked, host, kept),
        R2u2Ask::Demo { seed, rows } => give_demo(alloc, seed, rows, host, kept),
        R2u2Ask::Nothing => Status::Usage,
    }
}

/// Reads the arguments, and runs their request.
fn run<H: Host>(alloc: Global, words: &Words, host: &mut H, kept: &mut Option<Monitor>) -> Status
    requires none_kept { kept.old ≡ None }
    ensures usage { result ≢ Status.Memory → (result ≡ Status.Usage) ↔ (ask words.now ≡ nothing) }
    ensures helped { result ≡ Status.Helped → ask words.now ≡ help }
    ensures cause { RunCause result (H.faults host.old) (H.faults host.new) }
    ensures memory { result ≡ Status.Memory → kept.new ≡ None }
    ensures log { OnLog (H.log host.old) (H.log host.new) (Ran (ask words.now) result kept.new) }
{
    match r2u2_ask(alloc, words) {
        Ok(asked) => run_asked(alloc, asked, host, kept),
        Err(_) => Status::Memory,
    }
}

/// Runs r2u2: runs the request of the arguments, and prints on `Err` the message of a failure.
///
/// It runs over a trace, with a specification or with a program file, runs the demo, or prints
/// help. Before it reads on in the trace, the verdict lines of all whole lines that it has taken
/// are out. The monitor that ran is left in `kept`.
pub fn r2u2_main<H: Host>(
    alloc: Global,
    words: &Words,
    host: &mut H,
    kept: &mut Option<Monitor>,
) -> Status
    requires none_kept { kept.old ≡ None }
    ensures usage { result ≢ Status.Memory → (result ≡ Status.Usage) ↔ (ask words.now ≡ nothing) }
    ensures helped { result ≡ Status.Helped → ask words.now ≡ help }
    ensures cause { (p : Where) → p ≢ Err →
        CauseAt result p (H.faults host.old p) (H.faults host.new p) }
    ensures memory { result ≡ Status.Memory → kept.new ≡ None }
    ensures log { OnLog (H.log host.old) (H.log host.new)
        (IsRun (ask words.now) result kept.new (H.faults host.old) (H.faults host.new)) }
{
    let status = run(alloc, words, host, kept);
    tell_user(Tool::R2u2, &status, host);
    status
}
