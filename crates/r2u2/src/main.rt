//! The monitor `r2u2`: it reports verdicts of requirements on a running system, as its trace comes
//! in.
#![tactic(auto)]

ghost use Rattle.std.specs.Process.{exit_status};
ghost use Rattle.r2u2.specs.Ending.{MonitorEnds};

use mltl_tools::{Status, Words, r2u2_main, words_of};
use std::alloc::{AllocError, Global};
use std::process::ExitCode;
use tool_io::{Host, RealHost};

/// Runs the command line of these arguments, or ends out of memory if there are none. Returns the
/// exit code.
fn run<H: Host>(alloc: Global, words: Result<Words, AllocError>, host: &mut H) -> ExitCode
    ensures { MonitorEnds words (exit_status result)
        (H.faults host.old) (H.faults host.new) (H.log host.old) (H.log host.new) }
{
    let mut kept = None;
    match words {
        Ok(words) => ExitCode::from(r2u2_main(alloc, &words, host, &mut kept).code()),
        Err(_) => ExitCode::from(Status::Memory.code()),
    }
}

fn main(rt: HostRuntime) -> ExitCode {
    let words = words_of(rt.alloc(), &rt);
    run(rt.alloc(), words, &mut RealHost::new(rt))
}
