//! The compiler `c2po`: it makes observer programs for `r2u2` from specifications.
#![tactic(auto)]

ghost use Rattle.std.specs.Process.{exit_status};
ghost use Rattle.c2po.specs.Ending.{CompilerEnds};

use mltl_tools::{Status, Words, c2po_main, words_of};
use std::alloc::{AllocError, Global};
use std::process::ExitCode;
use tool_io::{Host, RealHost};

/// Runs the command line of these arguments, or ends out of memory if there are none. Returns the
/// exit code.
fn run<H: Host>(alloc: Global, words: Result<Words, AllocError>, host: &mut H) -> ExitCode
    ensures { CompilerEnds words (exit_status result)
        (H.faults host.old) (H.faults host.new) (H.log host.old) (H.log host.new) }
{
    match words {
        Ok(words) => ExitCode::from(c2po_main(alloc, &words, host).code()),
        Err(_) => ExitCode::from(Status::Memory.code()),
    }
}

fn main(rt: HostRuntime) -> ExitCode {
    let words = words_of(rt.alloc(), &rt);
    run(rt.alloc(), words, &mut RealHost::new(rt))
}
