//! A program that embeds a monitor. It compiles a requirement, takes rows of numbers, and prints
//! the line of each verdict when it and all earlier verdicts of its formula are decided.
//!
//! A program that watches its own signals does the same: it needs no trace, and no command line.
#![tactic(auto)]

use anyhow::Result;
use c2po_compile::compile;
use r2u2_monitor::Monitor;
use std::str;

/// The requirement: every request is granted within three steps.
const REQUIREMENT: &[u8] = b"INPUT request, grant: bool; FTSPEC granted: request -> F[0,3] grant;";

/// The rows: at each time, 1 if there is a request, and 1 if there is a grant.
const ROWS: [[i64; 2]; 6] = [[1, 0], [0, 1], [1, 0], [0, 0], [0, 0], [0, 0]];

fn main(rt: HostRuntime) -> Result<()> {
    let checked = compile(rt.alloc(), REQUIREMENT, None)?;
    watch(&rt, &mut Monitor::load(rt.alloc(), checked)?)
}

/// Feeds the rows to the monitor, and prints the verdicts that each row decides.
fn watch(rt: &impl Print, monitor: &mut Monitor) -> Result<()> {
    for row in &ROWS {
        monitor.take(row)?;
        tell(rt, monitor)?;
    }
    Ok(())
}

/// Prints the line of each verdict that the rows so far decide and that isn't printed yet.
fn tell(rt: &impl Print, monitor: &mut Monitor) -> Result<()> {
    while let Some(report) = monitor.next_report() {
        print!(rt; "{}", str::from_utf8(&monitor.line_of(&report))?)?;
    }
    Ok(())
}
