//! The monitor of the demo over its rows, and the tally of its reports.

ghost use Rattle.std.specs.Prelude.{◌≡◌, ◌≢◌, Err, ◌+◌, ◌≤◌, ◌<◌, ◌^◌, ◌++◌, ◌∷◌, [], length, List as Seq, None, Ok, IfOk, OnOk};
ghost use Rattle.mltl_base.specs.Atoms.{Row};
ghost use Rattle.r2u2_monitor.specs.Monitoring.{IsDrained, Stands, program_of, taken_by};
ghost use Rattle.c2po_compile.specs.Compiled.{compile_text};
ghost use Rattle.r2u2_cli.specs.Played.{Played};
ghost use Rattle.r2u2_cli.specs.Summary.{demo_rows, demo_summary};
ghost use Rattle.r2u2_cli.specs.Tallies.{AreCounted};

use crate::demo::row::demo_row;
use crate::demo::summary::summary_of;
use crate::demo::tally::Tally;
use crate::demo::text::DEMO_TEXT;
use c2po_compile::{CompileFault, compile};
use r2u2_monitor::Monitor;
use std::alloc::{AllocError, Global};

/// The result of a demo: its monitor, and the summary of its reports.
#[derive(Drop)]
pub struct Demo {
    pub monitor: Monitor,
    pub summary: Vec<u8>,
}

/// Runs a monitor of the demo's text over `rows` rows that are generated from a seed, and returns
/// it with the summary of its reports. It fails only if out of memory: the text is never refused.
pub fn run_demo(alloc: Global, seed: u32, rows: u32) -> Result<Demo, AllocError>
    ensures summary { IfOk result (λ demo. demo.summary.items ≡ demo_summary seed rows) }
    ensures program { IfOk result (λ demo.
        compile_text DEMO_TEXT.now None ≡ Ok (program_of demo.monitor)) }
    ensures stands { IfOk result (λ demo. Stands demo.monitor (demo_rows seed rows)) }
    ensures drained { IfOk result (λ demo. IsDrained demo.monitor) }
{
    let mut monitor = demo_monitor(alloc)?;
    let summary = played(alloc, &mut monitor, seed, rows)?;
    Ok(Demo { monitor, summary })
}

/// Feeds all rows to a fresh monitor of the demo's text, and returns the summary of its reports.
fn played(alloc: Global, monitor: &mut Monitor, seed: u32, rows: u32) -> Result<Vec<u8>, AllocError>
    requires program { compile_text DEMO_TEXT.now None ≡ Ok (program_of monitor.old) }
    requires taken { taken_by monitor.old ≡ 0 }
    requires stands { Stands monitor.old [] }
    requires drained { IsDrained monitor.old }
    ensures summary { IfOk result (λ summary. summary.items ≡ demo_summary seed rows) }
    ensures program { OnOk result
        (compile_text DEMO_TEXT.now None ≡ Ok (program_of monitor.new)) }
    ensures stands { OnOk result (Stands monitor.new (demo_rows seed rows)) }
    ensures drained { OnOk result (IsDrained monitor.new) }
{
    let mut tallies = vec![in alloc; Tally::new(); monitor.checked().program().outs.len()]?;
    play(monitor, &mut tallies, seed, rows);
    let outs = monitor.checked().program().outs.as_slice();
    summary_of(alloc, rows, outs, &tallies)
}

/// Makes a monitor of the demo's text that has taken no rows.
fn demo_monitor(alloc: Global) -> Result<Monitor, AllocError>
    ensures program { IfOk result (λ monitor.
        compile_text DEMO_TEXT.now None ≡ Ok (program_of monitor)) }
    ensures taken { IfOk result (λ monitor. taken_by monitor ≡ 0) }
    ensures stands { IfOk result (λ monitor. Stands monitor []) }
    ensures drained { IfOk result (λ monitor. IsDrained monitor) }
{
    let checked = compile(alloc, DEMO_TEXT, None).map_err(want_of_memory)?;
    Monitor::load(alloc, checked)
}

/// Converts a fault of the demo's text. It is out of memory, since the text isn't refused.
fn want_of_memory(fault: CompileFault) -> AllocError
    requires { fault ≢ CompileFault.Memory → compile_text DEMO_TEXT.now None ≡ Err fault }
{
    match fault {
        CompileFault::Memory => AllocError,
        _ => unreachable!(),
    }
}

/// Feeds all rows to a monitor of the demo's text, and counts the reports of each.
fn play(monitor: &mut Monitor, tallies: &mut [Tally], seed: u32, rows: u32)
    requires before { Played tallies.old monitor.old seed 0 }
    ensures after { Played tallies.new monitor.new seed rows }
{
    for k in 0..rows {
        play_row(monitor, tallies, seed, k);
    }
}

/// Feeds row k to the monitor, and counts its reports.
fn play_row(monitor: &mut Monitor, tallies: &mut [Tally], seed: u32, k: u32)
    requires few { k < 2 ^ 32 }
    requires before { Played tallies.old monitor.old seed k }
    ensures after { Played tallies.new monitor.new seed (k + 1) }
{
    monitor.take(&demo_row(seed, u64::from(k))).unwrap();
    drain(monitor, tallies);
}

/// Takes all reports that a monitor hasn't returned yet, and counts them.
fn drain(monitor: &mut Monitor, tallies: &mut [Tally])
    requires counted { (rows : Seq Row) × Stands monitor.old rows
        × AreCounted tallies.old monitor.old rows }
    ensures program { program_of monitor.new ≡ program_of monitor.old }
    ensures taken { taken_by monitor.new ≡ taken_by monitor.old }
    ensures stands { (rows : Seq Row) → Stands monitor.old rows → Stands monitor.new rows }
    ensures drained { IsDrained monitor.new }
    ensures counted { (rows : Seq Row) → Stands monitor.old rows
        → AreCounted tallies.old monitor.old rows
        → AreCounted tallies.new monitor.new rows }
{
    while let Some(report) = monitor.next_report() {
        tallies[report.out as usize].add(report.word);
    }
}
