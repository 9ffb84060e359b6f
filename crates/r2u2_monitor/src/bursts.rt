//! The most reports of one row, as known from the program alone.

ghost use Rattle.std.specs.Prelude.{◌≡◌, ◌*◌, ◌^◌, ◌<◌, ◌≤◌, All, length, sum_by};
ghost use Rattle.mltl_base.specs.declared.interval.Engine.TheVariants.{Ft as Future};
ghost use Rattle.mltl_base.specs.Programs.{formula_at};
ghost use Rattle.mltl_base.specs.Queues.{NamesInstructions};
ghost use Rattle.r2u2_monitor.specs.Bursts.{most_of, most_over, most_reports, spread};

use mltl_base::{Engine, Out};
use obs_verify::Checked;

/// Returns the most reports that one row brings, of all outputs together. They are as many with one
/// report for each time, and no more with one for each run. It takes no memory.
pub fn most_reports(checked: &Checked) -> u64
    ensures most { result ≡ most_reports checked.now }
    ensures few { result < 2 ^ 57 }
{
    most_of_outputs(checked, checked.program().outs.as_slice())
}

fn most_of_outputs(checked: &Checked, outs: &[Out]) -> u64
    requires named { All (NamesInstructions (length checked.now.ft) (length checked.now.pt))
        outs.now }
    requires few { length outs.now < 2 ^ 32 }
    ensures most { result ≡ sum_by (most_of checked.now) outs.now }
    ensures few { result ≤ 2 ^ 25 * length outs.now }
{
    let mut most = 0;
    for out in outs {
        most += most_of_output(checked, out);
    }
    most
}

/// Returns the most reports of one output.
fn most_of_output(checked: &Checked, out: &Out) -> u64
    requires { NamesInstructions (length checked.now.ft) (length checked.now.pt) out.now }
    ensures most { result ≡ most_of checked.now out.now }
    ensures few { result ≤ 2 ^ 25 }
{
    match out {
        Out::Formula(engine, i, _) => most_of_two(checked, *engine, *i, *i),
        Out::Contract(engine, i, j, _) => most_of_two(checked, *engine, *i, *j),
    }
}

fn most_of_two(checked: &Checked, engine: Engine, i: u32, j: u32) -> u64
    requires first { engine ≡ Future → i < length checked.now.ft }
    requires second { engine ≡ Future → j < length checked.now.ft }
    ensures most { result ≡ most_over checked.now engine i j }
    ensures few { result ≤ 2 ^ 25 }
{
    match engine {
        Engine::Ft => most_of_future(checked, i, j),
        Engine::Pt => 1,
    }
}

/// Returns the most reports of an output over two future-time instructions, if the first alone
/// decides at the earliest.
#[tactic(auto, using(crate::proofs::Delays::future_delay, crate::proofs::Delays::future_best))]
fn most_of_future(checked: &Checked, i: u32, j: u32) -> u64
    requires first { i < length checked.now.ft }
    requires second { j < length checked.now.ft }
    ensures most { result
        ≡ spread (formula_at checked.now Future i) (formula_at checked.now Future j) }
    ensures few { result ≤ 2 ^ 25 }
{
    let worsts = checked.delays().worst.as_slice();
    let latest = worsts[i as usize].max(worsts[j as usize]);
    let soonest = checked.delays().best.as_slice()[i as usize];
    u64::from(latest.saturating_sub(soonest)) + 1
}
