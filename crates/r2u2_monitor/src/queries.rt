//! Delays and steps of a monitor, as known from its program alone.

ghost use Rattle.std.specs.Prelude.{◌≡◌, ◌+◌, ◌*◌, ◌^◌, ◌<◌, ◌≤◌, All, length, option_map, slice_get, slice_index, sum, sum_by};
ghost use Rattle.mltl_base.specs.declared.interval.Engine.TheVariants.{Ft as Future};
ghost use Rattle.mltl_base.specs.declared.limits.TheConstants.{MAX_SLOTS};
ghost use Rattle.mltl_base.specs.Formula.{plain, wpd};
ghost use Rattle.mltl_base.specs.Programs.{formula_at, output_of, outputs};
ghost use Rattle.mltl_base.specs.Queues.{AreInOrder, IsAfterOperands, NamesInstructions};
ghost use Rattle.mltl_base.specs.Reports.{delay};
ghost use Rattle.ft_engine.specs.Queues.{operand_size, work_before, work_of};
ghost use Rattle.obs_verify.specs.Layout.{HasLayout};
ghost use Rattle.obs_verify.specs.Running.{RunsFuture, RunsPast};
ghost use Rattle.r2u2_monitor.specs.Work.{row_work, running_work, taking_work, telling_work};

use crate::bursts::most_reports;
use mltl_base::{Engine, FtOp, Out, Program};
use obs_verify::Checked;

/// Returns the worst-case delay of output `k`, counted from 0, in rows, or `None` if there is no
/// such output. The row at time `t + delay` reports the output's time `t` at the latest.
pub fn delay_of(checked: &Checked, k: u32) -> Option<u32>
    ensures { result ≡ option_map delay (slice_get (outputs checked.now) k) }
{
    let out = checked.program().outs.as_slice().get(k as usize)?;
    Some(delay_of_output(checked, out))
}

fn delay_of_output(checked: &Checked, out: &Out) -> u32
    requires { NamesInstructions (length checked.now.ft) (length checked.now.pt) out.now }
    ensures { result ≡ delay (output_of checked.now out.now) }
{
    match out {
        Out::Formula(engine, i, _) => delay_of_formula(checked, *engine, *i),
        Out::Contract(engine, i, j, _) => {
            delay_of_formula(checked, *engine, *i).max(delay_of_formula(checked, *engine, *j))
        }
    }
}

#[tactic(auto, using(crate::proofs::Delays::future_delay, crate::proofs::Delays::past_delay))]
fn delay_of_formula(checked: &Checked, engine: Engine, i: u32) -> u32
    requires { engine ≡ Future → i < length checked.now.ft }
    ensures { result ≡ wpd (plain (formula_at checked.now engine i)) }
{
    match engine {
        Engine::Ft => checked.delays().worst.as_slice()[i as usize],
        Engine::Pt => 0,
    }
}

/// Returns the most steps of one row, from the check of the row to the last of its reports:
/// instructions of the three parts, with the reads and writes of queues and boxes, columns,
/// outputs, and reports.
#[tactic(auto, using(obs_verify::proofs::RunLaws::runs_future))]
pub fn row_work(checked: &Checked) -> u64
    ensures { result ≡ row_work checked.now }
{
    let program = checked.program();
    taking_steps(program) + telling_steps(program, most_reports(checked))
}

/// Returns the most steps in which a row is checked and taken.
fn taking_steps(program: &Program) -> u64
    requires layout { HasLayout program.now }
    requires future { RunsFuture program.now }
    requires past { RunsPast program.now }
    ensures steps { result ≡ taking_work program.now }
    ensures few { result < 2 ^ 63 }
{
    let looked_at = program.outs.len() as u64 + program.bz.len() as u64;
    looked_at + column_steps(program.width) + running_steps(program) + 1
}

/// Returns a step for each column.
fn column_steps(width: u32) -> u64
    ensures steps { result ≡ width }
    ensures few { result < 2 ^ 32 }
{
    u64::from(width)
}

/// Returns the most steps in which this number of reports, and the end after them, are searched
/// for.
fn telling_steps(program: &Program, reports: u64) -> u64
    requires layout { HasLayout program.now }
    requires few { reports < 2 ^ 57 }
    ensures steps { result ≡ telling_work program.now reports }
    ensures few { result < 2 ^ 60 }
{
    program.outs.len() as u64 + 2 * (reports + 1)
}

/// Returns the most steps in which the engines take a row: instructions of the Booleanizer, and
/// reads and writes of queues and boxes.
fn running_steps(program: &Program) -> u64
    requires layout { HasLayout program.now }
    requires future { RunsFuture program.now }
    requires past { RunsPast program.now }
    ensures steps { result ≡ running_work program.now }
    ensures few { result < 2 ^ 62 }
{
    let sizes = &program.sizes;
    program.bz.len() as u64
        + future_steps(program.ft.as_slice(), sizes.ft.as_slice())
        + past_steps(sizes.pt.as_slice())
}

fn future_steps(ops: &[FtOp], sizes: &[u32]) -> u64
    requires order { AreInOrder ops.now }
    requires one_each { length sizes.now ≡ length ops.now }
    requires few { length ops.now < 2 ^ 32 }
    requires small { sum sizes.now ≤ MAX_SLOTS }
    ensures steps { result ≡ work_before ops.now (slice_index sizes.now) (length ops.now) }
    ensures few { result ≤ 2 ^ 28 * length ops.now }
{
    let mut steps = 0;
    for i in 0..ops.len() {
        steps += steps_of(&ops[i], sizes, i);
    }
    steps
}

/// Returns the most steps of one instruction.
fn steps_of(op: &FtOp, sizes: &[u32], i: usize) -> u64
    requires order { IsAfterOperands i op.now }
    requires inside { i < length sizes.now }
    requires small { sum sizes.now ≤ MAX_SLOTS }
    ensures steps { result ≡ work_of (slice_index sizes.now) op.now (slice_index sizes.now i) }
    ensures few { result ≤ 2 ^ 28 }
{
    4 * (u64::from(operand_slots(op, sizes, i)) + u64::from(sizes[i]) + 2)
}

/// Returns the most slots of an operand.
fn operand_slots(op: &FtOp, sizes: &[u32], i: usize) -> u32
    requires order { IsAfterOperands i op.now }
    requires inside { i < length sizes.now }
    requires small { sum sizes.now ≤ MAX_SLOTS }
    ensures slots { result ≡ operand_size (slice_index sizes.now) op.now }
    ensures few { result ≤ MAX_SLOTS }
{
    match *op {
        FtOp::True | FtOp::Load(_) => 0,
        FtOp::Not(g) => sizes[g as usize],
        FtOp::And(l, r) | FtOp::Until(l, r, _) => sizes[l as usize].max(sizes[r as usize]),
    }
}

fn past_steps(sizes: &[u32]) -> u64
    requires few { length sizes.now < 2 ^ 32 }
    requires small { sum sizes.now ≤ MAX_SLOTS }
    ensures steps { result ≡ sum_by (λ size. size + 2) sizes.now }
    ensures few { result ≤ 2 ^ 28 * length sizes.now }
{
    let mut steps = 0;
    for size in sizes {
        steps += u64::from(*size) + 2;
    }
    steps
}
