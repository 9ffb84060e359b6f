//! The back of the compiler: graph, delays and sizes, stored signals.

ghost use Rattle.std.specs.Prelude.{◌≡◌, ◌≤◌, All, IfErr, IfOk, OnOk};
ghost use Rattle.mltl_base.specs.Queues.{best_delays, slot_count, worst_delays};
ghost use Rattle.c2po_ast.specs.Outputs.{asked, asked_in};
ghost use Rattle.delay_sizes.specs.Sizing.{AreSizesOf, IsSizable};
ghost use Rattle.c2po_compile.specs.Conditions.{IsBuildable};
ghost use Rattle.c2po_compile.specs.Images.{IsImageOf};
ghost use Rattle.c2po_compile.specs.BuildLimits.{IsReason, IsSizeReason, IsWithinLimits};

use crate::build_fault::BuildFault;
use crate::stored::store_signals;
use c2po_ast::Expanded;
use core_graph::to_core;
use delay_sizes::{DelayFault, Delays, SizeFault, delays, queue_sizes};
use mltl_base::limits::{MAX_DELAY, MAX_SLOTS};
use mltl_base::{Columns, Graph, List, Program, Signal, Sizes};
use obs_verify::Checked;
use std::alloc::Global;

/// Returns the checked program of a specification that is unfolded, over the columns of its signals.
///
/// Fails with the first limit that the image of the specification exceeds: of instructions, of delays, or
/// of slots. An image is well-formed, so no rule is tried on it.
pub fn build(
    alloc: Global,
    spec: &Expanded,
    signals: &List<Signal>,
    columns: &Columns,
) -> Result<Checked, BuildFault>
    requires { IsBuildable spec.now signals.now columns.now }
    ensures image { IfOk result
        (λ checked. IsImageOf signals.now columns.now (asked spec.now) checked) }
    ensures within { OnOk result (IsWithinLimits (asked_in columns.now.of_signal spec.now)) }
    ensures refused { IfErr result (IsReason (asked_in columns.now.of_signal spec.now)) }
{
    let graph = to_core(alloc, spec, columns)?;
    let timing = timing_of(alloc, &graph)?;
    let stored = store_signals(alloc, signals.as_slice(), columns.of_signal.as_slice())?;
    let Timing { delays, sizes } = timing;
    let Graph { bz, ft, pt, outs } = graph;
    let program = Program {
        version: 2,
        width: columns.width,
        bz,
        ft,
        pt,
        outs,
        sizes,
        signals: stored,
    };
    Ok(Checked::of(alloc, program, delays)?)
}

/// The delays and the sizes of a graph.
#[derive(Drop)]
struct Timing {
    delays: Delays,
    sizes: Sizes,
}

/// Returns the delays and the sizes of a graph. Fails if a delay is too late or if it needs too many slots.
fn timing_of(alloc: Global, graph: &Graph) -> Result<Timing, BuildFault>
    requires { IsSizable graph.now }
    ensures best { IfOk result (λ found. found.delays.best ≡ best_delays graph.now.ft) }
    ensures worst { IfOk result (λ found. found.delays.worst ≡ worst_delays graph.now.ft) }
    ensures in_time { IfOk result (λ found. All (λ rows. rows ≤ MAX_DELAY) found.delays.worst) }
    ensures sizes { IfOk result (λ found. AreSizesOf graph.now found.sizes) }
    ensures fits { OnOk result (slot_count graph.now.ft graph.now.pt graph.now.outs ≤ MAX_SLOTS) }
    ensures refused { IfErr result (IsSizeReason graph.now) }
{
    let delays = match delays(alloc, &graph.ft) {
        Ok(delays) => delays,
        Err(DelayFault::TooLate(_)) => return Err(BuildFault::TooLate),
        Err(DelayFault::Memory) => return Err(BuildFault::Memory),
    };
    match queue_sizes(alloc, graph, &delays) {
        Ok(sizes) => Ok(Timing { delays, sizes }),
        Err(SizeFault::TooManySlots) => Err(BuildFault::TooManySlots),
        Err(SizeFault::Memory) => Err(BuildFault::Memory),
    }
}
