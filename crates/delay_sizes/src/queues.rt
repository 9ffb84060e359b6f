//! Lengths of the queues of future-time instructions.

ghost use Rattle.std.specs.Prelude.{◌≡◌, ℕ, ◌+◌, ◌-◌, ◌≤◌, ◌<◌, ◌^◌, ◌∷◌, [], length, map, slice_index, max, sum, All, IfOk, OnOk, vec_len};
ghost use Rattle.mltl_base.specs.Queues.{AreInOrder, IsAfterOperands, HasBounds, ReportsInstructions, operands, reported, delay_beside, widest_beside, widest, readers, queue_lengths as lengths, slot_count as slots};
ghost use Rattle.delay_sizes.specs.Sizing.{AreDelaysOf, AreSizesOf, IsSizable};

use crate::boxes::box_counts;
use crate::delay_lists::Delays;
use mltl_base::limits::{MAX_BOUND, MAX_DELAY, MAX_SLOTS};
use mltl_base::{Engine, FtOp, Graph, List, Out, Sizes};
use std::alloc::{AllocError, Global};
use thiserror::Error;

/// The reason why a program has no sizes.
#[derive(Clone, Copy, Debug, Error)]
pub enum SizeFault {
    /// All slots and boxes together are above the limit.
    #[error("too many queue slots and boxes")]
    TooManySlots,
    #[error("out of memory")]
    Memory,
}

impl From<AllocError> for SizeFault {
    ghost use Rattle.delay_sizes.specs.declared.queues.SizeFault.TheVariants.{Memory};

    ghost from_gives = { λ _ fault. fault ≡ Memory };

    fn from(_refused: AllocError) -> SizeFault {
        SizeFault::Memory
    }
}

/// Returns the length of each queue and the most boxes of each Since.
pub fn queue_sizes(alloc: Global, graph: &Graph, delays: &Delays) -> Result<Sizes, SizeFault>
    requires graph { IsSizable graph.now }
    requires delays { AreDelaysOf graph.now.ft delays.now }
    ensures sizes { IfOk result (AreSizesOf graph.now) }
    ensures fits { OnOk result (slots graph.now.ft graph.now.pt graph.now.outs ≤ MAX_SLOTS) }
    ensures too_many { result ≡ Err SizeFault.TooManySlots
        → MAX_SLOTS < slots graph.now.ft graph.now.pt graph.now.outs }
{
    let ft = queue_lengths(alloc, &graph.ft, &graph.outs, delays)?;
    let pt = box_counts(alloc, &graph.pt)?;
    let sizes = Sizes { ft, pt };
    if slot_count(&sizes) > u64::from(MAX_SLOTS) {
        return Err(SizeFault::TooManySlots);
    }
    Ok(sizes)
}

/// Returns the length of the queue of each future-time instruction, in order.
pub fn queue_lengths(
    alloc: Global,
    ft: &List<FtOp>,
    outs: &List<Out>,
    delays: &Delays,
) -> Result<List<u32>, AllocError>
    requires in_order { AreInOrder ft.now }
    requires bounded { All (HasBounds MAX_BOUND) ft.now }
    requires reported { All (ReportsInstructions (length ft.now)) outs.now }
    requires delays { AreDelaysOf ft.now delays.now }
    ensures queues { IfOk result (λ sizes. sizes ≡ lengths ft.now outs.now) }
    ensures small { IfOk result (All (λ n. n ≤ MAX_DELAY + 1)) }
{
    let widths = widths_of(alloc, delays.worst.as_slice(), ft, outs)?;
    lengths_of(alloc, widths.as_slice(), delays.best.as_slice())
}

/// Returns the slots from the best-case delay of each instruction to its width, both included.
fn lengths_of(alloc: Global, widths: &[u32], best: &[u32]) -> Result<List<u32>, AllocError>
    requires same { length widths.now ≡ length best.now }
    requires covers { (g : ℕ) → g < length best.now
        → slice_index best.now g ≤ slice_index widths.now g }
    requires small { All (λ rows. rows ≤ MAX_DELAY) widths.now }
    ensures len { IfOk result (λ sizes. length sizes ≡ length best.now) }
    ensures each { IfOk result (λ sizes. (g : ℕ) → g < length best.now
        → slice_index sizes g ≡ slice_index widths.now g - slice_index best.now g + 1) }
    ensures small { IfOk result (All (λ n. n ≤ MAX_DELAY + 1)) }
{
    let mut sizes = List::new(alloc);
    for (g, best) in best.iter().enumerate() {
        sizes.push(widths[g] - *best + 1)?;
    }
    Ok(sizes)
}

/// Returns the greatest worst-case delay among each instruction and all operands of all its
/// readers.
fn widths_of(
    alloc: Global,
    worst: &[u32],
    ft: &List<FtOp>,
    outs: &List<Out>,
) -> Result<Vec<u32>, AllocError>
    requires in_order { AreInOrder ft.now }
    requires each { length worst.now ≡ length ft.now }
    requires reported { All (ReportsInstructions (length worst.now)) outs.now }
    ensures len { IfOk result (λ widths. vec_len widths ≡ length worst.now) }
    ensures widest { IfOk result (λ widths. (g : ℕ) → g < length worst.now
        → slice_index widths.items g ≡ widest worst.now (readers ft.now outs.now) g) }
{
    let mut widths = Vec::from_slice(alloc, worst)?;
    widen_by_readers(&mut widths, worst, ft, outs);
    Ok(widths)
}

/// Raises the width of each instruction to the delays of the other operands of its readers.
fn widen_by_readers(widths: &mut [u32], worst: &[u32], ft: &List<FtOp>, outs: &List<Out>)
    requires in_order { AreInOrder ft.now }
    requires each { length worst.now ≡ length ft.now }
    requires reported { All (ReportsInstructions (length worst.now)) outs.now }
    requires same { length widths.old ≡ length worst.now }
    ensures { (g : ℕ) → g < length worst.now
        → slice_index widths.new g ≡ max (slice_index widths.old g)
        (widest_beside worst.now (readers ft.now outs.now) g) }
{
    widen_by_instructions(widths, worst, ft);
    widen_by_outputs(widths, worst, outs);
}

/// Raises the widths of the operands of each instruction.
fn widen_by_instructions(widths: &mut [u32], worst: &[u32], ft: &List<FtOp>)
    requires in_order { AreInOrder ft.now }
    requires each { length worst.now ≡ length ft.now }
    requires same { length widths.old ≡ length worst.now }
    ensures { (g : ℕ) → g < length worst.now
        → slice_index widths.new g ≡ max (slice_index widths.old g)
        (widest_beside worst.now (map operands ft.now) g) }
{
    for op in ft.as_slice() {
        widen_by_instruction(widths, worst, op);
    }
}

/// Raises the widths of the operands of an instruction.
#[tactic(auto, using(crate::proofs::QueueLaws::read_twice))]
fn widen_by_instruction(widths: &mut [u32], worst: &[u32], op: &FtOp)
    requires inside { IsAfterOperands (length worst.now) op.now }
    requires same { length widths.old ≡ length worst.now }
    ensures { (g : ℕ) → g < length worst.now
        → slice_index widths.new g ≡ max (slice_index widths.old g)
        (delay_beside worst.now g (operands op.now)) }
{
    match *op {
        FtOp::True | FtOp::Load(_) => {}
        FtOp::Not(g) => widen(widths, worst, g, g),
        FtOp::And(l, r) | FtOp::Until(l, r, _) => widen(widths, worst, l, r),
    }
}

/// Raises the widths of the instructions that each output reports.
fn widen_by_outputs(widths: &mut [u32], worst: &[u32], outs: &List<Out>)
    requires reported { All (ReportsInstructions (length worst.now)) outs.now }
    requires same { length widths.old ≡ length worst.now }
    ensures { (g : ℕ) → g < length worst.now
        → slice_index widths.new g ≡ max (slice_index widths.old g)
        (widest_beside worst.now (map reported outs.now) g) }
{
    for out in outs.as_slice() {
        widen_by_output(widths, worst, out);
    }
}

/// Raises the widths of the instructions that an output reports.
#[tactic(auto, using(crate::proofs::QueueLaws::read_twice))]
fn widen_by_output(widths: &mut [u32], worst: &[u32], out: &Out)
    requires inside { ReportsInstructions (length worst.now) out.now }
    requires same { length widths.old ≡ length worst.now }
    ensures { (g : ℕ) → g < length worst.now
        → slice_index widths.new g ≡ max (slice_index widths.old g)
        (delay_beside worst.now g (reported out.now)) }
{
    match out {
        Out::Formula(Engine::Ft, g, _) => widen(widths, worst, *g, *g),
        Out::Contract(Engine::Ft, l, r, _) => widen(widths, worst, *l, *r),
        Out::Formula(Engine::Pt, ..) | Out::Contract(Engine::Pt, ..) => {}
    }
}

/// Raises the widths of the two operands of a reader to the later of their delays.
fn widen(widths: &mut [u32], worst: &[u32], left: u32, right: u32)
    requires left { left < length worst.now }
    requires right { right < length worst.now }
    requires same { length widths.old ≡ length worst.now }
    ensures { (g : ℕ) → g < length worst.now
        → slice_index widths.new g ≡ max (slice_index widths.old g)
        (delay_beside worst.now g (left ∷ right ∷ [])) }
{
    let latest = worst[left as usize].max(worst[right as usize]);
    widths[left as usize] = widths[left as usize].max(latest);
    widths[right as usize] = widths[right as usize].max(latest);
}

/// Returns the number of slots of all queues and of all boxes.
pub fn slot_count(sizes: &Sizes) -> u64
    requires { sum sizes.now.ft + sum sizes.now.pt < 2 ^ 64 }
    ensures { result ≡ sum sizes.now.ft + sum sizes.now.pt }
{
    total(sizes.ft.as_slice()) + total(sizes.pt.as_slice())
}

/// Returns the sum of sizes.
pub fn total(sizes: &[u32]) -> u64
    requires { sum sizes.now < 2 ^ 64 }
    ensures { result ≡ sum sizes.now }
{
    sizes.iter().map(|size| u64::from(*size)).sum()
}
