//! The rules of well-formed programs, in order.

ghost use Rattle.std.specs.Prelude.{◌≡◌, ◌≤◌, ◌<◌, ◌^◌, All, IfOk, length};
ghost use Rattle.mltl_base.specs.Queues.{AreInOrder, HasBounds, HasPastBounds, ReportsInstructions, best_delays, box_counts as boxes, queue_lengths as lengths, worst_delays};
ghost use Rattle.mltl_base.specs.declared.interval.Part.TheVariants.{Ft, Pt};
ghost use Rattle.delay_sizes.specs.Sizing.{AreDelaysOf};
ghost use Rattle.obs_verify.specs.Layout.{HasLayout};
ghost use Rattle.obs_verify.specs.WellFormed.{IsAnswer, first_fault, first_in, late_fault, earlier_of, size_fault, slots_fault};

use crate::booleanizer::check_booleanizer;
use crate::checks::{check_future, check_outputs, check_past, check_stored, check_width};
use crate::fault::VerifyFault;
use crate::signals::check_signals;
use delay_sizes::{DelayFault, Delays, box_counts, delays, queue_lengths, slot_count};
use mltl_base::limits::{MAX_BOUND, MAX_DELAY, MAX_SLOTS};
use mltl_base::{Part, Program, Sizes};
use std::alloc::Global;

/// Returns the delays of a well-formed program, or the first fault.
pub fn check_rules(alloc: Global, program: &Program) -> Result<Delays, VerifyFault>
    requires { HasLayout program.now }
    ensures answer { IsAnswer result (first_fault program.now) }
    ensures best { IfOk result (λ found. found.best ≡ best_delays program.now.ft) }
    ensures worst { IfOk result (λ found. found.worst ≡ worst_delays program.now.ft) }
    ensures in_time { IfOk result (λ found. All (λ rows. rows ≤ MAX_DELAY) found.worst) }
{
    check_width(program)?;
    let kinds = check_signals(alloc, program)?;
    check_booleanizer(alloc, program, &kinds)?;
    check_future(program)?;
    let found = check_delays(alloc, program)?;
    check_past(program)?;
    check_outputs(program)?;
    check_sizes(alloc, program, &found)?;
    Ok(found)
}

/// Returns the delays of the future-time instructions, or the first instruction that is too late.
fn check_delays(alloc: Global, program: &Program) -> Result<Delays, VerifyFault>
    requires few { length program.now.ft < 2 ^ 32 }
    requires in_order { AreInOrder program.now.ft }
    requires bounded { All (HasBounds MAX_BOUND) program.now.ft }
    ensures answer { IsAnswer result (first_in late_fault 0 (worst_delays program.now.ft)) }
    ensures best { IfOk result (λ found. found.best ≡ best_delays program.now.ft) }
    ensures worst { IfOk result (λ found. found.worst ≡ worst_delays program.now.ft) }
    ensures in_time { IfOk result (λ found. All (λ rows. rows ≤ MAX_DELAY) found.worst) }
{
    match delays(alloc, &program.ft) {
        Ok(found) => Ok(found),
        Err(DelayFault::TooLate(i)) => Err(VerifyFault::TooLate(i)),
        Err(DelayFault::Memory) => Err(VerifyFault::Memory),
    }
}

/// Checks that the sizes that the instructions need are within their limit and are stored.
fn check_sizes(alloc: Global, program: &Program, found: &Delays) -> Result<(), VerifyFault>
    requires layout { HasLayout program.now }
    requires in_order { AreInOrder program.now.ft }
    requires bounded { All (HasBounds MAX_BOUND) program.now.ft }
    requires bounded_past { All (HasPastBounds MAX_BOUND) program.now.pt }
    requires reported { All (ReportsInstructions (length program.now.ft)) program.now.outs }
    requires delays { AreDelaysOf program.now.ft found.now }
    ensures { IsAnswer result (earlier_of (slots_fault program.now)
        (earlier_of
        (first_in (size_fault Ft (lengths program.now.ft program.now.outs)) 0 program.now.sizes.ft)
        (first_in (size_fault Pt (boxes program.now.pt)) 0 program.now.sizes.pt))) }
{
    let ft = queue_lengths(alloc, &program.ft, &program.outs, found)?;
    let pt = box_counts(alloc, &program.pt)?;
    let needed = Sizes { ft, pt };
    if slot_count(&needed) > u64::from(MAX_SLOTS) {
        return Err(VerifyFault::TooManySlots);
    }
    check_stored(Part::Ft, program.sizes.ft.as_slice(), needed.ft.as_slice())?;
    check_stored(Part::Pt, program.sizes.pt.as_slice(), needed.pt.as_slice())
}
