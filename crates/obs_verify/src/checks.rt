//! Rules of well-formed programs on the instructions of both engines, the outputs and the sizes.

ghost use Rattle.std.specs.Prelude.{◌≡◌, ◌<◌, ◌^◌, ℕ, Option, Some, length, slice_get};
ghost use Rattle.mltl_base.specs.declared.program.Program.{Program as Observer};
ghost use Rattle.obs_verify.specs.declared.fault.VerifyFault.{VerifyFault as Fault};
ghost use Rattle.obs_verify.specs.WellFormed.{IsAnswer, first_in, ft_fault, has_future_operands, has_future_window, has_past_operands, has_past_window, is_truth, is_window, output_fault, pt_fault, reports_within, size_fault, width_fault};

use crate::fault::VerifyFault;
use mltl_base::limits::{MAX_BOUND, MAX_SIGNALS};
use mltl_base::{BzOp, Engine, FtOp, Interval, Out, Part, Program, PtOp};

/// Checks that the width is within its limit.
pub fn check_width(program: &Program) -> Result<(), VerifyFault>
    ensures { IsAnswer result (width_fault program.now) }
{
    if program.width > MAX_SIGNALS {
        return Err(VerifyFault::Width);
    }
    Ok(())
}

/// A member of a program that a rule checks.
trait Ruled {
    ghost fault_of: { Observer → ℕ → Self → Option Fault };

    /// Checks the member, number `i` of its kind.
    fn check(&self, program: &Program, i: u32) -> Result<(), VerifyFault>
        ensures { IsAnswer result (fault_of program.now i self.now) };
}

/// Checks all members of one kind.
fn check_all<T: Ruled>(program: &Program, members: &[T]) -> Result<(), VerifyFault>
    requires { length members.now < 2 ^ 32 }
    ensures { IsAnswer result (first_in (T.fault_of program.now) 0 members.now) }
{
    for (i, member) in members.iter().enumerate() {
        member.check(program, i as u32)?;
    }
    Ok(())
}

/// Checks that future-time instructions read what they may, over intervals within the limit.
pub fn check_future(program: &Program) -> Result<(), VerifyFault>
    requires { length program.now.ft < 2 ^ 32 }
    ensures { IsAnswer result (first_in (ft_fault program.now) 0 program.now.ft) }
{
    check_all(program, program.ft.as_slice())
}

impl Ruled for FtOp {
    ghost use Rattle.obs_verify.specs.WellFormed.{ft_fault};

    ghost fault_of = { ft_fault };

    fn check(&self, program: &Program, i: u32) -> Result<(), VerifyFault> {
        if !reads_future(program, i, self) {
            return Err(VerifyFault::Operand(Part::Ft, i));
        }
        if !keeps_future_bounds(self) {
            return Err(VerifyFault::Interval(Part::Ft, i));
        }
        Ok(())
    }
}

fn reads_future(program: &Program, i: u32, op: &FtOp) -> bool
    ensures { result ≡ has_future_operands program.now i op.now }
{
    match *op {
        FtOp::True => true,
        FtOp::Load(a) => is_truth_at(program.bz.as_slice(), a),
        FtOp::Not(g) => g < i,
        FtOp::And(l, r) | FtOp::Until(l, r, _) => l < i && r < i,
    }
}

fn keeps_future_bounds(op: &FtOp) -> bool
    ensures { result ≡ has_future_window op.now }
{
    match *op {
        FtOp::Until(_, _, window) => keeps_bounds(window),
        FtOp::True | FtOp::Load(_) | FtOp::Not(_) | FtOp::And(_, _) => true,
    }
}

/// Checks that past-time instructions read what they may, over intervals within the limit.
pub fn check_past(program: &Program) -> Result<(), VerifyFault>
    requires { length program.now.pt < 2 ^ 32 }
    ensures { IsAnswer result (first_in (pt_fault program.now) 0 program.now.pt) }
{
    check_all(program, program.pt.as_slice())
}

impl Ruled for PtOp {
    ghost use Rattle.obs_verify.specs.WellFormed.{pt_fault};

    ghost fault_of = { pt_fault };

    fn check(&self, program: &Program, i: u32) -> Result<(), VerifyFault> {
        if !reads_past(program, i, self) {
            return Err(VerifyFault::Operand(Part::Pt, i));
        }
        if !keeps_past_bounds(self) {
            return Err(VerifyFault::Interval(Part::Pt, i));
        }
        Ok(())
    }
}

fn reads_past(program: &Program, i: u32, op: &PtOp) -> bool
    ensures { result ≡ has_past_operands program.now i op.now }
{
    match *op {
        PtOp::True => true,
        PtOp::Load(a) => is_truth_at(program.bz.as_slice(), a),
        PtOp::Not(g) => g < i,
        PtOp::And(l, r) | PtOp::Since(l, r, _) => l < i && r < i,
    }
}

fn keeps_past_bounds(op: &PtOp) -> bool
    ensures { result ≡ has_past_window op.now }
{
    match *op {
        PtOp::Since(_, _, window) => keeps_bounds(window),
        PtOp::True | PtOp::Load(_) | PtOp::Not(_) | PtOp::And(_, _) => true,
    }
}

fn keeps_bounds(window: Interval) -> bool
    ensures { result ≡ is_window window }
{
    window.lo <= window.hi && window.hi <= MAX_BOUND
}

fn is_truth_at(bz: &[BzOp], a: u32) -> bool
    ensures { result ≡ is_truth (slice_get bz.now a) }
{
    match bz.get(a as usize) {
        Some(op) => gives_truth(*op),
        None => false,
    }
}

fn gives_truth(op: BzOp) -> bool
    ensures { result ≡ is_truth (Some op) }
{
    matches!(
        op,
        BzOp::IsTrue(_) | BzOp::Eq(_, _) | BzOp::Lt(_, _) | BzOp::Le(_, _)
    )
}

/// Checks that outputs report instructions that exist.
pub fn check_outputs(program: &Program) -> Result<(), VerifyFault>
    requires { length program.now.outs < 2 ^ 32 }
    ensures { IsAnswer result (first_in (output_fault program.now) 0 program.now.outs) }
{
    check_all(program, program.outs.as_slice())
}

impl Ruled for Out {
    ghost use Rattle.obs_verify.specs.WellFormed.{output_fault};

    ghost fault_of = { output_fault };

    fn check(&self, program: &Program, k: u32) -> Result<(), VerifyFault> {
        if !reports_existing(self, program.ft.len(), program.pt.len()) {
            return Err(VerifyFault::Output(k));
        }
        Ok(())
    }
}

fn reports_existing(out: &Out, fts: usize, pts: usize) -> bool
    ensures { result ≡ reports_within fts pts out.now }
{
    match out {
        Out::Formula(Engine::Ft, g, _) => (*g as usize) < fts,
        Out::Formula(Engine::Pt, g, _) => (*g as usize) < pts,
        Out::Contract(Engine::Ft, l, r, _) => (*l as usize) < fts && (*r as usize) < fts,
        Out::Contract(Engine::Pt, l, r, _) => (*l as usize) < pts && (*r as usize) < pts,
    }
}

/// Checks that stored sizes are the sizes that the instructions need.
pub fn check_stored(part: Part, stored: &[u32], needed: &[u32]) -> Result<(), VerifyFault>
    requires few { length stored.now < 2 ^ 32 }
    requires same { length stored.now ≡ length needed.now }
    ensures { IsAnswer result (first_in (size_fault part needed.now) 0 stored.now) }
{
    for (i, size) in stored.iter().enumerate() {
        if *size != needed[i] {
            return Err(VerifyFault::Size(part, i as u32));
        }
    }
    Ok(())
}
