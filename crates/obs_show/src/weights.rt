//! The weight of a program, in one pass over its instructions.
//!
//! An instruction weighs one more than its operands together, so a weight can double from each
//! instruction to the next. Weights above the limit are returned as one past it, and never wrap.

ghost use Rattle.std.specs.Prelude.{◌≡◌, ◌<◌, ◌+◌, IfOk, length, ℕ};
ghost use Rattle.mltl_base.specs.declared.interval.Engine.TheVariants.{Ft, Pt};
ghost use Rattle.mltl_base.specs.Queues.{IsAfterOperands, NamesInstructions};
ghost use Rattle.obs_verify.specs.InstructionRanges.{ReadsBefore};
ghost use Rattle.obs_verify.specs.Running.{IsAfterPastOperands};
ghost use Rattle.obs_show.specs.Weight.{program_weight as weight_of};
ghost use Rattle.obs_show.specs.Weighing.{bz_weight as weight_of_bz, capped, expression_weights, formula_weights, ft_weight as weight_of_ft, operator_weight as weight_joined, out_weight as weight_of_out, pt_weight as weight_of_pt};

use mltl_base::limits::MAX_WEIGHT;
use mltl_base::{BzOp, Engine, FtOp, Out, PtOp};
use obs_verify::Checked;
use std::alloc::{AllocError, Global};

/// One past the limit, which represents every weight above the limit.
const ABOVE: u32 = MAX_WEIGHT + 1;

/// Returns the weight of a program: the leaves and operators of all its outputs as trees, or 65,537
/// above the limit of 65,536.
pub fn weight(alloc: Global, checked: &Checked) -> Result<u32, AllocError>
    ensures { IfOk result (λ found. found ≡ capped (weight_of checked.now)) }
{
    let loaded = bz_weights(alloc, checked)?;
    let ft = ft_weights(alloc, checked, &loaded)?;
    let pt = pt_weights(alloc, checked, &loaded)?;
    Ok(outputs_weight(checked, &ft, &pt))
}

/// Adds two weights.
fn both(left: u32, right: u32) -> u32
    ensures { result ≡ capped (left + right) }
{
    left.saturating_add(right).min(ABOVE)
}

/// Returns the weight of an operator over two operands.
fn joined(left: u32, right: u32) -> u32
    ensures { result ≡ weight_joined left right }
{
    left.saturating_add(right).saturating_add(1).min(ABOVE)
}

/// Returns the weights of the Booleanizer's instructions.
fn bz_weights(alloc: Global, checked: &Checked) -> Result<Vec<u32>, AllocError>
    ensures { IfOk result (λ weights. weights.items ≡ expression_weights checked.now) }
{
    let mut weights = Vec::new(alloc);
    for op in checked.program().bz.as_slice() {
        let weight = bz_weight(op, &weights);
        weights.push(weight)?;
    }
    Ok(weights)
}

fn bz_weight(op: &BzOp, before: &[u32]) -> u32
    requires { ReadsBefore (length before.now) op.now }
    ensures { result ≡ weight_of_bz before.now op.now }
{
    match *op {
        BzOp::Column(_) | BzOp::IsTrue(_) | BzOp::Const(_) => 1,
        BzOp::Neg(a) => joined(before[a as usize], 0),
        BzOp::Add(a, b)
        | BzOp::Sub(a, b)
        | BzOp::Mul(a, b)
        | BzOp::Div(a, b)
        | BzOp::Rem(a, b)
        | BzOp::Eq(a, b)
        | BzOp::Lt(a, b)
        | BzOp::Le(a, b) => joined(before[a as usize], before[b as usize]),
    }
}

/// Returns the weights of the future-time instructions, from the weights of the Booleans that they
/// load.
fn ft_weights(alloc: Global, checked: &Checked, loaded: &[u32]) -> Result<Vec<u32>, AllocError>
    requires { loaded.now ≡ expression_weights checked.now }
    ensures { IfOk result (λ weights. weights.items ≡ formula_weights checked.now Ft) }
{
    let mut weights = Vec::new(alloc);
    for op in checked.program().ft.as_slice() {
        let weight = ft_weight(op, loaded, &weights);
        weights.push(weight)?;
    }
    Ok(weights)
}

fn ft_weight(op: &FtOp, loaded: &[u32], before: &[u32]) -> u32
    requires after { IsAfterOperands (length before.now) op.now }
    requires loads { (k : ℕ) → op.now ≡ FtOp.Load k → k < length loaded.now }
    ensures { result ≡ weight_of_ft loaded.now before.now op.now }
{
    match *op {
        FtOp::True => 1,
        FtOp::Load(a) => loaded[a as usize],
        FtOp::Not(g) => joined(before[g as usize], 0),
        FtOp::And(l, r) | FtOp::Until(l, r, _) => joined(before[l as usize], before[r as usize]),
    }
}

/// Returns the weights of the past-time instructions, from the weights of the Booleans that they
/// load.
fn pt_weights(alloc: Global, checked: &Checked, loaded: &[u32]) -> Result<Vec<u32>, AllocError>
    requires { loaded.now ≡ expression_weights checked.now }
    ensures { IfOk result (λ weights. weights.items ≡ formula_weights checked.now Pt) }
{
    let mut weights = Vec::new(alloc);
    for op in checked.program().pt.as_slice() {
        let weight = pt_weight(op, loaded, &weights);
        weights.push(weight)?;
    }
    Ok(weights)
}

fn pt_weight(op: &PtOp, loaded: &[u32], before: &[u32]) -> u32
    requires after { IsAfterPastOperands (length before.now) op.now }
    requires loads { (k : ℕ) → op.now ≡ PtOp.Load k → k < length loaded.now }
    ensures { result ≡ weight_of_pt loaded.now before.now op.now }
{
    match *op {
        PtOp::True => 1,
        PtOp::Load(a) => loaded[a as usize],
        PtOp::Not(g) => joined(before[g as usize], 0),
        PtOp::And(l, r) | PtOp::Since(l, r, _) => joined(before[l as usize], before[r as usize]),
    }
}

/// Returns the weight of all outputs, from the weights of the instructions of both engines.
fn outputs_weight(checked: &Checked, ft: &[u32], pt: &[u32]) -> u32
    requires future { ft.now ≡ formula_weights checked.now Ft }
    requires past { pt.now ≡ formula_weights checked.now Pt }
    ensures { result ≡ capped (weight_of checked.now) }
{
    let mut total = 0;
    for out in checked.program().outs.as_slice() {
        total = both(total, output_weight(out, ft, pt));
    }
    total
}

fn output_weight(out: &Out, ft: &[u32], pt: &[u32]) -> u32
    requires { NamesInstructions (length ft.now) (length pt.now) out.now }
    ensures { result ≡ weight_of_out ft.now pt.now out.now }
{
    match out {
        Out::Formula(Engine::Ft, g, _) => ft[*g as usize],
        Out::Formula(Engine::Pt, g, _) => pt[*g as usize],
        Out::Contract(Engine::Ft, l, r, _) => both(ft[*l as usize], ft[*r as usize]),
        Out::Contract(Engine::Pt, l, r, _) => both(pt[*l as usize], pt[*r as usize]),
    }
}
