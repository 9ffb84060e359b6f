//! The rules of simplification over nodes: each operator over simplified operands.

ghost use Rattle.std.specs.Prelude.{◌≡◌, ◌↔◌, ◌+◌, IsTrue, if◌then◌else◌, nat_le, None, Some, IfOk, slice_get};
ghost use Rattle.mltl_base.specs.Formula.{Formula};
ghost use Rattle.mltl_base.specs.declared.limits.TheConstants.{MAX_BOUND};
ghost use Rattle.c2po_ast.specs.Nodes.{Has, IsBounded, formula};
ghost use Rattle.mltl_simplify.specs.Nodes.{AreFormed, IsFormulaAt, KeepsNone, AddsNodes, gives_truth, keeps_truth, simple_between, simple_logic, simple_window};
ghost use Rattle.mltl_simplify.specs.Simplify.{summed_interval as summed, simple_and, simple_equals, simple_implies, simple_not, simple_or, as_truth};

use c2po_ast::{NodeList, Plain};
use mltl_base::limits::MAX_BOUND;
use mltl_base::{BetweenOp, Interval, LogicOp, WindowOp};
use std::alloc::AllocError;

/// Returns the Boolean that formula `n` is, if it is one.
fn truth_at(nodes: &NodeList, n: u32) -> Option<bool>
    requires { IsFormulaAt nodes.now n }
    ensures { (p : Formula) → Has nodes.now n (formula p) → result ≡ as_truth p }
{
    match nodes.as_slice()[n as usize] {
        Plain::Truth(value) => Some(value),
        _ => None,
    }
}

/// Returns the node of the negation of `a`, simplified.
pub fn negation(nodes: &mut NodeList, a: u32) -> Result<u32, AllocError>
    requires formed { AreFormed nodes.old }
    requires there { IsFormulaAt nodes.old a }
    ensures { (p : Formula) → Has nodes.old a (formula p)
        → IfOk result (λ n. AddsNodes nodes.old nodes.new n (simple_not p)) }
{
    match nodes.as_slice()[a as usize] {
        Plain::Truth(value) => nodes.push(Plain::Truth(!value)),
        Plain::Not(z) => Ok(z),
        _ => nodes.push(Plain::Not(a)),
    }
}

/// Returns the node of `a && b`, simplified.
fn conjunction(nodes: &mut NodeList, a: u32, b: u32) -> Result<u32, AllocError>
    requires formed { AreFormed nodes.old }
    requires left { IsFormulaAt nodes.old a }
    requires right { IsFormulaAt nodes.old b }
    ensures { (p q : Formula) → Has nodes.old a (formula p) → Has nodes.old b (formula q)
        → IfOk result (λ n. AddsNodes nodes.old nodes.new n (simple_and p q)) }
{
    match (truth_at(nodes, a), truth_at(nodes, b)) {
        (Some(true), _) => Ok(b),
        (Some(false), _) => Ok(a),
        (None, Some(true)) => Ok(a),
        (None, Some(false)) => Ok(b),
        (None, None) => nodes.push(Plain::Logic(LogicOp::And, a, b)),
    }
}

/// Returns the node of `a || b`, simplified.
fn disjunction(nodes: &mut NodeList, a: u32, b: u32) -> Result<u32, AllocError>
    requires formed { AreFormed nodes.old }
    requires left { IsFormulaAt nodes.old a }
    requires right { IsFormulaAt nodes.old b }
    ensures { (p q : Formula) → Has nodes.old a (formula p) → Has nodes.old b (formula q)
        → IfOk result (λ n. AddsNodes nodes.old nodes.new n (simple_or p q)) }
{
    match (truth_at(nodes, a), truth_at(nodes, b)) {
        (Some(true), _) => Ok(a),
        (Some(false), _) => Ok(b),
        (None, Some(true)) => Ok(b),
        (None, Some(false)) => Ok(a),
        (None, None) => nodes.push(Plain::Logic(LogicOp::Or, a, b)),
    }
}

/// Returns the node of `a -> b`, simplified.
fn implication(nodes: &mut NodeList, a: u32, b: u32) -> Result<u32, AllocError>
    requires formed { AreFormed nodes.old }
    requires left { IsFormulaAt nodes.old a }
    requires right { IsFormulaAt nodes.old b }
    ensures { (p q : Formula) → Has nodes.old a (formula p) → Has nodes.old b (formula q)
        → IfOk result (λ n. AddsNodes nodes.old nodes.new n (simple_implies p q)) }
{
    match (truth_at(nodes, a), truth_at(nodes, b)) {
        (Some(true), _) => Ok(b),
        (Some(false), _) => nodes.push(Plain::Truth(true)),
        (None, Some(true)) => Ok(b),
        (None, Some(false)) => negation(nodes, a),
        (None, None) => nodes.push(Plain::Logic(LogicOp::Implies, a, b)),
    }
}

/// Returns the node of `a <-> b`, simplified.
fn equivalence(nodes: &mut NodeList, a: u32, b: u32) -> Result<u32, AllocError>
    requires formed { AreFormed nodes.old }
    requires left { IsFormulaAt nodes.old a }
    requires right { IsFormulaAt nodes.old b }
    ensures { (p q : Formula) → Has nodes.old a (formula p) → Has nodes.old b (formula q)
        → IfOk result (λ n. AddsNodes nodes.old nodes.new n (simple_equals p q)) }
{
    match (truth_at(nodes, a), truth_at(nodes, b)) {
        (Some(true), _) => Ok(b),
        (Some(false), _) => negation(nodes, b),
        (None, Some(true)) => Ok(a),
        (None, Some(false)) => negation(nodes, a),
        (None, None) => nodes.push(Plain::Logic(LogicOp::Iff, a, b)),
    }
}

/// Returns the node of a connective of two formulas, simplified.
pub fn connective(nodes: &mut NodeList, op: LogicOp, a: u32, b: u32) -> Result<u32, AllocError>
    requires formed { AreFormed nodes.old }
    requires left { IsFormulaAt nodes.old a }
    requires right { IsFormulaAt nodes.old b }
    ensures { (p q : Formula) → Has nodes.old a (formula p) → Has nodes.old b (formula q)
        → IfOk result (λ n. AddsNodes nodes.old nodes.new n (simple_logic op p q)) }
{
    match op {
        LogicOp::And => conjunction(nodes, a, b),
        LogicOp::Or => disjunction(nodes, a, b),
        LogicOp::Implies => implication(nodes, a, b),
        LogicOp::Iff => equivalence(nodes, a, b),
    }
}

/// Returns `true` if a temporal operator over a Boolean is that Boolean. Once of true isn't true at
/// the first times, and historically of false isn't false there.
fn keeps(op: WindowOp, value: bool) -> bool
    ensures { result ≡ keeps_truth op value }
{
    match op {
        WindowOp::F | WindowOp::G => true,
        WindowOp::O => !value,
        WindowOp::H => value,
    }
}

/// Returns the interval that joins two nested intervals, if its upper bound is within the limit.
fn joined(i: Interval, j: Interval) -> Option<Interval>
    requires outer { IsBounded i }
    requires inner { IsBounded j }
    ensures { result ≡ (if nat_le (i.hi + j.hi) MAX_BOUND then Some (summed i j) else None) }
{
    if i.hi + j.hi <= MAX_BOUND {
        Some(Interval {
            lo: i.lo + j.lo,
            hi: i.hi + j.hi,
        })
    } else {
        None
    }
}

/// Returns `true` if two operators are the same.
fn is_same(outer: WindowOp, inner: WindowOp) -> bool
    ensures { IsTrue result ↔ (inner ≡ outer) }
{
    inner == outer
}

/// Returns the node of a temporal operator over a formula that it doesn't leave as it is. Two
/// nested operators of one sort are joined.
fn stacked(nodes: &mut NodeList, op: WindowOp, i: Interval, a: u32) -> Result<u32, AllocError>
    requires formed { AreFormed nodes.old }
    requires bounded { IsBounded i }
    requires there { IsFormulaAt nodes.old a }
    ensures { (p : Formula) → Has nodes.old a (formula p) → KeepsNone op (as_truth p)
        → IfOk result (λ n. AddsNodes nodes.old nodes.new n (simple_window op i p)) }
{
    let node = nodes.as_slice()[a as usize];
    match node {
        Plain::Window(inner, j, z) if is_same(op, inner) => match joined(i, j) {
            Some(whole) => nodes.push(Plain::Window(op, whole, z)),
            None => nodes.push(Plain::Window(op, i, a)),
        },
        _ => nodes.push(Plain::Window(op, i, a)),
    }
}

/// Returns the node of a temporal operator over one formula, simplified.
pub fn window(nodes: &mut NodeList, op: WindowOp, i: Interval, a: u32) -> Result<u32, AllocError>
    requires formed { AreFormed nodes.old }
    requires bounded { IsBounded i }
    requires there { IsFormulaAt nodes.old a }
    ensures { (p : Formula) → Has nodes.old a (formula p)
        → IfOk result (λ n. AddsNodes nodes.old nodes.new n (simple_window op i p)) }
{
    match truth_at(nodes, a) {
        Some(value) if keeps(op, value) => Ok(a),
        _ => stacked(nodes, op, i, a),
    }
}

/// Returns `true` if a temporal operator with a Boolean on its right is that Boolean. Since with
/// true isn't true at the first times.
fn gives(op: BetweenOp, value: bool) -> bool
    ensures { result ≡ gives_truth op value }
{
    match op {
        BetweenOp::U | BetweenOp::R => true,
        BetweenOp::S => !value,
    }
}

/// Returns the node of a temporal operator between formulas, simplified.
pub fn between(
    nodes: &mut NodeList,
    op: BetweenOp,
    i: Interval,
    a: u32,
    b: u32,
) -> Result<u32, AllocError>
    requires formed { AreFormed nodes.old }
    requires bounded { IsBounded i }
    requires left { IsFormulaAt nodes.old a }
    requires right { IsFormulaAt nodes.old b }
    ensures { (p q : Formula) → Has nodes.old a (formula p) → Has nodes.old b (formula q)
        → IfOk result (λ n. AddsNodes nodes.old nodes.new n (simple_between op i p q)) }
{
    match truth_at(nodes, b) {
        Some(value) if gives(op, value) => Ok(b),
        _ => nodes.push(Plain::Between(op, i, a, b)),
    }
}
