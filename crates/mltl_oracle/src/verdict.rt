//! Known verdicts of formulas.

ghost use Rattle.mltl_base.specs.Atoms.{holds as holds_on};
ghost use Rattle.mltl_base.specs.Formula.{wpd};
ghost use Rattle.mltl_base.specs.Meaning.{sat};
ghost use Rattle.mltl_base.specs.Verdicts.{known_front, verdicts as verdicts_of};
ghost use Rattle.mltl_oracle.specs.Computing.{ComputesAll, ComputesAtom, k_between, k_logic, k_operator, k_window};
ghost use Rattle.mltl_oracle.specs.Shapes.{as_atom, as_formula, truth_formula};
ghost use Rattle.mltl_oracle.specs.declared.verdict.Fault.TheVariants.{Memory as NoMemory};
ghost use Rattle.std.specs.Prelude.{◌≡◌, suc, ◌+◌, ◌^◌, ◌<◌, Some, length, map, slice_get, IfOk, IfErr, IfSome, All};

use crate::kleene::{and, implies, not, or};
use crate::operators::{finally, globally, historically, known, once, since, until};
use crate::values::holds;
use crate::{Atom, Formula};
use mltl_base::{BetweenOp, Interval, List, LogicOp, WindowOp};
use std::alloc::{AllocFailed, Global};

/// The fault of a computation.
#[derive(Clone, Copy)]
pub enum Fault {
    /// Out of memory.
    Memory,
    /// An integer leaves 64 bits, or a divisor is 0.
    Number,
}

impl<T: Drop> From<AllocFailed<T>> for Fault {
    ghost use Rattle.mltl_oracle.specs.declared.verdict.Fault.TheVariants.{Memory};

    ghost from_gives = { λ _ fault. fault ≡ Memory };

    fn from(_refused: AllocFailed<T>) -> Fault {
        Fault::Memory
    }
}

/// The operator at the top of a formula.
#[derive(Clone, Copy)]
enum Operator {
    Not,
    Logic(LogicOp),
    Window(WindowOp, Interval),
    Between(BetweenOp, Interval),
}

/// Returns the verdicts of a formula that are known after the rows.
pub fn verdicts(alloc: Global, rows: &[List<i64>], p: &Formula) -> Result<List<bool>, Fault>
    ensures known { IfOk result (λ vs. vs ≡ verdicts_of rows.now (as_formula p.now)) }
    ensures cause { ComputesAll rows.now (as_formula p.now) → IfErr result (λ why. why ≡ NoMemory) }
{
    match p {
        Formula::Truth(b) => constant(alloc, *b, rows),
        Formula::Atom(a) => truths(alloc, a, rows),
        Formula::Not(p) => {
            let ps = verdicts(alloc, rows, p)?;
            front(alloc, Operator::Not, &ps, &ps, rows.len())
        }
        Formula::Logic(op, p, q) => {
            let ps = verdicts(alloc, rows, p)?;
            let qs = verdicts(alloc, rows, q)?;
            front(alloc, Operator::Logic(*op), &ps, &qs, rows.len())
        }
        Formula::Window(op, i, p) => {
            let ps = verdicts(alloc, rows, p)?;
            front(alloc, Operator::Window(*op, *i), &ps, &ps, rows.len())
        }
        Formula::Between(op, i, p, q) => {
            let ps = verdicts(alloc, rows, p)?;
            let qs = verdicts(alloc, rows, q)?;
            front(alloc, Operator::Between(*op, *i), &ps, &qs, rows.len())
        }
    }
}

/// Returns the truth of a formula at a time, if the rows decide it.
pub fn meaning(
    alloc: Global,
    rows: &[List<i64>],
    p: &Formula,
    t: usize,
) -> Result<Option<bool>, Fault>
    ensures meaning { IfOk result (λ o. IfSome o (λ v. v ≡ sat rows.now (as_formula p.now) t)) }
    ensures known { IfOk result (λ o. o ≡ slice_get (verdicts_of rows.now (as_formula p.now)) t) }
    ensures in_time { t + wpd (as_formula p.now) < length rows.now →
        IfOk result (λ o. o ≡ Some (sat rows.now (as_formula p.now) t)) }
    ensures cause { ComputesAll rows.now (as_formula p.now) → IfErr result (λ why. why ≡ NoMemory) }
{
    let vs = verdicts(alloc, rows, p)?;
    let decided = at(&vs, t);
    Ok(decided)
}

/// Returns the known verdict at a time.
fn at(vs: &List<bool>, t: usize) -> Option<bool>
    ensures { result ≡ slice_get vs.now t }
{
    known(vs.as_slice(), t)
}

/// Returns one truth for each row.
fn constant(alloc: Global, b: bool, rows: &[List<i64>]) -> Result<List<bool>, Fault>
    ensures known { IfOk result (λ vs. vs ≡ verdicts_of rows.now (truth_formula b)) }
    ensures cause { IfErr result (λ why. why ≡ NoMemory) }
{
    let mut known = List::new(alloc);
    for _ in rows {
        known.push(b)?;
    }
    Ok(known)
}

/// Returns the truth of an atom on each row.
fn truths(alloc: Global, a: &Atom, rows: &[List<i64>]) -> Result<List<bool>, Fault>
    ensures known { IfOk result (λ vs. vs ≡ map (holds_on (as_atom a.now)) rows.now) }
    ensures cause { All (λ row. ComputesAtom row (as_atom a.now)) rows.now →
        IfErr result (λ why. why ≡ NoMemory) }
{
    let mut known = List::new(alloc);
    for row in rows {
        let truth = holds(a, row.as_slice()).ok_or(Fault::Number)?;
        known.push(truth)?;
    }
    Ok(known)
}

/// Returns the values of an operator over known verdicts of its operands, up to the first time at
/// which it is unknown.
fn front(
    alloc: Global,
    op: Operator,
    ps: &List<bool>,
    qs: &List<bool>,
    n: usize,
) -> Result<List<bool>, Fault>
    ensures known { IfOk result
        (λ vs. vs ≡ known_front (k_operator op (slice_get ps.now) (slice_get qs.now)) n) }
    ensures cause { IfErr result (λ why. why ≡ NoMemory) }
{
    front_of(alloc, op, ps.as_slice(), qs.as_slice(), n)
}

/// Returns the values of an operator over known verdicts of its operands, over slices.
fn front_of(
    alloc: Global,
    op: Operator,
    ps: &[bool],
    qs: &[bool],
    n: usize,
) -> Result<List<bool>, Fault>
    ensures known { IfOk result
        (λ vs. vs ≡ known_front (k_operator op (slice_get ps.now) (slice_get qs.now)) n) }
    ensures cause { IfErr result (λ why. why ≡ NoMemory) }
{
    let mut known = List::new(alloc);
    for t in 0..n {
        match known_at(op, ps, qs, t) {
            Some(v) => known.push(v)?,
            None => return Ok(known),
        }
    }
    Ok(known)
}

/// Returns the known value of an operator at a time.
fn known_at(op: Operator, ps: &[bool], qs: &[bool], t: usize) -> Option<bool>
    requires room { t + 1 < 2 ^ 64 }
    ensures { result ≡ k_operator op (slice_get ps.now) (slice_get qs.now) t }
{
    match op {
        Operator::Not => not(known(ps, t)),
        Operator::Logic(op) => logic_at(op, known(ps, t), known(qs, t)),
        Operator::Window(op, i) => window_at(op, i, ps, t),
        Operator::Between(op, i) => between_at(op, i, ps, qs, t),
    }
}

/// Returns the value of an operator between two values.
fn logic_at(op: LogicOp, p: Option<bool>, q: Option<bool>) -> Option<bool>
    ensures { result ≡ k_logic op (λ s. p) (λ s. q) 0 }
{
    match op {
        LogicOp::And => and(p, q),
        LogicOp::Or => or(p, q),
        LogicOp::Implies => implies(p, q),
        LogicOp::Iff => and(implies(p, q), implies(q, p)),
    }
}

/// Returns the value of a temporal operator of one formula at a time.
fn window_at(op: WindowOp, i: Interval, ps: &[bool], t: usize) -> Option<bool>
    requires room { t + 1 < 2 ^ 64 }
    ensures { result ≡ k_window op i (slice_get ps.now) t }
{
    match op {
        WindowOp::F => finally(i, ps, t),
        WindowOp::G => globally(i, ps, t),
        WindowOp::O => once(i, ps, t),
        WindowOp::H => historically(i, ps, t),
    }
}

/// Returns the value of a temporal operator between two formulas at a time; `a R b` is `!(!a U
/// !b)`.
fn between_at(op: BetweenOp, i: Interval, ps: &[bool], qs: &[bool], t: usize) -> Option<bool>
    requires room { t + 1 < 2 ^ 64 }
    ensures { result ≡ k_between op i (slice_get ps.now) (slice_get qs.now) t }
{
    match op {
        BetweenOp::U => until(false, i, ps, qs, t),
        BetweenOp::R => not(until(true, i, ps, qs, t)),
        BetweenOp::S => since(i, ps, qs, t),
    }
}
