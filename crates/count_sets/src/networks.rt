//! Networks of counting quantifiers.

ghost use Rattle.std.specs.Prelude.{◌≡◌, ℕ, ◌+◌, ◌*◌, ◌^◌, ◌<◌, ◌≤◌, min, List as Seq, Bool, Some, length, IfOk};
ghost use Rattle.mltl_base.specs.declared.limits.TheConstants.{MAX_WEIGHT};
ghost use Rattle.count_sets.specs.Counting.{counting, compares, true_count};
ghost use Rattle.count_sets.specs.Gates.{last_formula, last_truth, IsNetwork, IsShared};

use crate::gate::Gate;
use crate::table::{Plan, Table, add};
use mltl_base::{CountOp, List};
use std::alloc::{AllocError, Global};

/// Returns the gates of a counting quantifier over `n` bodies with the number `m`, the result last.
///
/// Every place among the bodies counts, even if two of them are the same formula. The time is
/// linear in the gates. The only error is out of memory.
pub fn network(alloc: Global, op: CountOp, n: u32, m: u32) -> Result<List<Gate>, AllocError>
    requires some { 1 ≤ n }
    requires weight { 2 * n * (min m n + 1) + 4 ≤ MAX_WEIGHT }
    // For any truths of the bodies, the last gate compares the number of true bodies to m.
    ensures counts { IfOk result (λ gates. (bodies : Seq Bool) → length bodies ≡ n
        → last_truth bodies gates ≡ Some (compares op m (true_count bodies))) }
    ensures unfolds { IfOk result (λ gates. last_formula gates ≡ Some (counting op n m)) }
    // Operands are earlier gates, bodies are below n.
    ensures formed { IfOk result (λ gates. IsNetwork n gates) }
    // Equal gates are one gate, and so are equal sub-networks.
    ensures shared { IfOk result (λ gates. IsShared gates) }
    ensures size { IfOk result (λ gates. length gates ≤ n + 2 * n * (min m n + 1) + 4) }
{
    match op {
        CountOp::Exactly => exactly(alloc, n, m),
        CountOp::AtLeast => at_least(alloc, n, m),
        CountOp::AtMost => at_most(alloc, n, m),
    }
}

/// Returns the gates of "at least `m`": only `true` if `m` is 0, only `false` if there are fewer
/// bodies.
fn at_least(alloc: Global, n: u32, m: u32) -> Result<List<Gate>, AllocError>
    requires some { 1 ≤ n }
    requires weight { 2 * n * (min m n + 1) + 4 ≤ MAX_WEIGHT }
    ensures formula { IfOk result (λ gates.
        last_formula gates ≡ Some (counting CountOp.AtLeast n m)) }
    ensures formed { IfOk result (λ gates. IsNetwork n gates) }
    ensures shared { IfOk result (λ gates. IsShared gates) }
    ensures size { IfOk result (λ gates. length gates ≤ n + 2 * n * (min m n + 1) + 4) }
{
    if m == 0 || m > n {
        let mut gates = List::new(alloc);
        add(&mut gates, Gate::Truth(m == 0))?;
        return Ok(gates);
    }
    let plan = Plan {
        bodies: n,
        lowest: m,
        highest: m,
    };
    let Table { gates, .. } = Table::of(alloc, plan)?;
    Ok(gates)
}

/// Returns the gates of "at most `m`": `!false` if there are no more bodies.
fn at_most(alloc: Global, n: u32, m: u32) -> Result<List<Gate>, AllocError>
    requires some { 1 ≤ n }
    requires weight { 2 * n * (min m n + 1) + 4 ≤ MAX_WEIGHT }
    ensures formula { IfOk result (λ gates.
        last_formula gates ≡ Some (counting CountOp.AtMost n m)) }
    ensures formed { IfOk result (λ gates. IsNetwork n gates) }
    ensures shared { IfOk result (λ gates. IsShared gates) }
    ensures size { IfOk result (λ gates. length gates ≤ n + 2 * n * (min m n + 1) + 4) }
{
    if m >= n {
        let mut gates = List::new(alloc);
        let no = add(&mut gates, Gate::Truth(false))?;
        add(&mut gates, Gate::Not(no))?;
        return Ok(gates);
    }
    let plan = Plan {
        bodies: n,
        lowest: m + 1,
        highest: m + 1,
    };
    let Table { mut gates, row } = Table::of(alloc, plan)?;
    add(&mut gates, Gate::Not(row[m as usize + 1]))?;
    Ok(gates)
}

/// Returns the gates of "exactly `m`".
fn exactly(alloc: Global, n: u32, m: u32) -> Result<List<Gate>, AllocError>
    requires some { 1 ≤ n }
    requires weight { 2 * n * (min m n + 1) + 4 ≤ MAX_WEIGHT }
    ensures formula { IfOk result (λ gates.
        last_formula gates ≡ Some (counting CountOp.Exactly n m)) }
    ensures formed { IfOk result (λ gates. IsNetwork n gates) }
    ensures shared { IfOk result (λ gates. IsShared gates) }
    ensures size { IfOk result (λ gates. length gates ≤ n + 2 * n * (min m n + 1) + 4) }
{
    if m > n {
        let mut gates = List::new(alloc);
        let no = add(&mut gates, Gate::Truth(false))?;
        let within = add(&mut gates, Gate::Not(no))?;
        add(&mut gates, Gate::Both(no, within))?;
        return Ok(gates);
    }
    let plan = Plan {
        bodies: n,
        lowest: m,
        highest: m + 1,
    };
    let Table { mut gates, row } = Table::of(alloc, plan)?;
    let within = add(&mut gates, Gate::Not(row[m as usize + 1]))?;
    add(&mut gates, Gate::Both(row[m as usize], within))?;
    Ok(gates)
}
