//! Counting quantifiers: their weights and facts.

ghost use Rattle.std.specs.Prelude.{◌≡◌, ◌≤◌, ◌<◌, List as Seq, Some, length, IfOk, IfErr};
ghost use Rattle.mltl_base.specs.Formula.{Formula};
ghost use Rattle.count_sets.specs.Counting.{counting};
ghost use Rattle.c2po_types.specs.Facts.{Tells};
ghost use Rattle.c2po_ast.specs.Nodes.{formula};
ghost use Rattle.c2po_types.specs.Summaries.{asks_bodies, gathered};
ghost use Rattle.c2po_types.specs.Values.{counted_formula};
ghost use Rattle.c2po_types.specs.Weights.{counting_weight};

use crate::UnfoldFault;
use crate::fact::Fact;
use crate::room::Room;
use mltl_base::CountOp;

/// Returns the weight of a counting quantifier over `n` bodies without its bodies.
pub(crate) fn gates_weight(n: usize, number: u64, room: Room) -> Result<u32, UnfoldFault>
    ensures weight { IfOk result (λ w. w ≡ counting_weight n number) }
    ensures light { IfOk result (λ w. w ≤ room) }
    ensures heavy { IfErr result (λ why. room < counting_weight n number) }
{
    let most = room.get();
    if n > most as usize {
        return Err(UnfoldFault::Heavy);
    }
    let bodies = n as u128;
    let weight = 2 * bodies * (u128::from(number).min(bodies) + 1) + 4;
    if weight <= u128::from(most) {
        Ok(weight as u32)
    } else {
        Err(UnfoldFault::Heavy)
    }
}

/// Returns `true` if the formula of a counting quantifier over `n` bodies contains bodies, and
/// `false` if it is a Boolean.
fn has_bodies(op: CountOp, n: usize, number: u64) -> bool
    ensures { result ≡ asks_bodies op n number }
{
    let n = n as u64;
    match op {
        CountOp::Exactly => number <= n,
        CountOp::AtLeast => 1 <= number && number <= n,
        CountOp::AtMost => number < n,
    }
}

/// Returns the fact of a counting quantifier over `n` bodies, from the fact of all bodies together.
pub(crate) fn counted_fact(op: CountOp, n: usize, number: u64, bodies: Fact) -> Fact
    ensures { (ps : Seq Formula) → length ps ≡ n → Tells bodies (Some (formula (gathered ps)))
        → Tells result (Some (formula (counted_formula ps (counting op n number)))) }
{
    if has_bodies(op, n, number) {
        bodies
    } else {
        Fact::truth()
    }
}
