//! Summaries of values.

ghost use Rattle.std.specs.Prelude.{◌≡◌, ◌+◌, ◌<◌, ◌≤◌, ◌^◌, ℕ, [], ◌∷◌, Some, IfOk, IfErr};
ghost use Rattle.mltl_base.specs.declared.operators.CountOp.{CountOp};
ghost use Rattle.mltl_base.specs.declared.operators.LogicOp.{LogicOp};
ghost use Rattle.c2po_types.specs.Facts.{Tells};
ghost use Rattle.c2po_types.specs.declared.unfold_fault.UnfoldFault.TheVariants.{Heavy};
ghost use Rattle.c2po_types.specs.Environment.{signal_value};
ghost use Rattle.c2po_types.specs.Operators.{binary_value, unary_value};
ghost use Rattle.c2po_types.specs.Summaries.{IsSummary};
ghost use Rattle.c2po_types.specs.Values.{Leaf, Value, connected_all, counted, leaf, leaf_tree, tree_in};
ghost use Rattle.c2po_types.specs.Weights.{leaf_weight};

use crate::UnfoldFault;
use crate::fact::Fact;
use crate::operators::{BinaryOp, UnaryOp};
use crate::room::Room;

/// The summary of a value: its weight and its fact.
#[derive(Clone, Copy)]
pub struct Summary {
    pub weight: u32,
    pub fact: Fact,
}

impl Summary {
    /// Returns the summary of a number or a Boolean, which weighs 1.
    pub(crate) fn token(fact: Fact, room: Room) -> Result<Summary, UnfoldFault>
        ensures light { IfOk result (λ s. s.weight ≤ room) }
        ensures holds { (l : Leaf) → leaf_weight l ≡ 1 → Tells fact (Some (leaf_tree l))
            → IfOk result (λ s. IsSummary s (leaf l)) }
        ensures heavy { IfErr result (λ why. why ≡ Heavy → room < 1) }
    {
        room.less(1)?;
        Ok(Summary { weight: 1, fact })
    }

    /// Returns the summary of a quantifier over the empty set, which is false and weighs nothing.
    pub(crate) fn none() -> Summary
        ensures weight { result.weight ≡ 0 }
        ensures joined { (op : LogicOp) → IsSummary result (connected_all op []) }
        ensures counted { (op : CountOp) (number : ℕ) → IsSummary result (counted op number []) }
    {
        let fact = Fact::truth();
        Summary { weight: 0, fact }
    }

    /// Returns the summary of a quantifier over one member, from the summary of its body.
    pub(crate) fn as_formula(&self) -> Summary
        ensures weight { result.weight ≡ self.now.weight }
        ensures holds { (op : LogicOp) (v : Value) → IsSummary self.now v
            → IsSummary result (connected_all op (v ∷ [])) }
    {
        let fact = Fact::formula(&self.fact);
        Summary {
            weight: self.weight,
            fact,
        }
    }

    /// Returns the summary of an operator over one operand.
    pub(crate) fn over_one(op: UnaryOp, a: &Summary) -> Summary
        requires { a.now.weight + 1 < 2 ^ 32 }
        ensures weight { result.weight ≡ a.now.weight + 1 }
        ensures holds { (v : Value) → IsSummary a.now v → IsSummary result (unary_value op v) }
    {
        let fact = unary_fact(op, &a.fact);
        Summary {
            weight: a.weight + 1,
            fact,
        }
    }

    /// Returns the summary of an operator over two operands.
    pub(crate) fn over_two(op: BinaryOp, a: &Summary, b: &Summary) -> Summary
        requires { a.now.weight + b.now.weight + 1 < 2 ^ 32 }
        ensures weight { result.weight ≡ a.now.weight + b.now.weight + 1 }
        ensures holds { (v w : Value) → IsSummary a.now v → IsSummary b.now w
            → IsSummary result (binary_value op v w) }
    {
        let fact = binary_fact(op, &a.fact, &b.fact);
        Summary {
            weight: a.weight + b.weight + 1,
            fact,
        }
    }
}

/// Returns the fact of an operator over one operand.
fn unary_fact(op: UnaryOp, a: &Fact) -> Fact
    ensures { (v : Value) → Tells a.now (tree_in v)
        → Tells result (tree_in (unary_value op v)) }
{
    match op {
        UnaryOp::Minus => Fact::negative(a),
        UnaryOp::Not => Fact::negation(a),
        UnaryOp::Window(op, _, _) => Fact::windowed(op, a),
    }
}

/// Returns the fact of an operator over two operands.
fn binary_fact(op: BinaryOp, a: &Fact, b: &Fact) -> Fact
    ensures { (v w : Value) → Tells a.now (tree_in v) → Tells b.now (tree_in w)
        → Tells result (tree_in (binary_value op v w)) }
{
    match op {
        BinaryOp::Arith(op) => Fact::computed(op, a, b),
        BinaryOp::Compare(_) => Fact::compared(a, b),
        BinaryOp::Logic(_) => Fact::joined(a, b),
        BinaryOp::Between(op, _, _) => Fact::between(op, a, b),
    }
}

/// Returns the fact of a Boolean or an integer signal, whatever its number.
pub(crate) fn signal_fact(truth: bool) -> Fact
    ensures { (n : ℕ) → Tells result (tree_in (signal_value truth n)) }
{
    if truth { Fact::truth() } else { Fact::signal() }
}
