//! Nodes of operators over the nodes of their operands.

ghost use Rattle.std.specs.Prelude.{◌≡◌, ℕ, IfOk, OnOk};
ghost use Rattle.c2po_ast.specs.Nodes.{Has, IsFormed, tree_of, trees};
ghost use Rattle.c2po_types.specs.Values.{interval};
ghost use Rattle.set_expand.specs.Names.{SignalsBelow};
ghost use Rattle.set_expand.specs.Nodes.{IsMore, signal_node};

use crate::names::Names;
use c2po_ast::{NodeList, Plain};
use mltl_base::Interval;
use mltl_base::limits::MAX_BOUND;
use std::alloc::AllocError;

/// The node of an unfolded value.
#[derive(Clone, Copy)]
pub enum Made {
    /// The node of an integer.
    Number(u32),
    /// The node of a formula.
    Formula(u32),
    /// A struct's value or a set, which has no node.
    Whole,
}

/// Returns the node of a signal, Boolean or integer.
pub(crate) fn signal_of(truth: bool, number: u32) -> Plain
    ensures { result ≡ signal_node truth number }
{
    if truth {
        Plain::Flag(number)
    } else {
        Plain::Signal(number)
    }
}

/// Returns the interval with these bounds, or the nearest interval if it is out of bounds.
pub(crate) fn interval_of(low: u64, high: u64) -> Interval
    ensures { result ≡ interval low high }
{
    let hi = high.min(u64::from(MAX_BOUND)) as u32;
    let lo = low.min(u64::from(hi)) as u32;
    Interval { lo, hi }
}

impl<'a> Names<'a> {
    /// Appends a node whose operands are among the nodes, and returns its index.
    pub(crate) fn place(&self, nodes: &mut NodeList, node: Plain) -> Result<u32, AllocError>
        requires formed { (signals : ℕ) → SignalsBelow signals self.now
            → IsFormed signals (trees nodes.old) node }
        ensures more { OnOk result (IsMore self.now nodes.old nodes.new) }
        ensures has { IfOk result (λ n. Has nodes.new n (tree_of (trees nodes.old) node)) }
    {
        let place = nodes.push(node)?;
        Ok(place)
    }
}
