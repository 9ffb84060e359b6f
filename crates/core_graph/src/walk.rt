//! A walk over a forest that completes each vertex once, operands first, from left to right.

ghost use Rattle.std.specs.Prelude.{◌≡◌, ℕ, ◌<◌, [], ◌∷◌, ◌++◌, List, length, All, MatchOption, OnOk, IfOk};
ghost use Rattle.core_graph.specs.Vertices.{OperandsAreBelow, IsForest, operands_of, tree_at, trees};
ghost use Rattle.core_graph.specs.Trees.{add_tree, completed};
ghost use Rattle.core_graph.specs.Walks.{AreDone, IsFirstIncomplete, IsStack, IsWalk, finish, trees_of, work};

use crate::forest::Forest;
use crate::vertex::Operands;
use std::alloc::{AllocError, Global};

/// A walk under way: the complete vertices in order, and a mark for each vertex of the forest.
#[derive(Drop)]
pub struct Walk {
    pub order: Vec<usize>,
    pub done: Vec<bool>,
}

/// Returns the vertices at and below the roots, in order of first completion.
pub fn completion(alloc: Global, forest: &Forest, roots: &[usize]) -> Result<Vec<usize>, AllocError>
    requires forest { IsForest forest.now }
    requires there { All (λ n. n < length forest.now) roots.now }
    ensures order { IfOk result
        (λ order. trees_of forest.now order.items ≡ completed (trees_of forest.now roots.now)) }
    ensures within { IfOk result (λ order. All (λ n. n < length forest.now) order.items) }
{
    let mut walk = Walk {
        order: Vec::new(alloc),
        done: vec![in alloc; false; forest.len()]?,
    };
    for root in roots {
        walk.visit(alloc, forest, *root)?;
    }
    Ok(walk.order)
}

/// Returns the first operand that isn't complete.
fn first_open(operands: Operands, done: &[bool]) -> Option<usize>
    requires { OperandsAreBelow (length done.now) operands }
    ensures { MatchOption result (AreDone done.now operands) (IsFirstIncomplete done.now operands) }
{
    match operands {
        Operands::Zero => None,
        Operands::One(a) => if done[a] { None } else { Some(a) },
        Operands::Two(a, b) => if !done[a] {
            Some(a)
        } else if !done[b] {
            Some(b)
        } else {
            None
        },
    }
}

impl Walk {
    /// Completes a root and each open vertex below it.
    fn visit(&mut self, alloc: Global, forest: &Forest, root: usize) -> Result<(), AllocError>
        requires forest { IsForest forest.now }
        requires walk { IsWalk forest.now self.old.order.items self.old.done.items }
        requires there { root < length forest.now }
        ensures walk { OnOk result (IsWalk forest.now self.new.order.items self.new.done.items) }
        ensures visited { OnOk result (trees_of forest.now self.new.order.items
            ≡ add_tree (tree_at (trees forest.now) root)
            (trees_of forest.now self.old.order.items)) }
    {
        if self.done[root] {
            return Ok(());
        }
        let mut stack = vec![in alloc; root; 1]?;
        while let Some(top) = stack.last().copied() {
            self.step(forest, &mut stack, top)?;
        }
        Ok(())
    }

    /// Visits an open operand of the latest vertex that waits, or completes that vertex if it has none.
    fn step(
        &mut self,
        forest: &Forest,
        stack: &mut Vec<usize>,
        top: usize,
    ) -> Result<(), AllocError>
        requires forest { IsForest forest.now }
        requires walk { IsWalk forest.now self.old.order.items self.old.done.items }
        requires stack { IsStack forest.now self.old.done.items stack.old.items }
        requires top { (below : List ℕ) × (stack.old.items ≡ below ++ top ∷ []) }
        ensures walk { OnOk result (IsWalk forest.now self.new.order.items self.new.done.items) }
        ensures stack { OnOk result (IsStack forest.now self.new.done.items stack.new.items) }
        ensures goal { OnOk result (
            finish (trees_of forest.now stack.new.items) (trees_of forest.now self.new.order.items)
            ≡ finish (trees_of forest.now stack.old.items)
            (trees_of forest.now self.old.order.items)) }
        ensures less { OnOk result
            (work self.new.done.items stack.new.items < work self.old.done.items stack.old.items) }
    {
        let vertex = forest.get(top);
        match first_open(vertex.operands(), &self.done) {
            Some(operand) => {
                stack.push(operand)?;
                Ok(())
            }
            None => {
                self.order.push(top)?;
                self.done[top] = true;
                stack.pop();
                Ok(())
            }
        }
    }
}
