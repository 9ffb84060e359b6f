//! The vertices of the plain nodes: one pass over the nodes, operands first.

ghost use Rattle.std.specs.Prelude.{◌≡◌, [], List, length, OnOk, IfOk};
ghost use Rattle.c2po_ast.specs.declared.nodes.Plain.{Plain as Node};
ghost use Rattle.c2po_ast.specs.Nodes.{AreSound, IsFormed, tree_of, trees};
ghost use Rattle.core_graph.specs.Vertices.{Grows};
ghost use Rattle.core_graph.specs.Reading.{AreRead, IsNext, Represents};

use crate::forest::Forest;
use crate::vertex::Vertex;
use c2po_ast::Plain;
use std::alloc::{AllocError, Global};

/// Adds all nodes to the forest, and returns the number of each node's vertex, in order.
pub fn read(
    alloc: Global,
    forest: &mut Forest,
    nodes: &[Plain],
    columns: &[u32],
) -> Result<Vec<usize>, AllocError>
    requires empty { forest.old ≡ [] }
    requires sound { AreSound (length columns.now) nodes.now }
    ensures read { IfOk result (λ ids. AreRead columns.now forest.new nodes.now ids.items) }
{
    let mut ids = Vec::new(alloc);
    for node in nodes {
        let id = read_node(forest, &ids, *node, columns)?;
        ids.push(id)?;
    }
    Ok(ids)
}

/// Adds a node to the forest, and returns its vertex. The vertex of an earlier node `n` is `ids[n]`.
fn read_node(
    forest: &mut Forest,
    ids: &[usize],
    node: Plain,
    columns: &[u32],
) -> Result<usize, AllocError>
    requires { IsNext columns.now forest.old ids.now node }
    ensures grows { OnOk result (Grows forest.old forest.new) }
    ensures stands { (before : List Node) → AreRead columns.now forest.old before ids.now
        → IsFormed (length columns.now) (trees before) node
        → IfOk result (λ id.
        Represents columns.now forest.new id (tree_of (trees before) node)) }
{
    match node {
        Plain::Truth(value) => forest.truth(value),
        Plain::Flag(signal) => {
            let atom = forest.share(Vertex::IsTrue(columns[signal as usize]))?;
            forest.share(Vertex::Load(atom))
        }
        Plain::Number(number) => forest.share(Vertex::Const(number)),
        Plain::Signal(signal) => forest.share(Vertex::Column(columns[signal as usize])),
        Plain::Minus(a) => forest.share(Vertex::Neg(ids[a as usize])),
        Plain::Arith(op, a, b) => forest.share(Vertex::Arith(op, ids[a as usize], ids[b as usize])),
        Plain::Compare(op, a, b) => forest.comparison(op, ids[a as usize], ids[b as usize]),
        Plain::Not(a) => forest.negation(ids[a as usize]),
        Plain::Logic(op, a, b) => forest.connective(op, ids[a as usize], ids[b as usize]),
        Plain::Window(op, interval, a) => forest.window(op, interval, ids[a as usize]),
        Plain::Between(op, interval, a, b) => {
            forest.between(op, interval, ids[a as usize], ids[b as usize])
        }
    }
}
