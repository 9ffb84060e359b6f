//! The forest: vertices in one list, each once, after its operands.

ghost use Rattle.std.specs.Prelude.{◌≡◌, ◌<◌, [], length, slice_get, Some, OnOk, IfOk};
ghost use Rattle.core_graph.specs.Vertices.{OperandsAreBelow, Grows, Has, IsAdded, IsForest, operands_of, vertex_tree, trees};

use crate::keyed::Keyed;
use crate::vertex::Vertex;
use indexmap::IndexSet;
use std::alloc::{AllocError, Global};
use std::marker::Model;

/// Vertices that share their operands, which contracts see as their list.
#[derive(Drop)]
pub struct Forest {
    vertices: IndexSet<Vertex, Keyed>,
}

impl Model for Forest {
    ghost use Rattle.std.specs.Prelude.{List};
    ghost use Rattle.core_graph.specs.declared.vertex.Vertex.{Vertex};

    ghost Value = { List Vertex };

    ghost view = { λ forest. forest.vertices.keys };
}

impl Forest {
    /// Returns a forest without vertices, which finds them by hashes of this key.
    pub fn new(alloc: Global, key: Keyed) -> Self
        ensures { result ≡ [] }
    {
        Forest {
            vertices: IndexSet::with_hasher(alloc, key),
        }
    }

    /// Returns the number of vertices.
    pub fn len(&self) -> usize
        ensures { result ≡ length self.now }
    {
        self.vertices.len()
    }

    /// Returns vertex `n`, counted from 0.
    pub fn get(&self, n: usize) -> Vertex
        requires { n < length self.now }
        ensures { slice_get self.now n ≡ Some result }
    {
        self.vertices.as_slice()[n]
    }

    /// Returns the number of a vertex, and appends the vertex if it is new.
    pub fn share(&mut self, vertex: Vertex) -> Result<usize, AllocError>
        requires forest { IsForest self.old }
        requires below { OperandsAreBelow (length self.old) (operands_of vertex) }
        ensures grows { OnOk result (Grows self.old self.new) }
        ensures has { IfOk result (λ n. Has self.new n (vertex_tree (trees self.old) vertex)) }
    {
        self.insert(vertex)
    }

    /// Returns the number of a vertex, which becomes the last one if it is new.
    fn insert(&mut self, vertex: Vertex) -> Result<usize, AllocError>
        ensures index { IfOk result (λ n. slice_get self.new n ≡ Some vertex) }
        ensures added { OnOk result (IsAdded self.old self.new vertex) }
    {
        let (number, _added) = self.vertices.insert_full(vertex)?;
        Ok(number)
    }
}
