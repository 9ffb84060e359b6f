//! A list of nodes.

ghost use Rattle.std.specs.Prelude.{◌≡◌, ◌∷◌, ◌++◌, [], ◌<◌, ◌^◌, length, IfOk, OnErr, OnOk};

use crate::Plain;
use mltl_base::List;
use std::alloc::{AllocError, Global};
use std::marker::Model;

/// A list of fewer than 2^32 nodes, which contracts see as a list.
#[derive(Drop)]
pub struct NodeList {
    list: List<Plain>,
}

impl Model for NodeList {
    ghost use Rattle.std.specs.Prelude.{List as Members, length, ◌<◌, ◌^◌};
    ghost use Rattle.c2po_ast.specs.declared.nodes.Plain.{Plain as Node};

    ghost Value = { Members Node };

    ghost view = { λ nodes. nodes.list };

    ghost invariant = { λ nodes. length nodes.list < 2 ^ 32 };
}

impl NodeList {
    /// Makes an empty list of nodes. Doesn't allocate.
    pub fn new(alloc: Global) -> NodeList
        ensures { result ≡ [] }
    {
        NodeList {
            list: List::new(alloc),
        }
    }

    /// Appends a node, and returns its place. Fails as if out of memory at 2^32 nodes.
    pub fn push(&mut self, node: Plain) -> Result<u32, AllocError>
        ensures pushed { OnOk result (self.new ≡ self.old ++ node ∷ []) }
        ensures place { IfOk result (λ n. n ≡ length self.old) }
        ensures kept { OnErr result (self.new ≡ self.old) }
    {
        let place = match u32::try_from(self.list.len()) {
            Ok(place) if place < u32::MAX => place,
            _ => return Err(AllocError),
        };
        self.list.push(node)?;
        Ok(place)
    }

    /// Returns the nodes in order.
    pub fn as_slice(&self) -> &[Plain]
        ensures { result.now ≡ self.now }
    {
        self.list.as_slice()
    }

    /// Returns the nodes, which are fewer than 2^32.
    pub fn into_list(self) -> List<Plain>
        ensures nodes { result ≡ self }
        ensures few { length self < 2 ^ 32 }
    {
        self.list
    }
}
