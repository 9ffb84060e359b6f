//! Nodes that restart.

ghost use Rattle.std.specs.Prelude.{◌≡◌, ℕ, ◌<◌, length};
ghost use Rattle.pt_boxes.specs.Boxes.{no_boxes};
ghost use Rattle.pt_boxes.specs.Nodes.{node_at};

use crate::boxes::Boxes;
use crate::rows::Node;

/// Drops all boxes of nodes. Each node keeps its part of the slab.
pub fn restart(nodes: &mut [Node])
    ensures many { length nodes.new ≡ length nodes.old }
    ensures seats { (i : ℕ) → (node_at nodes.new i).seat ≡ (node_at nodes.old i).seat }
    ensures emptied { (i : ℕ) → i < length nodes.old → (node_at nodes.new i).boxes ≡ no_boxes }
{
    for i in 0..nodes.len() {
        nodes[i] = Node {
            boxes: Boxes::none(),
            truth: false,
            seat: nodes[i].seat,
        };
    }
}
