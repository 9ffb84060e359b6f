//! The core graph of a specification that is unfolded.

ghost use Rattle.std.specs.Prelude.{◌≡◌, ◌<◌, Err, length, All, OnOk, IfOk, ℕ, List as Seq};
ghost use Rattle.mltl_base.specs.Subformulas.{IsGraphOf, IsTensed};
ghost use Rattle.c2po_ast.specs.Nodes.{AreSound, trees};
ghost use Rattle.c2po_ast.specs.Outputs.{NamesFormulas, asked, asked_in};
ghost use Rattle.core_graph.specs.Limits.{AreFew, AreMany};
ghost use Rattle.c2po_ast.specs.declared.nodes.Plain.{Plain as Node};
ghost use Rattle.core_graph.specs.Vertices.{IsForest};
ghost use Rattle.core_graph.specs.Reading.{AreRead};
ghost use Rattle.core_graph.specs.Listings.{NamesNodes, asked_of_nodes};

use crate::forest::Forest;
use crate::keyed::Keyed;
use crate::listing::list;
use crate::node_vertices::read;
use crate::ops::{bz_ops, ft_ops, numbered_outs, pt_ops};
use c2po_ast::{Expanded, Plain, PlainOut};
use mltl_base::{Columns, Graph, Part};
use std::alloc::{AllocError, Global};
use thiserror::Error;

/// A fault that leaves a specification without a core graph.
#[derive(Clone, Copy, Debug, Error)]
pub enum GraphFault {
    /// A list would have more instructions than the limit.
    #[error("too many instructions")]
    TooManyNodes,
    #[error("out of memory")]
    Memory,
}

impl From<AllocError> for GraphFault {
    ghost use Rattle.core_graph.specs.declared.graph.GraphFault.TheVariants.{Memory};

    ghost from_gives = { λ _ fault. fault ≡ Memory };

    fn from(_refused: AllocError) -> GraphFault {
        GraphFault::Memory
    }
}

/// Returns the instructions and the outputs of a specification, over the columns of its signals. No output mixes tenses.
///
/// Fails with `TooManyNodes` exactly if one of the three lists would have more than `MAX_INSTRUCTIONS` members. The time
/// is linear in the nodes. Formulas may be as deep as there are nodes.
pub fn to_core(alloc: Global, spec: &Expanded, columns: &Columns) -> Result<Graph, GraphFault>
    requires nodes { AreSound (length columns.now.of_signal) spec.now.nodes }
    requires outs { All (NamesFormulas (trees spec.now.nodes)) spec.now.outs }
    requires tensed { All IsTensed (asked spec.now) }
    ensures graph { IfOk result
        (λ graph. IsGraphOf (asked_in columns.now.of_signal spec.now) graph) }
    ensures few { OnOk result (AreFew (asked_in columns.now.of_signal spec.now)) }
    ensures too_many { result ≡ Err GraphFault.TooManyNodes
        → AreMany (asked_in columns.now.of_signal spec.now) }
{
    let nodes = spec.nodes.as_slice();
    let outs = spec.outs.as_slice();
    graph_of(alloc, nodes, outs, columns.of_signal.as_slice())
}

/// Returns the core graph of outputs over nodes and columns, as `to_core` does.
fn graph_of(
    alloc: Global,
    nodes: &[Plain],
    outs: &[PlainOut],
    columns: &[u32],
) -> Result<Graph, GraphFault>
    requires nodes { AreSound (length columns.now) nodes.now }
    requires outs { All (NamesFormulas (trees nodes.now)) outs.now }
    ensures graph { IfOk result
        (λ graph. IsGraphOf (asked_of_nodes columns.now nodes.now outs.now) graph) }
    ensures few { OnOk result (AreFew (asked_of_nodes columns.now nodes.now outs.now)) }
    ensures too_many { result ≡ Err GraphFault.TooManyNodes
        → AreMany (asked_of_nodes columns.now nodes.now outs.now) }
{
    let mut forest = Forest::new(alloc, Keyed::by(nodes));
    let ids = read(alloc, &mut forest, nodes, columns)?;
    graph_in(alloc, &forest, outs, &ids)
}

/// Returns the core graph of outputs whose nodes are in a forest. The vertex of node `n` is `ids[n]`.
fn graph_in(
    alloc: Global,
    forest: &Forest,
    outs: &[PlainOut],
    ids: &[usize],
) -> Result<Graph, GraphFault>
    requires forest { IsForest forest.now }
    requires there { All (λ n. n < length forest.now) ids.now }
    requires named { All (NamesNodes (length ids.now)) outs.now }
    ensures graph { (columns : Seq ℕ) (nodes : Seq Node) →
        AreRead columns forest.now nodes ids.now → All (NamesFormulas (trees nodes)) outs.now →
        IfOk result (λ graph. IsGraphOf (asked_of_nodes columns nodes outs.now) graph) }
    ensures few { (columns : Seq ℕ) (nodes : Seq Node) →
        AreRead columns forest.now nodes ids.now → All (NamesFormulas (trees nodes)) outs.now →
        OnOk result (AreFew (asked_of_nodes columns nodes outs.now)) }
    ensures too_many { (columns : Seq ℕ) (nodes : Seq Node) →
        AreRead columns forest.now nodes ids.now → All (NamesFormulas (trees nodes)) outs.now →
        result ≡ Err GraphFault.TooManyNodes → AreMany (asked_of_nodes columns nodes outs.now) }
{
    let bz = list(alloc, forest, outs, ids, Part::Bz)?;
    let ft = list(alloc, forest, outs, ids, Part::Ft)?;
    let pt = list(alloc, forest, outs, ids, Part::Pt)?;
    let bz_list = bz_ops(alloc, forest, &bz)?;
    let ft_list = ft_ops(alloc, forest, &bz, &ft)?;
    let pt_list = pt_ops(alloc, forest, &bz, &pt)?;
    let reports = numbered_outs(alloc, outs, ids, &ft.places, &pt.places)?;
    Ok(Graph {
        bz: bz_list,
        ft: ft_list,
        pt: pt_list,
        outs: reports,
    })
}
