//! The vertices that become the instructions of one part of a program.

ghost use Rattle.std.specs.Prelude.{◌≡◌, ℕ, ◌<◌, ◌≤◌, if◌then◌else◌, Some, Err, [], ◌∷◌, ◌++◌, length, filter, slice_get, slice_index, All, OnOk, IfOk};
ghost use Rattle.mltl_base.specs.declared.limits.TheConstants.{MAX_INSTRUCTIONS};
ghost use Rattle.core_graph.specs.Vertices.{IsForest, tree_at, trees};
ghost use Rattle.core_graph.specs.Listings.{AreOnce, IsListing, NamesNodes, asks, is_in, is_vertex_in, listed_trees, roots_by, roots_of};

use crate::forest::Forest;
use crate::graph::GraphFault;
use crate::vertex::Vertex;
use crate::walk::completion;
use c2po_ast::PlainOut;
use mltl_base::limits::MAX_INSTRUCTIONS;
use mltl_base::{Engine, Part};
use std::alloc::{AllocError, Global};

/// The vertices of a part in order, and for each vertex of the forest its place in that order.
#[derive(Drop)]
pub struct Listing {
    pub ids: Vec<usize>,
    pub places: Vec<u32>,
}

/// Returns true if a part is walked from the outputs of an engine.
fn asks(part: Part, engine: Engine) -> bool
    ensures { result ≡ asks part engine }
{
    match part {
        Part::Bz => true,
        Part::Ft => engine == Engine::Ft,
        Part::Pt => engine == Engine::Pt,
    }
}

/// Returns true if a vertex becomes an instruction of a part.
pub fn is_in(part: Part, vertex: Vertex) -> bool
    ensures { result ≡ is_vertex_in part vertex }
{
    match part {
        Part::Bz => !vertex.is_formula(),
        Part::Ft | Part::Pt => vertex.is_formula(),
    }
}

/// Returns the vertices that the walk of a part begins with: outputs in order, in a contract the left formula first.
fn roots(
    alloc: Global,
    outs: &[PlainOut],
    ids: &[usize],
    part: Part,
) -> Result<Vec<usize>, AllocError>
    requires named { All (NamesNodes (length ids.now)) outs.now }
    ensures { IfOk result (λ roots. roots.items ≡ roots_of part ids.now outs.now) }
{
    let mut roots = Vec::new(alloc);
    for out in outs {
        add_roots(&mut roots, out, ids, part)?;
    }
    Ok(roots)
}

/// Appends the vertices of an output, if its engine asks for the part.
fn add_roots(
    roots: &mut Vec<usize>,
    out: &PlainOut,
    ids: &[usize],
    part: Part,
) -> Result<(), AllocError>
    requires named { NamesNodes (length ids.now) out.now }
    ensures { OnOk result (roots.new.items ≡ roots.old.items ++ roots_by part ids.now out.now) }
{
    match out {
        PlainOut::Formula(engine, formula, _) => {
            if asks(part, *engine) {
                roots.push(ids[*formula as usize])?;
            }
        }
        PlainOut::Contract(engine, left, right, _) => {
            if asks(part, *engine) {
                roots.push(ids[*left as usize])?;
                roots.push(ids[*right as usize])?;
            }
        }
    }
    Ok(())
}

/// Returns the vertices of a part that outputs reach, in order of first completion.
///
/// Fails with `TooManyNodes` if they are more than `MAX_INSTRUCTIONS`.
pub fn list(
    alloc: Global,
    forest: &Forest,
    outs: &[PlainOut],
    ids: &[usize],
    part: Part,
) -> Result<Listing, GraphFault>
    requires forest { IsForest forest.now }
    requires there { All (λ n. n < length forest.now) ids.now }
    requires named { All (NamesNodes (length ids.now)) outs.now }
    ensures listing { IfOk result (λ listing. IsListing forest.now
        (listed_trees forest.now part ids.now outs.now) listing.ids.items listing.places.items) }
    ensures too_many { result ≡ Err GraphFault.TooManyNodes
        → MAX_INSTRUCTIONS < length (listed_trees forest.now part ids.now outs.now) }
{
    let roots = roots(alloc, outs, ids, part)?;
    let order = completion(alloc, forest, &roots)?;
    let listed = select(alloc, forest, &order, part)?;
    if listed.len() > MAX_INSTRUCTIONS as usize {
        return Err(GraphFault::TooManyNodes);
    }
    let places = places(alloc, &listed, forest.len())?;
    Ok(Listing {
        ids: listed,
        places,
    })
}

/// Returns the vertices that belong to a part, in their order.
fn select(
    alloc: Global,
    forest: &Forest,
    order: &[usize],
    part: Part,
) -> Result<Vec<usize>, AllocError>
    requires forest { IsForest forest.now }
    requires there { All (λ n. n < length forest.now) order.now }
    ensures { IfOk result
        (λ ids. ids.items ≡ filter (λ n. is_in part (tree_at (trees forest.now) n)) order.now) }
{
    let mut ids = Vec::new(alloc);
    for id in order {
        keep(&mut ids, forest, *id, part)?;
    }
    Ok(ids)
}

/// Appends a vertex if it belongs to the part.
fn keep(ids: &mut Vec<usize>, forest: &Forest, id: usize, part: Part) -> Result<(), AllocError>
    requires forest { IsForest forest.now }
    requires there { id < length forest.now }
    ensures { OnOk result (ids.new.items
        ≡ ids.old.items ++ (if is_in part (tree_at (trees forest.now) id) then id ∷ [] else [])) }
{
    if !is_in(part, forest.get(id)) {
        return Ok(());
    }
    ids.push(id)?;
    Ok(())
}

/// Returns for each of `count` vertices its index in `ids`, or 0.
fn places(alloc: Global, ids: &[usize], count: usize) -> Result<Vec<u32>, AllocError>
    requires there { All (λ n. n < count) ids.now }
    requires once { AreOnce ids.now }
    requires few { length ids.now ≤ MAX_INSTRUCTIONS }
    ensures count { IfOk result (λ places. length places.items ≡ count) }
    ensures places { IfOk result (λ places. (i n : ℕ)
        → slice_get ids.now i ≡ Some n → slice_index places.items n ≡ i) }
{
    let mut places = vec![in alloc; 0_u32; count]?;
    for (i, id) in ids.iter().enumerate() {
        places[*id] = i as u32;
    }
    Ok(places)
}
