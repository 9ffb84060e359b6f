//! Instructions and outputs from listed vertices.

ghost use Rattle.std.specs.Prelude.{◌≡◌, ℕ, ◌<◌, length, map, All, IfOk};
ghost use Rattle.core_graph.specs.Vertices.{OperandsAreBelow, IsForest, operands_of};
ghost use Rattle.core_graph.specs.Listings.{NamesNodes, arith_op, bz_op_of, ft_op_of, vertex_at, placed_out, places_for, pt_op_of};

use crate::forest::Forest;
use crate::listing::Listing;
use crate::vertex::Vertex;
use c2po_ast::PlainOut;
use mltl_base::{ArithOp, BzOp, Engine, FtOp, List, Out, PtOp};
use std::alloc::{AllocError, Global};

/// Returns the instructions of the Booleanizer.
pub fn bz_ops(alloc: Global, forest: &Forest, bz: &Listing) -> Result<List<BzOp>, AllocError>
    requires forest { IsForest forest.now }
    requires placed { length bz.now.places.items ≡ length forest.now }
    requires there { All (λ n. n < length forest.now) bz.now.ids.items }
    ensures { IfOk result (λ ops. ops
        ≡ map (λ n. bz_op_of bz.now.places.items (vertex_at forest.now n)) bz.now.ids.items) }
{
    let mut ops = List::new(alloc);
    for id in &bz.ids {
        ops.push(bz_op(forest.get(*id), &bz.places))?;
    }
    Ok(ops)
}

/// Returns the instructions of the future-time engine, which loads the Booleanizer's truths.
pub fn ft_ops(
    alloc: Global,
    forest: &Forest,
    bz: &Listing,
    ft: &Listing,
) -> Result<List<FtOp>, AllocError>
    requires forest { IsForest forest.now }
    requires loaded { length bz.now.places.items ≡ length forest.now }
    requires placed { length ft.now.places.items ≡ length forest.now }
    requires there { All (λ n. n < length forest.now) ft.now.ids.items }
    ensures { IfOk result (λ ops. ops
        ≡ map (λ n. ft_op_of bz.now.places.items ft.now.places.items (vertex_at forest.now n))
        ft.now.ids.items) }
{
    let mut ops = List::new(alloc);
    for id in &ft.ids {
        ops.push(ft_op(forest.get(*id), &bz.places, &ft.places))?;
    }
    Ok(ops)
}

/// Returns the instructions of the past-time engine, which loads the Booleanizer's truths.
pub fn pt_ops(
    alloc: Global,
    forest: &Forest,
    bz: &Listing,
    pt: &Listing,
) -> Result<List<PtOp>, AllocError>
    requires forest { IsForest forest.now }
    requires loaded { length bz.now.places.items ≡ length forest.now }
    requires placed { length pt.now.places.items ≡ length forest.now }
    requires there { All (λ n. n < length forest.now) pt.now.ids.items }
    ensures { IfOk result (λ ops. ops
        ≡ map (λ n. pt_op_of bz.now.places.items pt.now.places.items (vertex_at forest.now n))
        pt.now.ids.items) }
{
    let mut ops = List::new(alloc);
    for id in &pt.ids {
        ops.push(pt_op(forest.get(*id), &bz.places, &pt.places))?;
    }
    Ok(ops)
}

/// Returns the instruction of an expression. No core formula is listed for the Booleanizer.
fn bz_op(vertex: Vertex, places: &[u32]) -> BzOp
    requires { OperandsAreBelow (length places.now) (operands_of vertex) }
    ensures { result ≡ bz_op_of places.now vertex }
{
    match vertex {
        Vertex::Column(column) => BzOp::Column(column),
        Vertex::Const(number) => BzOp::Const(number),
        Vertex::Neg(a) => BzOp::Neg(places[a]),
        Vertex::Arith(op, a, b) => arith_op(op, places[a], places[b]),
        Vertex::IsTrue(column) => BzOp::IsTrue(column),
        Vertex::Eq(a, b) => BzOp::Eq(places[a], places[b]),
        Vertex::Lt(a, b) => BzOp::Lt(places[a], places[b]),
        Vertex::Le(a, b) => BzOp::Le(places[a], places[b]),
        _ => BzOp::IsTrue(0),
    }
}

fn arith_op(op: ArithOp, a: u32, b: u32) -> BzOp
    ensures { result ≡ arith_op op a b }
{
    match op {
        ArithOp::Add => BzOp::Add(a, b),
        ArithOp::Sub => BzOp::Sub(a, b),
        ArithOp::Mul => BzOp::Mul(a, b),
        ArithOp::Div => BzOp::Div(a, b),
        ArithOp::Rem => BzOp::Rem(a, b),
    }
}

/// Returns the instruction of a core formula of the future. No other vertex is listed for the engine.
fn ft_op(vertex: Vertex, loads: &[u32], places: &[u32]) -> FtOp
    requires loads { OperandsAreBelow (length loads.now) (operands_of vertex) }
    requires places { OperandsAreBelow (length places.now) (operands_of vertex) }
    ensures { result ≡ ft_op_of loads.now places.now vertex }
{
    match vertex {
        Vertex::Load(a) => FtOp::Load(loads[a]),
        Vertex::Not(a) => FtOp::Not(places[a]),
        Vertex::And(a, b) => FtOp::And(places[a], places[b]),
        Vertex::Until(i, a, b) => FtOp::Until(places[a], places[b], i),
        _ => FtOp::True,
    }
}

/// Returns the instruction of a core formula of the past. No other vertex is listed for the engine.
fn pt_op(vertex: Vertex, loads: &[u32], places: &[u32]) -> PtOp
    requires loads { OperandsAreBelow (length loads.now) (operands_of vertex) }
    requires places { OperandsAreBelow (length places.now) (operands_of vertex) }
    ensures { result ≡ pt_op_of loads.now places.now vertex }
{
    match vertex {
        Vertex::Load(a) => PtOp::Load(loads[a]),
        Vertex::Not(a) => PtOp::Not(places[a]),
        Vertex::And(a, b) => PtOp::And(places[a], places[b]),
        Vertex::Since(i, a, b) => PtOp::Since(places[a], places[b], i),
        _ => PtOp::True,
    }
}

/// Returns the outputs, with their formulas as indices of instructions of their engine.
pub fn numbered_outs(
    alloc: Global,
    outs: &[PlainOut],
    ids: &[usize],
    ft: &[u32],
    pt: &[u32],
) -> Result<List<Out>, AllocError>
    requires named { All (NamesNodes (length ids.now)) outs.now }
    requires ft { All (λ n. n < length ft.now) ids.now }
    requires pt { All (λ n. n < length pt.now) ids.now }
    ensures { IfOk result (λ new. new ≡ map (placed_out ids.now ft.now pt.now) outs.now) }
{
    let mut new = List::new(alloc);
    for out in outs {
        let numbered = numbered(out, ids, ft, pt);
        new.push(numbered)?;
    }
    Ok(new)
}

/// Returns an output with its formulas as indices of instructions.
fn numbered(out: &PlainOut, ids: &[usize], ft: &[u32], pt: &[u32]) -> Out
    requires named { NamesNodes (length ids.now) out.now }
    requires ft { All (λ n. n < length ft.now) ids.now }
    requires pt { All (λ n. n < length pt.now) ids.now }
    ensures { result ≡ placed_out ids.now ft.now pt.now out.now }
{
    match out {
        PlainOut::Formula(engine, formula, name) => {
            let places = places_for(*engine, ft, pt);
            Out::Formula(*engine, places[ids[*formula as usize]], name.copy())
        }
        PlainOut::Contract(engine, left, right, name) => {
            let places = places_for(*engine, ft, pt);
            let left = places[ids[*left as usize]];
            Out::Contract(*engine, left, places[ids[*right as usize]], name.copy())
        }
    }
}

/// Returns the indices of an engine's instructions by vertex.
fn places_for<'a>(engine: Engine, ft: &'a [u32], pt: &'a [u32]) -> &'a [u32]
    ensures { result.now ≡ places_for engine ft.now pt.now }
{
    match engine {
        Engine::Ft => ft,
        Engine::Pt => pt,
    }
}
