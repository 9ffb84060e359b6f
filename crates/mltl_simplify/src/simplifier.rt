//! The simplified form of an unfolded specification.

ghost use Rattle.std.specs.Prelude.{◌≡◌, ◌+◌, ◌≤◌, ◌<◌, ◌^◌, ℕ, Bool, List as Seq, All, length, map, IfOk};
ghost use Rattle.mltl_base.specs.Atoms.{Row};
ghost use Rattle.mltl_base.specs.Formula.{Formula, wpd};
ghost use Rattle.mltl_base.specs.Meaning.{sat};
ghost use Rattle.mltl_base.specs.Settled.{IsOrdered, Settled};
ghost use Rattle.c2po_ast.specs.Faults.{HasRanges};
ghost use Rattle.c2po_ast.specs.Outputs.{IsSound, asked};
ghost use Rattle.mltl_simplify.specs.Nodes.{ReadsNodes, out_over};
ghost use Rattle.mltl_simplify.specs.Outputs.{InPlaceOf, simple_outputs};

use crate::proxies::{Proxy, place_at, read};
use c2po_ast::{Expanded, NodeList, PlainOut};
use mltl_base::List;
use std::alloc::{AllocError, Global};

/// Returns an output over the indices of the nodes that represent its nodes.
fn out_of(proxies: &[Proxy], out: &PlainOut) -> PlainOut
    requires { ReadsNodes (length proxies.now) out.now }
    ensures { result ≡ out_over proxies.now out.now }
{
    match out {
        PlainOut::Formula(engine, n, name) => {
            PlainOut::Formula(*engine, place_at(proxies, *n), name.copy())
        }
        PlainOut::Contract(engine, n, m, name) => PlainOut::Contract(
            *engine,
            place_at(proxies, *n),
            place_at(proxies, *m),
            name.copy(),
        ),
    }
}

/// Returns all outputs over the indices of the nodes that represent their nodes.
fn outs_of(
    alloc: Global,
    proxies: &[Proxy],
    outs: &[PlainOut],
) -> Result<List<PlainOut>, AllocError>
    requires { All (ReadsNodes (length proxies.now)) outs.now }
    ensures { IfOk result (λ list. list ≡ map (out_over proxies.now) outs.now) }
{
    let mut list = List::new(alloc);
    for out in outs {
        list.push(out_of(proxies, out))?;
    }
    Ok(list)
}

/// Returns the outputs of a specification over the simplified forms of their formulas, with the
/// same names and numbers. Each node is visited once, also if it is shared; no clause bounds the
/// number of nodes that are made.
///
/// Errors: out of memory.
pub fn simplify(alloc: Global, spec: &Expanded) -> Result<Expanded, AllocError>
    requires sound { (signals : ℕ) × IsSound spec.now signals }
    requires ranged { All HasRanges (asked spec.now) }
    ensures outputs { IfOk result (λ simple. asked simple ≡ simple_outputs (asked spec.now)) }
    ensures sound { (signals : ℕ) → IsSound spec.now signals →
        IfOk result (λ simple. IsSound simple signals) }
    ensures ranged { IfOk result (λ simple. All HasRanges (asked simple)) }

    // A formula of the result has the meaning of the formula in its place, is decided no later, and
    // a value that is settled for it is settled for that formula.
    ensures meaning { IfOk result (λ simple. (p q : Formula) (rows : Seq Row) (t : ℕ) →
        InPlaceOf (asked spec.now) (asked simple) p q → IsOrdered p →
        sat rows q t ≡ sat rows p t) }
    ensures delay { IfOk result (λ simple. (p q : Formula) →
        InPlaceOf (asked spec.now) (asked simple) p q → wpd q ≤ wpd p) }
    ensures settled { IfOk result (λ simple. (p q : Formula) (rows : Seq Row) (t : ℕ) (v : Bool) →
        InPlaceOf (asked spec.now) (asked simple) p q → IsOrdered p →
        Settled rows q t v → Settled rows p t v) }
{
    let mut simple = NodeList::new(alloc);
    let proxies = read(alloc, &mut simple, spec.nodes.as_slice())?;
    let outs = outs_of(alloc, &proxies, spec.outs.as_slice())?;
    Ok(Expanded {
        nodes: simple.into_list(),
        outs,
    })
}
