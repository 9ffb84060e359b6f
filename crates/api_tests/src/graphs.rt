//! Tests of the most instructions of a core graph, over comparisons of one signal.

ghost use Rattle.std.specs.Prelude.{All, IfOk};
ghost use Rattle.mltl_base.specs.Subformulas.{IsTensed};
ghost use Rattle.c2po_ast.specs.Nodes.{AreSound, trees};
ghost use Rattle.c2po_ast.specs.Outputs.{NamesFormulas, asked};

use c2po_ast::{Expanded, NodeList, Plain, PlainOut};
use core_graph::{GraphFault, to_core};
use mltl_base::{Columns, CompareOp, Engine, List, Name};
use std::alloc::{AllocError, Global};
use std::test::Fail;

/// Makes `count` comparisons of a signal, each an output: the first with itself, and the others
/// with a number each.
fn comparisons(alloc: Global, name: &Name, count: u32) -> Result<Expanded, AllocError>
    ensures nodes { IfOk result (λ spec. AreSound 1 spec.nodes) }
    ensures outs { IfOk result (λ spec. All (NamesFormulas (trees spec.nodes)) spec.outs) }
    ensures tensed { IfOk result (λ spec. All IsTensed (asked spec)) }
{
    let mut nodes = NodeList::new(alloc);
    let mut outs = List::new(alloc);
    let signal = nodes.push(Plain::Signal(0))?;
    let mut other = signal;
    for n in 0..count {
        let equal = nodes.push(Plain::Compare(CompareOp::Eq, signal, other))?;
        outs.push(PlainOut::Formula(Engine::Ft, equal, name.copy()))?;
        other = nodes.push(Plain::Number(i64::from(n)))?;
    }
    Ok(Expanded {
        nodes: nodes.into_list(),
        outs,
    })
}

/// Returns the numbers of instructions of bz and ft in the core graph of such comparisons, or
/// `None` if they would be too many.
fn sizes(alloc: Global, count: u32) -> Result<Option<(usize, usize)>, AllocError> {
    let Some(name) = Name::of(b"equal") else {
        return Err(AllocError);
    };
    let spec = comparisons(alloc, &name, count)?;
    let mut of_signal = List::new(alloc);
    of_signal.push(0)?;
    let columns = Columns {
        width: 1,
        of_signal,
    };
    match to_core(alloc, &spec, &columns) {
        Ok(graph) => Ok(Some((graph.bz.len(), graph.ft.len()))),
        Err(GraphFault::TooManyNodes) => Ok(None),
        Err(GraphFault::Memory) => Err(AllocError),
    }
}

#[test]
fn has_65536_instructions_at_most(rt: HostRuntime) -> Result<(), Fail> {
    // each comparison takes two instructions of bz: its own, and one for the signal or for its
    // number
    let table = [
        (32_768, Some((65_536, 32_768))),
        (32_769, None),
        (65_537, None),
    ];
    for (count, wanted) in table {
        let answer = sizes(rt.alloc(), count)?;
        assert_eq!(rt; answer, wanted, "{count} comparisons");
    }
    Ok(())
}
